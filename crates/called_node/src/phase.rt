//! What a phase leaves.
#![tactic(auto)]

ghost use Rattle.std.specs.Prelude.{◌≡◌, [], ◌∷◌, false, map, All, IfOk};
ghost use Rattle.file_flash.specs.Noted.{IsInside, put_of};
ghost use Rattle.mesh_node.specs.Told.{IsPrintablePhase, did_of};
ghost use Rattle.node_bearer.specs.Did.{AreEvents};
ghost use Rattle.called_node.specs.Called.{HasStory, IsPhaseDone, NoneCounted, text_of};

use file_flash::{Backing, NotedFlash, NotedPlace, Write};
use flash_model::Flash;
use machine_contract::Machine;
use mesh_base::memory::MemSink;
use mesh_node::{HeldLife, HeldPhase, PhaseLog};
use mesh_types::events::Event;
use report_writer::write_phase;
use std::alloc::{AllocError, Global};

/// A life behind a phase, and what the phase left.
#[derive(Drop)]
pub(crate) struct PhaseLeft<M: Machine> {
    /// The life.
    pub(crate) life: HeldLife<M, NotedFlash>,
    /// The writes of the flash, in their order.
    pub(crate) writes: Vec<Write>,
    /// The text of the report, with the octets of network PDUs.
    pub(crate) report: Vec<u8>,
}

/// The text of the lines of a phase, as a report with the octets of network PDUs has it.
fn report_text(alloc: Global, log: &PhaseLog) -> Result<Vec<u8>, AllocError>
    requires room { IsPrintablePhase (did_of log.now) }
    ensures value { IfOk result (λ text. text.items ≡ text_of (did_of log.now)) }
{
    let mut sink = MemSink::new(alloc, &[])?;
    match write_phase(
        alloc,
        &mut sink,
        true,
        log.first,
        log.entries.as_slice(),
        log.sends.as_slice(),
    ) {
        Ok(()) => sink.octets().to_vec(alloc),
        Err(_) => Err(AllocError),
    }
}

/// Has a life do a phase of these events, and takes what it leaves. For want of memory the life is dropped.
pub(crate) fn do_phase<M: Machine>(
    alloc: Global,
    life: HeldLife<M, NotedFlash>,
    events: &[Event],
) -> Result<PhaseLeft<M>, AllocError>
    requires usable { life.node.machine.closed ≡ false }
    requires events { AreEvents life.node.machine.elements events.now }
    requires story { HasStory M.role M.image ⟦<NotedFlash as Flash>⟧.chip life }
    requires counted { NoneCounted ⟦<NotedFlash as Flash>⟧.chip life }
    ensures story { IfOk result (λ r. HasStory M.role M.image ⟦<NotedFlash as Flash>⟧.chip r.life) }
    ensures inside { IfOk result (λ r. All IsInside r.writes.items) }
    ensures done { IfOk result
        (λ r. IsPhaseDone M.role M.image ⟦<NotedFlash as Flash>⟧.chip (λ f. ⟦<NotedPlace as Backing>⟧.waiting f.backing) (events.now ∷ [])
        life r.life (map put_of r.writes.items) r.report.items) }
{
    let done = life.phase(alloc, events)?;
    let HeldPhase { mut life, log } = done;
    let report = report_text(alloc, &log)?;
    let writes = life.take_writes();
    Ok(PhaseLeft {
        life,
        writes,
        report,
    })
}
