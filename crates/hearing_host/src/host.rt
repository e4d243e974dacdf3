//! The life between a list of PDUs and what is kept.
#![tactic(auto)]

ghost use Rattle.std.specs.Prelude.{◌≡◌, ◌≤◌, IfOk};
ghost use Rattle.flash_model.specs.Chip.{IsFresh};
ghost use Rattle.machine_contract.specs.Opening.{IsNodeFlash};
ghost use Rattle.mesh_node.specs.declared.told.LastStep.TheVariants as L;
ghost use Rattle.hearing_host.specs.Heard.{HeardAll, dids};

use crate::ends::{HeardPdus, KeptLogs};
use flash_model::Flash;
use locked_node::Known;
use machine_contract::{Machine, StartFault};
use mesh_base::octets::Octets;
use mesh_node::{Beginning, LifeLeft, live_alone};
use std::alloc::Global;
use std::collections::VecDeque;

/// A life in which PDUs were heard.
#[derive(Drop)]
pub struct Heard<F> {
    /// What each phase left.
    pub kept: KeptLogs,
    /// What is left of the life, with the flash.
    pub lived: LifeLeft<F>,
}

/// Opens a life over a flash, which power has come to, and has the node hear these PDUs, one after another.
///
/// # Errors
///
/// As `start` of a machine; and want of memory in a phase, where the flash is dropped. It is dropped too where the node isn't started.
pub fn hear_all<M: Machine, F: Flash + Send + Drop>(
    alloc: Global,
    flash: F,
    pdus: VecDeque<Octets<40>>,
) -> Result<Heard<F>, StartFault>
    requires fresh { IsFresh (F.chip flash) }
    requires node { IsNodeFlash M.image (F.chip flash) }
    requires began { (F.chip flash).setting.faults ≤ (F.chip flash).faults }
    ensures heard { IfOk result
        (λ r. r.lived.last ≡ L.Ended
        → HeardAll M.role pdus.items (dids r.kept) (F.chip flash) (F.chip r.lived.flash) r.lived.refills
        r.lived.drawn) }
{
    let mut flash = flash;
    let Ok(start) = Known::of(alloc, &flash) else {
        return Err(StartFault::Memory);
    };
    let started = M::start(alloc, &mut flash)?;
    let beginning = Beginning {
        flash,
        start,
        started,
        bearers: 1,
    };
    let mut source = HeardPdus { left: pdus, alloc };
    let mut kept = KeptLogs {
        logs: Vec::new(alloc),
    };
    match live_alone(alloc, beginning, &mut source, &mut kept) {
        Ok(lived) => Ok(Heard { kept, lived }),
        Err(_) => Err(StartFault::Memory),
    }
}
