//! The two edges of a life: what its loop begins with, and what is left behind it.
#![tactic(auto)]

ghost use Rattle.std.specs.Prelude.{◌≡◌, ◌≤◌, [], replicate, false, IfOk};
ghost use Rattle.flash_model.specs.Chip.{Keeps};
ghost use Rattle.machine_contract.specs.Started.{IsStarted};
ghost use Rattle.mesh_node.specs.Going.{IsBetween};
ghost use Rattle.mesh_node.specs.Left.{HasLeft};

use crate::phases::Seats;
use crate::told::LastStep;
use flash_model::Flash;
use locked_node::{Known, Node};
use machine_contract::{Machine, Started};
use node_limits::BEARERS;
use seq_word::Closed;
use std::alloc::{AllocError, Global};
use store_definitions::recovery::one_list_is_recovered;

/// A node that was opened, at the beginning of its life.
#[derive(Drop)]
pub struct Beginning<M: Machine, F: Flash + Send + Drop> {
    /// The flash, which the machine was started from.
    pub flash: F,
    /// The flash as it was before.
    pub start: Known<F>,
    /// The machine, with what its bearers share.
    pub started: Started<M>,
    /// The number of bearers, at most `BEARERS` of `node_limits`.
    pub bearers: u8,
}

/// A life between two of its phases.
#[derive(Drop)]
pub struct Going<M: Machine, F: Flash + Send + Drop> {
    pub node: Node<M, F>,
    pub seats: Seats<M>,
    pub bearers: u8,
    pub elements: u8,
}

/// A life behind its last phase.
#[derive(Drop)]
pub struct Gone<M: Machine, F: Flash + Send + Drop> {
    pub node: Node<M, F>,
    pub seats: Seats<M>,
    pub last: LastStep,
}

/// What is left of a life that went on.
#[derive(Drop)]
pub struct LifeLeft<F> {
    /// The flash.
    pub flash: F,
    /// The number of refills that were stored after the last entry.
    pub refills: u32,
    /// What the counter and the mark were at the end.
    pub drawn: Closed,
    /// Whether the flash failed: then the life was cut.
    pub closed: bool,
    /// Why it took no phase more.
    pub last: LastStep,
}

/// What the loop of a life begins with.
pub fn begin<M: Machine, F: Flash + Send + Drop>(
    alloc: Global,
    beginning: Beginning<M, F>,
) -> Result<Going<M, F>, AllocError>
    requires started { IsStarted M.view M.stands (F.chip beginning.start) (F.chip beginning.flash) beginning.started }
    requires kept { Keeps (F.chip beginning.start) (F.chip beginning.flash) }
    requires few { beginning.bearers ≤ BEARERS }
    ensures start { IfOk result (λ r. r.node.start ≡ beginning.start) }
    ensures flash { IfOk result (λ r. r.node.flash ≡ beginning.flash) }
    ensures numbers { IfOk result (λ r. r.seats.numbers ≡ beginning.started.numbers) }
    ensures bearers { IfOk result (λ r. r.bearers ≡ beginning.bearers) }
    ensures between { IfOk result (λ r. IsBetween r.seats r.node) }
    ensures drawn { IfOk result (λ r. r.seats.drawer.drawn ≡ []) }
    ensures counts { IfOk result (λ r. r.seats.counts.items ≡ replicate r.bearers 0) }
    ensures elements { IfOk result (λ r. r.node.machine.elements ≡ r.elements) }
    ensures begins { IfOk result (λ r. r.node.machine.entries ≡ []) }
    ensures usable { IfOk result (λ r. r.node.machine.closed ≡ false) }
{
    // They do nothing when they run: the proof uses what they say.
    M::tells::<F>();
    one_list_is_recovered();
    let Beginning {
        flash,
        start,
        started,
        bearers,
    } = beginning;
    let Started {
        machine,
        numbers,
        mut drawer,
        state: _,
        mark: _,
    } = started;
    let elements = machine.elements();
    let watcher = numbers.watcher(&mut drawer);
    let node = Node::new(alloc, machine, watcher, flash, start)?;
    let seats = Seats::new(alloc, numbers, drawer, bearers)?;
    Ok(Going {
        node,
        seats,
        bearers,
        elements,
    })
}

/// What is left behind the last phase of a life.
pub fn end_life<M: Machine, F: Flash + Send + Drop>(gone: Gone<M, F>) -> LifeLeft<F>
    requires drawer { gone.seats.drawer.which ≡ gone.seats.numbers.which }
    requires machine { gone.node.machine.which ≡ gone.seats.numbers.which }
    requires parts { gone.seats.drawer.parts ≡ 1024 }
    requires free { gone.seats.drawer.owes ≡ 0 }
    ensures last { result.last ≡ gone.last }
    ensures left { HasLeft M.view M.stands M.role M.image F.chip gone.node gone.seats.numbers.opened gone.seats.drawer result.flash
        result.refills result.drawn result.closed }
{
    // They do nothing when they run: the proof uses what they say.
    one_list_is_recovered();
    M::tells::<F>();
    let Gone { node, seats, last } = gone;
    node.known();
    let (machine, flash) = node.into_parts();
    let closed = machine.is_closed();
    let (left, keeper) = machine.finish();
    let Seats {
        numbers,
        drawer,
        counts: _,
        entries: _,
        kept: _,
    } = seats;
    let drawn = numbers.close(keeper, drawer);
    LifeLeft {
        flash,
        refills: left.refills,
        drawn,
        closed,
        last,
    }
}
