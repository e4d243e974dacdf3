//! A life that goes on: phase by phase, as they come. What a phase left is told at once, and nothing of it is kept.
#![tactic(auto)]

ghost use Rattle.std.specs.Prelude.{◌≡◌, ◌≢◌, ◌<◌, ◌≤◌, List, [], ◌∷◌, ◌++◌, length, map, replicate, All, true, false, IfOk, OnOk, OnErr};
ghost use Rattle.flash_model.specs.Chip.{Keeps};
ghost use Rattle.mesh_types.specs.declared.events.Event.{Event};
ghost use Rattle.mesh_types.specs.declared.history.Entry.{Entry};
ghost use Rattle.mesh_types.specs.declared.history.Sent.{Sent};
ghost use Rattle.machine_contract.specs.declared.answers.Hand.TheVariants as Hands;
ghost use Rattle.machine_contract.specs.Opening.{found_of};
ghost use Rattle.machine_contract.specs.Started.{IsStarted};
ghost use Rattle.locked_node.specs.Stands.{IsNode};
ghost use Rattle.node_bearer.specs.Did.{AreEvents};
ghost use Rattle.life_laws.specs.Phases.{both_of};
ghost use Rattle.mesh_node.specs.Due.{IsDueSince};
ghost use Rattle.mesh_node.specs.Given.{IsUnfilled, Stood};
ghost use Rattle.mesh_node.specs.Going.{AreTold, IsBetween, IsGoing, IsOver};
ghost use Rattle.mesh_node.specs.Lived.{FellShort, LivedOn, WentOn};
ghost use Rattle.mesh_node.specs.Steps.{IsSameNode};
ghost use Rattle.mesh_node.specs.Told.{IsPartDone, IsPrintablePhase, did_of};

use crate::edges::{Beginning, Going, Gone, LifeLeft, begin, end_life};
use crate::log::has_stopped;
use crate::phases::{PhaseDone, Seats, take_log};
use crate::told::{PhaseSink, PhaseSource, ask, tell_phase};
use flash_model::Flash;
use locked_node::Node;
use machine_contract::Machine;
use mesh_types::events::Event;
use node_limits::BEARERS;
use node_phase::{Gate, PhaseHost, run_phase};
use std::alloc::{AllocError, Global};
use std::sync::Wait;
use std::thread::Threads;
use store_definitions::recovery::one_list_is_recovered;

/// One phase of a life: each bearer has one of these lists of events. What the phase left is taken from the node, so that nothing of it is
/// kept there. For want of memory the node is dropped with its flash.
///
/// What is told is what was done in this phase (`part`). `going` and `over` carry on what holds of the phases before: of a life that goes on, and
/// of one that is over since the flash failed. No refill is stored before the phase's first entry (`unfilled`).
pub fn one_phase<M: Machine, F: Flash + Send + Drop, G: Gate, R: Threads + Wait + Sync>(
    rt: &R,
    alloc: Global,
    gate: &G,
    node: Node<M, F>,
    seats: &mut Seats<M>,
    lists: &[Vec<Event>],
) -> Result<PhaseDone<M, F>, AllocError>
    requires between { IsBetween seats.old node }
    requires lists { length lists.now ≡ length seats.old.counts.items }
    requires events { All (λ v. AreEvents node.machine.elements v.items) lists.now }
    ensures numbers { seats.new.numbers ≡ seats.old.numbers }
    ensures which { seats.new.drawer.which ≡ seats.old.drawer.which }
    ensures parts { OnOk result (seats.new.drawer.parts ≡ 1024) }
    ensures free { OnOk result (seats.new.drawer.owes ≡ 0) }
    ensures many { OnOk result (length seats.new.counts.items ≡ length seats.old.counts.items) }
    ensures bearers { IfOk result (λ r. length r.log.sends.items ≡ length seats.old.counts.items) }
    ensures frame { IfOk result (λ r. IsSameNode node r.node) }
    ensures arm { IfOk result (λ r. (F.chip r.node.flash).setting.arm ≡ (F.chip node.flash).setting.arm) }
    ensures saved { IfOk result (λ r. (F.chip r.node.flash).setting.saved ≡ (F.chip node.flash).setting.saved) }
    ensures closed { IfOk result (λ r. r.closed ≡ r.node.machine.closed) }
    ensures stopped { IfOk result (λ r. r.closed ≡ true → 0 < r.node.stops) }
    ensures known { IfOk result (λ r. IsNode M.role M.image F.chip r.node) }
    ensures between { IfOk result (λ r. r.closed ≡ false → IsBetween seats.new r.node) }
    ensures unfilled { node.machine.hand ≢ Hands.OfRefill
        → IfOk result (λ r. IsUnfilled node.machine r.node.machine) }
    ensures place { IfOk result (λ r. r.log.first ≡ seats.old.entries) }
    ensures part { IfOk result (λ r. IsPartDone r.closed (map (λ v. v.items) lists.now) (did_of r.log)) }
    ensures told { (entries : List Entry) → AreTold entries node
        → IfOk result (λ r. AreTold (entries ++ r.log.entries.items) r.node) }
    ensures room { (phases : List (List (List Event))) (sends : List (List Sent))
        → IsGoing phases node seats.old.drawer sends seats.old.counts.items
        → IfOk result (λ r. IsPrintablePhase (did_of r.log)) }
    ensures going { (phases : List (List (List Event))) (sends : List (List Sent))
        → IsGoing phases node seats.old.drawer sends seats.old.counts.items
        → IfOk result
        (λ r. r.closed ≡ false
        → IsGoing (phases ++ map (λ v. v.items) lists.now ∷ []) r.node seats.new.drawer
        (both_of sends (map (λ v. v.items) r.log.sends.items)) seats.new.counts.items) }
    ensures over { (phases rest : List (List (List Event))) (sends : List (List Sent))
        → IsGoing phases node seats.old.drawer sends seats.old.counts.items
        → IfOk result
        (λ r. r.closed ≡ true
        → IsOver (phases ++ map (λ v. v.items) lists.now ∷ rest) r.node seats.new.drawer
        (both_of sends (map (λ v. v.items) r.log.sends.items))) }
{
    let host = PhaseHost {
        rt,
        alloc,
        gate,
        numbers: &seats.numbers,
    };
    let (mut node, dones) = run_phase(
        &host,
        &mut seats.drawer,
        node,
        lists,
        seats.counts.as_slice(),
        &mut seats.kept,
    )?;
    let closed = has_stopped(dones.as_slice())?;
    let log = take_log(alloc, &mut node, seats, dones)?;
    Ok(PhaseDone { node, log, closed })
}

/// Takes phases as they come, has each done, and tells what it left, until none is to be done.
fn go_on<
    M: Machine,
    F: Flash + Send + Drop,
    G: Gate,
    R: Threads + Wait + Sync,
    S: PhaseSource,
    T: PhaseSink,
>(
    rt: &R,
    alloc: Global,
    gate: &G,
    life: Going<M, F>,
    source: &mut S,
    sink: &mut T,
) -> Result<Gone<M, F>, AllocError>
    requires between { IsBetween life.seats life.node }
    requires drawn { life.seats.drawer.drawn ≡ [] }
    requires counts { life.seats.counts.items ≡ replicate life.bearers 0 }
    requires elements { life.node.machine.elements ≡ life.elements }
    requires begins { life.node.machine.entries ≡ [] }
    requires usable { life.node.machine.closed ≡ false }
    ensures numbers { IfOk result (λ r. r.seats.numbers ≡ life.seats.numbers) }
    ensures which { IfOk result (λ r. r.seats.drawer.which ≡ life.seats.drawer.which) }
    ensures parts { IfOk result (λ r. r.seats.drawer.parts ≡ 1024) }
    ensures free { IfOk result (λ r. r.seats.drawer.owes ≡ 0) }
    ensures frame { IfOk result (λ r. IsSameNode life.node r.node) }
    ensures short { OnErr result
        (FellShort M.role (IsDueSince M.role M.quiet (F.chip life.node.start)) S.steps T.steps source.old source.new sink.old sink.new life.bearers
        (F.chip life.node.start)) }
    ensures went { IfOk result
        (λ r. WentOn (IsDueSince M.role M.quiet (F.chip life.node.start)) S.steps T.steps source.old source.new sink.old sink.new life.bearers r.node r.seats.drawer life.node.flash
        r.last r.node.machine.closed) }
{
    let Going {
        mut node,
        mut seats,
        bearers,
        elements,
    } = life;
    // They do nothing when they run: the proof uses what they say.
    node.known();
    one_list_is_recovered();
    for _phase in 0..u64::MAX {
        let lists = match ask(source, bearers, elements, node.due()) {
            Ok(lists) => lists,
            Err(last) => return Ok(Gone { node, seats, last }),
        };
        let done = one_phase(rt, alloc, gate, node, &mut seats, lists.as_slice())?;
        node = done.node;
        if let Some(last) = tell_phase(sink, done.log, done.closed) {
            return Ok(Gone { node, seats, last });
        }
    }
    Err(AllocError)
}

/// A life that goes on as long as phases come. What each left is told once it is over, so once it is stored, and nothing of it is kept. The
/// life ends behind the phase in which the flash failed, and behind one that the sink wasn't told of.
///
/// For want of memory the flash is dropped; so it is after 2^64 - 1 phases. What the sink was told before is stored all the same (`short`).
pub fn live_on<
    M: Machine,
    F: Flash + Send + Drop,
    G: Gate,
    R: Threads + Wait + Sync,
    S: PhaseSource,
    T: PhaseSink,
>(
    rt: &R,
    alloc: Global,
    gate: &G,
    beginning: Beginning<M, F>,
    source: &mut S,
    sink: &mut T,
) -> Result<LifeLeft<F>, AllocError>
    requires started { IsStarted M.view M.stands (F.chip beginning.start) (F.chip beginning.flash) beginning.started }
    requires kept { Keeps (F.chip beginning.start) (F.chip beginning.flash) }
    requires few { beginning.bearers ≤ BEARERS }
    ensures lived { IfOk result
        (λ r. LivedOn (Stood M.view (M.stands (found_of (F.chip beginning.start))) F.chip r.flash) M.role M.image (IsDueSince M.role M.quiet (F.chip beginning.start)) S.steps T.steps source.old source.new sink.old sink.new beginning.bearers
        (F.chip beginning.start) (F.chip r.flash) beginning.flash r.flash r.refills r.drawn r.closed r.last) }
    ensures short { OnErr result
        (FellShort M.role (IsDueSince M.role M.quiet (F.chip beginning.start)) S.steps T.steps source.old source.new sink.old sink.new beginning.bearers
        (F.chip beginning.start)) }
{
    let life = begin(alloc, beginning)?;
    let gone = go_on(rt, alloc, gate, life, source, sink)?;
    Ok(end_life(gone))
}
