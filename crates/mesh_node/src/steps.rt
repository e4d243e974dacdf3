//! The steps of a plan, one after another.
#![tactic(auto)]

ghost use Rattle.std.specs.Prelude.{◌≡◌, ◌≢◌, ℕ, ◌<◌, List, [], ◌∷◌, ◌++◌, length, map, All, None, true, false, IfOk, OnOk, replicate};
ghost use Rattle.mesh_types.specs.declared.events.Event.{Event};
ghost use Rattle.record_types.specs.declared.records.StoreRecord.{StoreRecord};
ghost use Rattle.run_definitions.specs.Order.{phases_of};
ghost use Rattle.store_definitions.specs.Recovered.{IsRecovered};
ghost use Rattle.machine_contract.specs.declared.answers.Hand.TheVariants as Hands;
ghost use Rattle.machine_contract.specs.Opening.{found_of};
ghost use Rattle.node_bearer.specs.Did.{AreEvents};
ghost use Rattle.mesh_node.specs.Given.{BeginWith, IsSameOrPlaced, IsUnfilled};
ghost use Rattle.mesh_node.specs.Going.{AreTold, IsBetween, IsGoing, IsOver};
ghost use Rattle.life_laws.specs.Plan.{IsStep, behind_arm, step_of, steps_of};
ghost use Rattle.mesh_node.specs.Steps.{HasGiven, IsArmedBy, IsArmedFirst, IsSameNode, IsSameOrOf, MayArm, MayFollow};

use crate::going::one_phase;
use crate::host::Host;
use crate::phases::Seats;
use crate::told::PhaseLog;
use flash_model::Bench;
use life_laws::plan::PlanStep;
use locked_node::Node;
use machine_contract::Machine;
use mesh_types::events::Event;
use node_phase::Gate;
use std::alloc::AllocError;
use std::sync::Wait;
use std::thread::Threads;
use store_definitions::recovery::one_list_is_recovered;

/// Gives the flash the order that stands first among the steps, if there is one. Returns the steps behind it.
pub fn arm_first<'a, B: Bench>(flash: &mut B, steps: &'a [PlanStep]) -> &'a [PlanStep]
    requires unarmed { (B.chip flash.old).setting.arm ≡ None }
    ensures behind { result.now ≡ behind_arm steps.now }
    ensures armed { IsArmedFirst steps.now (B.chip flash.old) (B.chip flash.new) }
{
    match steps.split_first() {
        Some((PlanStep::Arm { calls, mask }, behind)) => {
            flash.arm(*calls, *mask);
            behind
        }
        Some((PlanStep::Phase(_), _)) | None => steps,
    }
}

/// One phase, whose log is put behind that of the phases before. Returns the node behind it, and whether the flash failed.
fn do_phase<M: Machine, F: Bench, G: Gate, R: Threads + Wait + Sync>(
    host: &Host<R, G>,
    node: Node<M, F>,
    seats: &mut Seats<M>,
    log: &mut PhaseLog,
    lists: &[Vec<Event>],
) -> Result<(Node<M, F>, bool), AllocError>
    requires between { IsBetween seats.old node }
    requires lists { length lists.now ≡ length seats.old.counts.items }
    requires sends { length log.old.sends.items ≡ length seats.old.counts.items }
    requires events { All (λ v. AreEvents node.machine.elements v.items) lists.now }
    ensures numbers { seats.new.numbers ≡ seats.old.numbers }
    ensures which { seats.new.drawer.which ≡ seats.old.drawer.which }
    ensures parts { OnOk result (seats.new.drawer.parts ≡ 1024) }
    ensures free { OnOk result (seats.new.drawer.owes ≡ 0) }
    ensures frame { IfOk result (λ r. IsSameNode node r.0) }
    ensures unfilled { node.machine.hand ≢ Hands.OfRefill → IfOk result (λ r. IsUnfilled node.machine r.0.machine) }
    ensures arm { IfOk result (λ r. (F.chip r.0.flash).setting.arm ≡ (F.chip node.flash).setting.arm) }
    ensures saved { IfOk result (λ r. (F.chip r.0.flash).setting.saved ≡ (F.chip node.flash).setting.saved) }
    ensures many { OnOk result
        ((length seats.new.counts.items ≡ length seats.old.counts.items)
        × (length log.new.sends.items ≡ length log.old.sends.items)) }
    ensures longer { OnOk result
        (BeginWith (map (λ v. v.items) log.old.sends.items) (map (λ v. v.items) log.new.sends.items)) }
    ensures told { AreTold log.old.entries.items node
        → IfOk result (λ r. AreTold log.new.entries.items r.0) }
    ensures going { (phases : List (List (List Event)))
        → IsGoing phases node seats.old.drawer (map (λ v. v.items) log.old.sends.items) seats.old.counts.items
        → IfOk result
        (λ r. r.1 ≡ false
        → IsGoing (phases ++ map (λ v. v.items) lists.now ∷ []) r.0 seats.new.drawer
        (map (λ v. v.items) log.new.sends.items) seats.new.counts.items) }
    ensures over { (phases rest : List (List (List Event)))
        → IsGoing phases node seats.old.drawer (map (λ v. v.items) log.old.sends.items) seats.old.counts.items
        → IfOk result
        (λ r. r.1 ≡ true
        → IsOver (phases ++ map (λ v. v.items) lists.now ∷ rest) r.0 seats.new.drawer
        (map (λ v. v.items) log.new.sends.items)) }
    ensures between { IfOk result (λ r. r.1 ≡ false → IsBetween seats.new r.0) }
    ensures stopped { IfOk result (λ r. r.1 ≡ true → 0 < r.0.stops) }
{
    let done = one_phase(host.rt, host.alloc, host.gate, node, seats, lists)?;
    log.add(done.log)?;
    Ok((done.node, done.closed))
}

/// One step. Returns the node behind it, and whether the flash failed in it.
pub fn do_step<M: Machine, F: Bench, G: Gate, R: Threads + Wait + Sync>(
    host: &Host<R, G>,
    node: Node<M, F>,
    seats: &mut Seats<M>,
    log: &mut PhaseLog,
    step: &PlanStep,
) -> Result<(Node<M, F>, bool), AllocError>
    requires between { IsBetween seats.old node }
    requires sends { length log.old.sends.items ≡ length seats.old.counts.items }
    requires step { IsStep (length seats.old.counts.items) node.machine.elements step.now }
    requires arm { MayArm step.now (F.chip node.flash) }
    ensures numbers { seats.new.numbers ≡ seats.old.numbers }
    ensures which { seats.new.drawer.which ≡ seats.old.drawer.which }
    ensures parts { OnOk result (seats.new.drawer.parts ≡ 1024) }
    ensures free { OnOk result (seats.new.drawer.owes ≡ 0) }
    ensures frame { IfOk result (λ r. IsSameNode node r.0) }
    ensures unfilled { node.machine.hand ≢ Hands.OfRefill → IfOk result (λ r. IsUnfilled node.machine r.0.machine) }
    ensures arm { IfOk result (λ r. IsArmedBy step.now (F.chip node.flash) (F.chip r.0.flash)) }
    ensures saved { IfOk result (λ r. (F.chip r.0.flash).setting.saved ≡ (F.chip node.flash).setting.saved) }
    ensures many { OnOk result
        ((length seats.new.counts.items ≡ length seats.old.counts.items)
        × (length log.new.sends.items ≡ length log.old.sends.items)) }
    ensures longer { OnOk result
        (BeginWith (map (λ v. v.items) log.old.sends.items) (map (λ v. v.items) log.new.sends.items)) }
    ensures told { AreTold log.old.entries.items node
        → IfOk result (λ r. AreTold log.new.entries.items r.0) }
    ensures going { (phases : List (List (List Event)))
        → IsGoing phases node seats.old.drawer (map (λ v. v.items) log.old.sends.items) seats.old.counts.items
        → IfOk result
        (λ r. r.1 ≡ false
        → IsGoing (phases ++ phases_of (step_of step.now ∷ [])) r.0 seats.new.drawer
        (map (λ v. v.items) log.new.sends.items) seats.new.counts.items) }
    ensures over { (phases rest : List (List (List Event)))
        → IsGoing phases node seats.old.drawer (map (λ v. v.items) log.old.sends.items) seats.old.counts.items
        → IfOk result
        (λ r. r.1 ≡ true
        → IsOver (phases ++ (phases_of (step_of step.now ∷ []) ++ rest)) r.0 seats.new.drawer
        (map (λ v. v.items) log.new.sends.items)) }
    ensures between { IfOk result (λ r. r.1 ≡ false → IsBetween seats.new r.0) }
    ensures stopped { IfOk result (λ r. r.1 ≡ true → 0 < r.0.stops) }
{
    match step {
        PlanStep::Arm { calls, mask } => {
            let mut node = node;
            node.arm(*calls, *mask);
            Ok((node, false))
        }
        PlanStep::Phase(lists) => do_phase(host, node, seats, log, lists.as_slice()),
    }
}

/// All steps, up to the first in which the flash failed. Returns the node behind them, and the log of their phases.
pub fn do_steps<M: Machine, F: Bench, G: Gate, R: Threads + Wait + Sync>(
    host: &Host<R, G>,
    node: Node<M, F>,
    seats: &mut Seats<M>,
    bearers: u8,
    steps: &[PlanStep],
) -> Result<(Node<M, F>, PhaseLog), AllocError>
    requires between { IsBetween seats.old node }
    requires drawn { seats.old.drawer.drawn ≡ [] }
    requires counts { seats.old.counts.items ≡ replicate bearers 0 }
    requires steps { All (IsStep bearers node.machine.elements) steps.now }
    requires may { MayFollow steps.now (F.chip node.flash).setting.arm }
    requires begins { node.machine.entries ≡ [] }
    requires uncounted { node.counters ≡ [] }
    ensures numbers { seats.new.numbers ≡ seats.old.numbers }
    ensures which { seats.new.drawer.which ≡ seats.old.drawer.which }
    ensures parts { OnOk result (seats.new.drawer.parts ≡ 1024) }
    ensures free { OnOk result (seats.new.drawer.owes ≡ 0) }
    ensures frame { IfOk result (λ r. IsSameNode node r.0) }
    ensures arm { IfOk result
        (λ r. IsSameOrOf (steps_of steps.now) (F.chip node.flash).setting.arm (F.chip r.0.flash).setting.arm) }
    ensures saved { IfOk result (λ r. (F.chip r.0.flash).setting.saved ≡ (F.chip node.flash).setting.saved) }
    ensures held { IfOk result (λ r. (F.chip node.flash).setting.arm ≢ None → (F.chip r.0.flash).setting.arm ≢ None) }
    ensures given { IfOk result (λ r. r.0.stops ≡ 0 → HasGiven (steps_of steps.now) (F.chip r.0.flash).setting.arm) }
    ensures placed { (over : List StoreRecord) → IsRecovered (F.chip node.start).now over
        → IfOk result
        (λ r. IsSameOrPlaced M.view (M.stands (found_of (F.chip node.start))) F.chip over r.0.machine
        (map (λ v. v.items) r.1.sends.items) (steps_of steps.now) (F.chip node.flash).setting.arm (F.chip r.0.flash).setting.arm) }
    ensures many { IfOk result (λ r. length r.1.sends.items ≡ bearers) }
    ensures told { IfOk result (λ r. AreTold r.1.entries.items r.0) }
    ensures over { IfOk result
        (λ r. IsOver (phases_of (steps_of steps.now)) r.0 seats.new.drawer (map (λ v. v.items) r.1.sends.items)) }
{
    // It does nothing when it runs: the proof uses what it says.
    one_list_is_recovered();
    let mut log = PhaseLog::none(host.alloc, bearers)?;
    let mut node = node;
    for step in steps {
        // Nor does this.
        node.known();
        let (next, closed) = do_step(host, node, seats, &mut log, step)?;
        node = next;
        if closed {
            return Ok((node, log));
        }
    }
    Ok((node, log))
}
