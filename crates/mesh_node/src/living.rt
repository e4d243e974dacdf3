//! One life, from power on to its end.
#![tactic(auto)]

ghost use Rattle.std.specs.Prelude.{◌≡◌, ◌≤◌, List, [], All, None, IfOk, IfSome};
ghost use Rattle.flash_model.specs.Chip.{Keeps};
ghost use Rattle.record_types.specs.declared.records.StoreRecord.{StoreRecord};
ghost use Rattle.run_definitions.specs.Order.{is_cut};
ghost use Rattle.store_definitions.specs.Config.{config_of};
ghost use Rattle.store_definitions.specs.Recovered.{IsRecovered};
ghost use Rattle.machine_contract.specs.Started.{IsStarted};
ghost use Rattle.machine_contract.specs.Opening.{IsNodeFlash};
ghost use Rattle.mesh_node.specs.Lives.{IsPlanned, Lives, cut_calls};
ghost use Rattle.life_laws.specs.Plan.{IsStep, behind_arm, steps_of};
ghost use Rattle.mesh_node.specs.Ran.{Ran};
ghost use Rattle.mesh_node.specs.Steps.{IsFirstGiven, IsOfPlan, MayFollow, first_order};

use crate::host::Host;
use crate::phases::Seats;
use crate::steps::{arm_first, do_steps};
use flash_model::Bench;
use life_laws::plan::{LifeLog, LifePlan, PlanStep};
use locked_node::{Known, Node};
use machine_contract::{EarlyReads, History, Machine, StartFault, Started};
use mesh_types::report::{End, Opened};
use node_limits::BEARERS;
use node_phase::Gate;
use std::alloc::{AllocError, Global};
use std::sync::Wait;
use std::thread::Threads;
use store_definitions::recovery::one_list_is_recovered;

/// One life of a node: power is cycled, an order to tear a call that stands first in the plan is given, the node opens over what the flash
/// recovers, its bearers do what they have, and the flash is handed back. The flash is honest, and each image of it recovers a node or a
/// reset; so it is when it is handed back. For want of memory the flash is dropped.
///
/// Over a flash that fails by an order alone it is cut as it opens only where it migrates format 01 (`opening` of `Lives`). Over any flash, the
/// program and erase calls of a life are at most what its records and a migration cost (`paid`), or what opening costs one that wasn't run
/// (`opening_calls`, `reset`, `reset_calls`).
pub fn life<M: Machine, B: Bench, G: Gate, R: Threads + Wait + Sync>(
    rt: &R,
    alloc: Global,
    flash: B,
    plan: &LifePlan,
    gate: &G,
) -> Result<(LifeLog, B), AllocError>
    requires node { IsNodeFlash M.image (B.chip flash) }
    requires plan { IsPlanned (B.chip flash) plan.now }
    ensures life { IfOk result
        (λ r. Lives M.view M.stands B.chip M.role M.image (steps_of plan.now.steps.items) (B.chip flash) r.0 r.1) }
{
    let mut flash = flash;
    flash.power_cycle();
    let steps = arm_first(&mut flash, plan.steps.as_slice());
    let start = Known::of(alloc, &flash)?;
    // It does nothing when it runs: the proof uses what it says.
    one_list_is_recovered();
    match M::start(alloc, &mut flash) {
        Ok(started) => {
            let host = Host { rt, alloc, gate };
            run_life(&host, flash, start, started, plan, steps)
        }
        Err(StartFault::Flash) => {
            let end = End::Cut {
                calls: flash.changes(),
            };
            Ok((idle_log(alloc, Opened::CutAtStart, end), flash))
        }
        Err(StartFault::WasReset) => { Ok((idle_log(alloc, Opened::WasReset, End::Ended), flash)) }
        Err(StartFault::Memory) => Err(AllocError),
    }
}

/// A life that wasn't run.
fn idle_log(alloc: Global, opened: Opened, end: End) -> LifeLog
    ensures opened { result.opened ≡ opened }
    ensures entries { result.history.entries.items ≡ [] }
    ensures refills { result.history.refills ≡ 0 }
    ensures sends { result.sends.items ≡ [] }
    ensures drawn { result.drawn ≡ None }
    ensures end { result.end ≡ end }
    ensures early { result.early ≡ record { again = 0; before = 0 } }
{
    LifeLog {
        opened,
        history: History {
            entries: Vec::new(alloc),
            refills: 0,
        },
        sends: Vec::new(alloc),
        drawn: None,
        end,
        early: EarlyReads {
            again: 0,
            before: 0,
        },
    }
}

/// How a life ended, by whether its machine is closed.
fn end_of(closed: bool, calls: u32) -> End
    ensures cut { is_cut result ≡ closed }
    ensures calls { IfSome (cut_calls result) (λ n. n ≡ calls) }
{
    if closed {
        End::Cut { calls }
    } else {
        End::Ended
    }
}

/// A life that is run, from a machine that was started over a flash that the life found as `start` says. These are the steps of the plan
/// behind an order that stands first.
fn run_life<M: Machine, F: Bench, G: Gate, R: Threads + Wait + Sync>(
    host: &Host<R, G>,
    flash: F,
    start: Known<F>,
    started: Started<M>,
    plan: &LifePlan,
    steps: &[PlanStep],
) -> Result<(LifeLog, F), AllocError>
    requires started { IsStarted M.view M.stands (F.chip start) (F.chip flash) started }
    requires kept { Keeps (F.chip start) (F.chip flash) }
    requires few { plan.now.bearers ≤ BEARERS }
    requires behind { steps.now ≡ behind_arm plan.now.steps.items }
    requires may { MayFollow steps.now (F.chip flash).setting.arm }
    requires order { IsOfPlan (steps_of plan.now.steps.items) (F.chip flash).setting.arm }
    requires first { IsFirstGiven plan.now.steps.items (F.chip flash).setting.arm }
    requires armed { (F.chip flash).setting.arm ≡ first_order plan.now.steps.items 0 }
    requires steps { (over : List StoreRecord) → IsRecovered (F.chip start).now over
        → All (IsStep plan.now.bearers (config_of over).elements) plan.now.steps.items }
    ensures ran { IfOk result
        (λ r. Ran M.view M.stands F.chip M.role M.image (steps_of plan.now.steps.items) (F.chip start) r.0 r.1) }
{
    // They do nothing when they run: the proof uses what they say.
    M::tells::<F>();
    one_list_is_recovered();
    let Started {
        machine,
        numbers,
        mut drawer,
        state,
        mark,
    } = started;
    let watcher = numbers.watcher(&mut drawer);
    let opened = Node::new(host.alloc, machine, watcher, flash, start)?;
    let mut seats = Seats::new(host.alloc, numbers, drawer, plan.bearers)?;
    let (node, told) = do_steps(host, opened, &mut seats, plan.bearers, steps)?;
    node.known();
    let (machine, flash) = node.into_parts();
    let end = end_of(machine.is_closed(), flash.changes());
    let early = machine.early_reads();
    // All its entries were taken.
    let (left, keeper) = machine.finish();
    let Seats {
        numbers,
        drawer,
        ..
    } = seats;
    let drawn = numbers.close(keeper, drawer);
    let log = LifeLog {
        opened: Opened::On(state, mark),
        history: History {
            entries: told.entries,
            refills: left.refills,
        },
        sends: told.sends,
        drawn: Some(drawn),
        end,
        early,
    };
    Ok((log, flash))
}
