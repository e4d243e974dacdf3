//! That bearers really run beside one another: a gate at which each waits for the other, in a run and in a life.

ghost use Rattle.std.specs.Prelude.{◌≡◌, ℕ, All, IfOk, IfSome, IsTrue};
ghost use Rattle.life_laws.specs.Plan.{HasOneArm, IsStep};
ghost use Rattle.machine_contract.specs.Opening.{IsNodeFlash};
ghost use Rattle.machine_contract.specs.Ranges.{IsEvent};
ghost use Rattle.node_bearer.specs.Did.{AreEvents};
ghost use Rattle.node_store.specs.Tie.{IsNode};
ghost use Rattle.run_definitions.specs.Order.{is_outside};

use super::ends::{End, end_of};
use flash_model::{Flash, MemFlash};
use life_laws::plan::{LifePlan, PlanStep};
use mesh_base::address::Address;
use mesh_base::octets::Octets;
use mesh_machine::MeshMachine;
use mesh_node::{Gate, life};
use mesh_types::events::Event;
use mesh_types::report::End as LifeEnd;
use node_store::Provision;
use run_steps::provision;
use std::alloc::{AllocError, Global};
use std::sync::Wait;
use std::sync::atomic::{AtomicBool, Ordering};
use std::thread;
use std::thread::Threads;

/// How often a gate looks before it gives up.
const TURNS: u32 = 200_000_000;

/// A script with two lines on each of two bearers.
const FOUR_PDUS: &str =
    "provision 1201 1 12345678 00 000 7dd7364cd842ad18c17c2b820c84c3d6 9d6dd0e96eb25dc19a40ed9914f8f03f
life
b0 raw fffd 00 7f
b0 raw fffd 00 7f
b1 raw fffd 00 7f
b1 raw fffd 00 7f
";

/// The first bearer is held between its first entry and its jobs until the second one is through with its own; the second one begins its next
/// event when the first is through with that. So neither can have been served behind the other.
#[derive(Drop)]
struct Meeting {
    first_is_through: AtomicBool,
    second_is_through: AtomicBool,
    first_went_on: AtomicBool,
    second_went_on: AtomicBool,
}

impl Meeting {
    fn new() -> Self {
        Meeting {
            first_is_through: AtomicBool::new(false),
            second_is_through: AtomicBool::new(false),
            first_went_on: AtomicBool::new(false),
            second_went_on: AtomicBool::new(false),
        }
    }

    /// Whether each bearer went on because the other one was through.
    fn was_held(&self) -> bool {
        self.first_went_on.load(Ordering::SeqCst) && self.second_went_on.load(Ordering::SeqCst)
    }
}

/// Waits until a moment has come, and says whether it came in time.
fn comes(moment: &AtomicBool) -> bool {
    for _ in 0..TURNS {
        if moment.load(Ordering::SeqCst) {
            return true;
        }
        thread::yield_now();
    }
    false
}

impl Gate for Meeting {
    fn is_told(&self) -> bool {
        true
    }

    fn before(&self, bearer: u8, number: u32) {
        if bearer == 1 && number == 2 {
            self.second_went_on
                .store(comes(&self.first_is_through), Ordering::SeqCst);
        }
    }

    fn between(&self, bearer: u8, number: u32) {
        if bearer == 0 && number == 1 {
            self.first_went_on
                .store(comes(&self.second_is_through), Ordering::SeqCst);
        }
    }

    fn after(&self, bearer: u8, number: u32) {
        match (bearer, number) {
            (0, 1) => self.first_is_through.store(true, Ordering::SeqCst),
            (1, 1) => self.second_is_through.store(true, Ordering::SeqCst),
            _ => {}
        }
    }
}

#[test]
fn two_bearers_of_a_run(rt: HostRuntime) {
    let gate = Meeting::new();
    let end = end_of(&rt, FOUR_PDUS, 0xff, 0, &gate);
    assert!(rt; matches!(end, End::Whole));
    assert!(rt; gate.was_held());
}

/// A flash with the node of that script.
fn node_flash(alloc: Global) -> Option<MemFlash>
    ensures node { IfSome result (λ f. IsNodeFlash IsNode (⟦<MemFlash as Flash>⟧.chip f)) }
{
    let mut flash = match MemFlash::new(alloc) {
        Ok(flash) => flash,
        Err(_) => return None,
    };
    let node = Provision {
        unicast: Address(0x1201),
        elements: 1,
        iv: 0x1234_5678,
        flags: 0,
        net_index: 0,
        net_key: [0x7d; 16],
        dev_key: [0x9d; 16],
    };
    match provision(&mut flash, false, &node) {
        Ok(()) => Some(flash),
        Err(_) => None,
    }
}

/// What each of its lines says.
fn pdu() -> Result<Event, AllocError>
    ensures outside { IfOk result (λ e. IsTrue (is_outside e)) }
    ensures event { (elements : ℕ) → IfOk result (IsEvent elements) }
{
    match Octets::of(&[0x7f]) {
        Ok(tpdu) => Ok(Event::Raw {
            dst: Address(0xfffd),
            ttl: 0,
            tpdu,
        }),
        Err(_) => Err(AllocError),
    }
}

/// Two of them.
fn two_pdus(alloc: Global) -> Result<Vec<Event>, AllocError>
    ensures events { (elements : ℕ) → IfOk result (λ v. AreEvents elements v.items) }
{
    let mut events = Vec::new(alloc);
    events.push(pdu()?)?;
    events.push(pdu()?)?;
    Ok(events)
}

/// The life of that script, for two bearers.
fn two_bearers(alloc: Global) -> Result<LifePlan, AllocError>
    ensures bearers { IfOk result (λ plan. plan.bearers ≡ 2) }
    ensures arm { IfOk result (λ plan. HasOneArm plan.steps.items) }
    ensures steps { (elements : ℕ) → IfOk result (λ plan. All (IsStep 2 elements) plan.steps.items) }
{
    let mut lists = Vec::new(alloc);
    lists.push(two_pdus(alloc)?)?;
    lists.push(two_pdus(alloc)?)?;
    let mut steps = Vec::new(alloc);
    steps.push(PlanStep::Phase(lists))?;
    Ok(LifePlan { bearers: 2, steps })
}

/// The number of entries of that life at this gate, where it wasn't cut.
fn entries_at<R: AllocGlobal + Threads + Wait + Sync, G: Gate>(rt: &R, gate: &G) -> Option<usize> {
    let alloc = rt.alloc();
    let flash = node_flash(alloc)?;
    let plan = match two_bearers(alloc) {
        Ok(plan) => plan,
        Err(_) => return None,
    };
    match life::<MeshMachine, MemFlash, G, R>(rt, alloc, flash, &plan, gate) {
        Ok((log, _)) => match log.end {
            LifeEnd::Ended => Some(log.history.entries.len()),
            LifeEnd::Cut { .. } => None,
        },
        Err(_) => None,
    }
}

#[test]
fn two_bearers_of_a_life(rt: HostRuntime) {
    let gate = Meeting::new();
    assert!(rt; entries_at(&rt, &gate) == Some(4));
    assert!(rt; gate.was_held());
}
