//! A bearer reads the PDUs that it hears before its turn, all but the first.

ghost use Rattle.std.specs.Prelude.{◌≡◌, ℕ, All, IfOk};
ghost use Rattle.life_laws.specs.Plan.{HasOneArm, IsStep};
ghost use Rattle.node_bearer.specs.Did.{AreEvents};

use super::{HEARD, node_flash, pdu};
use flash_model::MemFlash;
use machine_contract::EarlyReads;
use mesh_machine::MeshMachine;
use mesh_node::{FreeGate, LifePlan, PlanStep, life};
use mesh_types::events::Event;
use std::alloc::{AllocError, Global};
use std::sync::Wait;
use std::thread::Threads;

/// How many PDUs the bearer hears.
const PDUS: u32 = 100;

/// A PDU, heard so many times.
fn heard(alloc: Global) -> Result<Vec<Event>, AllocError>
    ensures events { (elements : ℕ) → IfOk result (λ v. AreEvents elements v.items) }
{
    let mut events = Vec::new(alloc);
    for _ in 0..PDUS {
        events.push(Event::Net(pdu(&HEARD)))?;
    }
    Ok(events)
}

/// A life of two bearers, each on a thread of its own: the first hears the PDUs, and the second has nothing to do.
fn hearing(alloc: Global) -> Result<LifePlan, AllocError>
    ensures bearers { IfOk result (λ plan. plan.bearers ≡ 2) }
    ensures arm { IfOk result (λ plan. HasOneArm plan.steps.items) }
    ensures steps { (elements : ℕ) → IfOk result (λ plan. All (IsStep 2 elements) plan.steps.items) }
{
    let mut lists = Vec::new(alloc);
    lists.push(heard(alloc)?)?;
    lists.push(Vec::new(alloc))?;
    let mut steps = Vec::new(alloc);
    steps.push(PlanStep::Phase(lists))?;
    Ok(LifePlan { bearers: 2, steps })
}

/// What is counted of that life.
fn counted<R: Threads + Wait + Sync>(rt: &R, alloc: Global) -> Option<EarlyReads> {
    let flash = node_flash(alloc)?;
    let Ok(plan) = hearing(alloc) else {
        return None;
    };
    match life::<MeshMachine, MemFlash, FreeGate, R>(rt, alloc, flash, &plan, &FreeGate) {
        Ok((log, _)) => Some(log.early),
        Err(_) => None,
    }
}

#[test]
fn a_bearer_reads_before_its_turn(rt: HostRuntime) {
    let reads = counted(&rt, rt.alloc());
    assert!(rt; matches!(reads, Some(early) if early.again == 0 && early.before >= 99));
}
