//! The lives of a script, one after another over one flash.
#![tactic(auto)]

ghost use Rattle.std.specs.Prelude.{◌≡◌, ◌≤◌, ◌<◌, List, [], length, slice_index_or, IfOk, IfSome, IsSomeAnd};
ghost use Rattle.life_plans.specs.Plans.{IsPlanFor, script_of};
ghost use Rattle.machine_contract.specs.Opening.{EachRecovered, IsNodeFlash};
ghost use Rattle.mesh_base.specs.Outside.{Rose};
ghost use Rattle.record_types.specs.declared.records.StoreRecord.{StoreRecord};
ghost use Rattle.report_writer.specs.Lives.{FitsLines, life_of};
ghost use Rattle.report_writer.specs.Writing.{view_of};
ghost use Rattle.script_definitions.specs.Ranges.{IsScriptOf};
ghost use Rattle.script_definitions.specs.declared.kind.Grammar.{Grammar};
ghost use Rattle.store_definitions.specs.Config.{config_of};
ghost use Rattle.store_definitions.specs.Provisioning.{provisioned};
ghost use Rattle.mesh_run.specs.Causes.{IsSameFlash};
ghost use Rattle.mesh_run.specs.Kind.{IsSafeKind, kind_of};
ghost use Rattle.life_laws.specs.Plan as Plan;
ghost use Rattle.mesh_run.specs.Lived.{IsMemory, IsSinkFault, Lived, flash_left};
ghost use Rattle.run_steps.specs.Provisioned.{IsProvisioned};
ghost use Rattle.mesh_run.specs.Ran.{Ran, RanFirst, RanFront};

use crate::laws::role_law;
use flash_model::Bench;
use life_laws::plan::LifePlan;
use life_plans::{plan_of, script_law};
use life_sources::LifeSource;
use machine_contract::Machine;
use mesh_base::outside::Sink;
use mesh_node::{Gate, Host, LifeLog, life};
use node_limits::BEARERS;
use report_writer::{EndedLife, LifeSink, WriteStop};
use std::alloc::{AllocError, Global};
use std::sync::Wait;
use std::thread::Threads;

/// Why the lives weren't run to their end, and the flash, which is lost where a life ran out of memory.
#[derive(Drop)]
pub(crate) enum Stopped<B> {
    /// The sink failed.
    Fault(B),
    /// There was no memory.
    Memory(Option<B>),
}

/// A log as a life that is over.
fn ended_life(log: LifeLog) -> EndedLife
    ensures value { life_of result ≡ Plan.life_of log }
{
    let LifeLog {
        opened,
        history,
        sends,
        end,
        ..
    } = log;
    EndedLife {
        opened,
        entries: history.entries,
        refills: history.refills,
        sends,
        end,
    }
}

/// The plan of the life of a script at place `i`.
fn plan_at<S: LifeSource>(script: &S, alloc: Global, i: usize) -> Result<LifePlan, AllocError>
    requires read { (grammar : Grammar) × IsScriptOf grammar (S.script script.now) }
    requires place { i < length (S.script script.now).lives }
    ensures value { IfOk result
        (λ plan. Plan.steps_of plan.steps.items ≡ slice_index_or (script_of (S.script script.now)).lives i []) }
    ensures bearers { IfOk result (λ plan. plan.bearers ≡ BEARERS) }
    ensures planned { IfOk result (IsPlanFor (script_of (S.script script.now)).node.elements) }
{
    // It does nothing when it runs: the proof uses what it says.
    script_law();
    let lines = script.lines(alloc, i)?;
    plan_of(alloc, lines.as_slice())
}

/// Runs the life of a script at place `i`, by a machine of this kind. For want of memory the flash is dropped.
fn live<M: Machine, R: Threads + Wait + Sync, S: LifeSource, B: Bench, G: Gate>(
    host: &Host<R, G>,
    script: &S,
    i: usize,
    flash: B,
) -> Result<(EndedLife, B), AllocError>
    requires read { (grammar : Grammar) × IsScriptOf grammar (S.script script.now) }
    requires place { i < length (S.script script.now).lives }
    requires node { IsNodeFlash M.image (B.chip flash) }
    requires elements { EachRecovered (B.chip flash)
        (λ records. (config_of records).elements ≡ (script_of (S.script script.now)).node.elements) }
    ensures lived { IfOk result
        (λ r. (over : List StoreRecord)
        × Lived B.chip (kind_of M.view M.stands M.role M.image) (slice_index_or (script_of (S.script script.now)).lives i [])
        (B.chip flash) (record { over = over; life = life_of r.0 }) r.1) }
    ensures room { IfOk result (λ r. FitsLines (life_of r.0)) }
{
    let plan = plan_at(script, host.alloc, i)?;
    let (log, flash) = life::<M, B, G, R>(host.rt, host.alloc, flash, &plan, host.gate)?;
    Ok((ended_life(log), flash))
}

/// Runs the lives of a script one after another, by machines of this kind, and tells of each once it is over; nothing of it but its flash is kept. The node was
/// provisioned on the flash. For want of memory nothing of a life is told.
pub(crate) fn live_all<
    M: Machine,
    R: Threads + Wait + Sync,
    S: LifeSource,
    B: Bench,
    L: LifeSink,
    K: Sink,
    G: Gate,
>(host: &Host<R, G>, script: &S, lives: &mut L, sink: &mut K, flash: B) -> Result<B, Stopped<B>>
    requires read { (grammar : Grammar) × IsScriptOf grammar (S.script script.now) }
    requires kind { IsSafeKind (kind_of M.view M.stands M.role M.image) }
    requires provisioned { IsProvisioned (B.chip flash) (provisioned (script_of (S.script script.now)).node) }
    ensures all { IfOk result
        (λ f. Ran B.chip (kind_of M.view M.stands M.role M.image) (script_of (S.script script.now)) (L.told lives.old lives.new) flash
        (view_of K.held K.pieces sink.old) f (view_of K.held K.pieces sink.new)) }
    ensures front { IsSinkFault result
        → IsSomeAnd (flash_left result)
        (λ f. RanFront B.chip (kind_of M.view M.stands M.role M.image) (script_of (S.script script.now)) (L.told lives.old lives.new)
        (L.broken lives.new) flash (view_of K.held K.pieces sink.old) f (view_of K.held K.pieces sink.new)) }
    ensures whole { IsMemory result
        → RanFirst B.chip (kind_of M.view M.stands M.role M.image) (script_of (S.script script.now)) (L.told lives.old lives.new) flash
        (view_of K.held K.pieces sink.old) (flash_left result) (view_of K.held K.pieces sink.new) }
    ensures cause { IsSinkFault result → Rose (K.faults sink.old) (K.faults sink.new) }
    ensures no_fault { ¬ IsSinkFault result → K.faults sink.new ≡ K.faults sink.old }
    ensures later { K.faults sink.old ≤ K.faults sink.new }
    ensures frame { IfSome (flash_left result) (λ f. IsSameFlash (B.chip flash) (B.chip f)) }
{
    // It does nothing when it runs: the proof uses what it says.
    role_law::<M>();
    let mut flash = flash;
    for i in 0..script.count() {
        let (ended, back) = match live::<M, R, S, B, G>(host, script, i, flash) {
            Ok(lived) => lived,
            Err(_) => return Err(Stopped::Memory(None)),
        };
        flash = back;
        match lives.tell(host.alloc, sink, i as u32 + 1, &ended) {
            Ok(()) => {}
            Err(WriteStop::Fault) => return Err(Stopped::Fault(flash)),
            Err(WriteStop::Memory) => return Err(Stopped::Memory(Some(flash))),
        }
    }
    Ok(flash)
}
