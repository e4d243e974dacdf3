//! The script of a text, over a flash that is provisioned for it.
#![tactic(auto)]

ghost use Rattle.std.specs.Prelude.{◌≡◌, ◌≤◌, ℕ, Some, IfErr, IfOk, IsSomeAnd, IsTrue, length};
ghost use Rattle.life_plans.specs.Plans.{script_of};
ghost use Rattle.report_writer.specs.Writing.{view_of};
ghost use Rattle.script_definitions.specs.Ranges.{IsScriptOf};
ghost use Rattle.script_definitions.specs.Reading.{reading};
ghost use Rattle.script_definitions.specs.Reading.Reading.{Fails, IsScript};
ghost use Rattle.script_definitions.specs.declared.kind.Grammar.{Grammar as ScriptGrammar};
ghost use Rattle.mesh_run.specs.Causes.{IsBeforeFlash, IsBeforeLives};
ghost use Rattle.mesh_run.specs.Ending.{EndsByCause, IsReported};
ghost use Rattle.mesh_run.specs.Kind.{IsSafeKind, kind_of};
ghost use Rattle.mesh_run.specs.Ran.{FirstFrom, FrontFrom, RanFrom};
ghost use Rattle.run_steps.specs.Provisioned.{format_by};
ghost use Rattle.script_reader.specs.Stops.{IsFault};

use crate::lives::{Stopped, live_all};
use command_words::RunFlags;
use flash_model::Bench;
use life_plans::{provision_of, script_law};
use life_sources::LifeSource;
use machine_contract::Machine;
use mesh_base::outside::Sink;
use mesh_node::{Gate, Host};
use report_writer::{LifeSink, Report};
use run_steps::{Ended, Status, provision};
use script_definitions::kind::Grammar;
use script_definitions::script::Script;
use script_reader::{ScriptStop, read_low_power_script, read_script};
use slot_journal::FormatFault;
use std::alloc::Global;
use std::sync::Wait;
use std::thread::Threads;

/// Runs a script: power is cycled, the node is provisioned, in format 01 where it is to be the old one, and the lives are run one after
/// another, by machines of this kind. Each is told of once it is over.
pub(crate) fn run_script<
    M: Machine,
    R: Threads + Wait + Sync,
    S: LifeSource,
    B: Bench,
    L: LifeSink,
    K: Sink,
    G: Gate,
>(host: &Host<R, G>, old: bool, script: &S, lives: &mut L, sink: &mut K, flash: B) -> Ended<B>
    requires honest { IsTrue (B.chip flash).honest }
    requires read { (grammar : ScriptGrammar) × IsScriptOf grammar (S.script script.now) }
    requires kind { IsSafeKind (kind_of M.view M.stands M.role M.image) }

    ensures ends { EndsByCause B.chip (IsScript (S.script script.now)) (B.chip flash) result.status result.flash
        (K.faults sink.old) (K.faults sink.new) }

    // What is told is a record of a run of the script, or its first lives.
    ensures done { result.status ≡ Status.Done
        → IsSomeAnd result.flash
        (λ f. RanFrom B.chip (kind_of M.view M.stands M.role M.image) (format_by old) (script_of (S.script script.now)) (L.told lives.old lives.new)
        (B.chip flash) (view_of K.held K.pieces sink.old) f (view_of K.held K.pieces sink.new)) }
    ensures front { result.status ≡ Status.WriteFault
        → IsSomeAnd result.flash
        (λ f. FrontFrom B.chip (kind_of M.view M.stands M.role M.image) (format_by old) (script_of (S.script script.now)) (L.told lives.old lives.new)
        (L.broken lives.new) (B.chip flash) (view_of K.held K.pieces sink.old) f (view_of K.held K.pieces sink.new)) }
    ensures whole { result.status ≡ Status.Memory
        → FirstFrom B.chip (kind_of M.view M.stands M.role M.image) (format_by old) (script_of (S.script script.now)) (L.told lives.old lives.new)
        (B.chip flash) (view_of K.held K.pieces sink.old) result.flash (view_of K.held K.pieces sink.new) }
    ensures nothing_written { IsBeforeLives result.status → sink.new ≡ sink.old }
{
    // It does nothing when it runs: the proof uses what it says.
    script_law();
    let mut flash = flash;
    flash.power_cycle();
    match provision(&mut flash, old, &provision_of(&script.node())) {
        Ok(()) => {}
        Err(FormatFault::Flash) => return Ended::with_flash(Status::FlashFault, flash),
        Err(FormatFault::NotErased { at }) => return Ended::with_flash(
            Status::NotErased { at },
            flash,
        ),
    }
    match live_all::<M, R, S, B, L, K, G>(host, script, lives, sink, flash) {
        Ok(flash) => Ended::with_flash(Status::Done, flash),
        Err(Stopped::Fault(flash)) => Ended::with_flash(Status::WriteFault, flash),
        Err(Stopped::Memory(flash)) => Ended {
            status: Status::Memory,
            flash,
        },
    }
}

/// Reads the script of this grammar that a text is.
fn read_by(alloc: Global, grammar: Grammar, text: &[u8]) -> Result<Script, ScriptStop>
    requires short { length text.now ≤ 4194304 }
    ensures ok { IfOk result (λ s. reading grammar text.now ≡ IsScript s) }
    ensures cause { IfErr result (IsFault (reading grammar text.now)) }
    ensures ranges { IfOk result (IsScriptOf grammar) }
{
    match grammar {
        Grammar::Node => read_script(alloc, text),
        Grammar::LowPower => read_low_power_script(alloc, text),
    }
}

/// Runs the script of this grammar that a text is, if it is one, by machines of this kind.
pub(crate) fn run_text<M: Machine, R: Threads + Wait + Sync, B: Bench, K: Sink, G: Gate>(
    host: &Host<R, G>,
    grammar: Grammar,
    flags: RunFlags,
    text: &[u8],
    sink: &mut K,
    flash: B,
) -> Ended<B>
    requires honest { IsTrue (B.chip flash).honest }
    requires short { length text.now ≤ 4194304 }
    requires kind { IsSafeKind (kind_of M.view M.stands M.role M.image) }

    ensures ends { EndsByCause B.chip (reading grammar text.now) (B.chip flash) result.status result.flash
        (K.faults sink.old) (K.faults sink.new) }
    ensures script { (line rule : ℕ) → result.status ≡ Status.Script line rule
        → reading grammar text.now ≡ Fails line rule }
    ensures report { IsReported B.chip (kind_of M.view M.stands M.role M.image) (reading grammar text.now) flags flash result.status result.flash
        (view_of K.held K.pieces) sink.old sink.new }
    ensures same_flash { IsBeforeFlash result.status → result.flash ≡ Some flash }
{
    let script = match read_by(host.alloc, grammar, text) {
        Ok(script) => script,
        Err(ScriptStop::Fault { line, rule }) => return Ended::with_flash(
            Status::Script { line, rule },
            flash,
        ),
        Err(ScriptStop::Memory) => return Ended::with_flash(Status::Memory, flash),
    };
    let mut report = Report { hex: flags.hex };
    run_script::<M, R, Script, B, Report, K, G>(host, flags.old, &script, &mut report, sink, flash)
}
