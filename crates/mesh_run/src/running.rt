//! The top call of the program.
#![tactic(auto)]

ghost use Rattle.std.specs.Prelude.{◌≡◌, ◌≢◌, ◌⊎◌, ◌<◌, ◌≤◌, ℕ, false, map, None, Some, IfSome, IsSomeAnd, IsTrue, length};
ghost use Rattle.std.specs.Io.KnownBytes.{IsAtEnd};
ghost use Rattle.life_plans.specs.Plans.{script_of};
ghost use Rattle.mesh_base.specs.Outside.{Rose};
ghost use Rattle.report_writer.specs.Writing.{view_of};
ghost use Rattle.script_definitions.specs.Reading.{reading};
ghost use Rattle.script_definitions.specs.Reading.Reading.{Fails};
ghost use Rattle.run_steps.specs.Audited.{Audited, AuditedFront, IsAuditEnd};
ghost use Rattle.mesh_run.specs.Causes.{FailedFirst, IfScript, IsBeforeFlash, IsBeforeLives, IsDue, IsErasedFlash, IsFromFlash, IsGenerate, IsReadingStop, IsRunAnd, IsSameFlash, IsScriptAnd, IsWrittenAt, WasErased, read_end};
ghost use Rattle.command_words.specs.Commands.{command_of};
ghost use Rattle.command_words.specs.declared.commands.Command.TheVariants as C;
ghost use Rattle.command_words.specs.declared.commands.NodeKind.{NodeKind as Kinds};
ghost use Rattle.command_words.specs.declared.commands.RunFlags.{RunFlags as Flags};
ghost use Rattle.audit_definitions.specs.Input.{IsFirstOther};
ghost use Rattle.mesh_run.specs.Kind.{grammar_of, machines_of, node_kind};
ghost use Rattle.low_power_role.specs.Laws.{FsnCountsAnswers};
ghost use Rattle.mesh_run.specs.Ran.{FromProvisioned, Ran, RanFirst, RanFirstOrAll, RanFront};
ghost use Rattle.mesh_run.specs.Reporting.{ReportsFront, Unwritten};
ghost use Rattle.report_writer.specs.Reporting.{Reports};
ghost use Rattle.run_steps.specs.Provisioned.{FailsEarly, format_by};
ghost use Rattle.run_steps.specs.Reads.{ReadsMoreThan};
ghost use Rattle.run_summary.specs.Telling.{Summarizes, SummarizesFront};
ghost use Rattle.script_generator.specs.Generated.{generated};
ghost use Rattle.store_definitions.specs.Provisioning.{provisioned};

use crate::generated::run_generated;
use crate::kinds::run_by;
use command_words::{Command, command_of};
use flash_model::Bench;
use low_power_role::low_power_fsn_law;
use mesh_base::outside::{Sink, Source};
use mesh_node::{Gate, Host};
use run_steps::{Ended, ReadStop, Status, audit_text, read_whole};
use std::alloc::Global;
use std::sync::Wait;
use std::thread::Threads;

/// How a run ends whose source wasn't read to its end.
fn read_end(stop: ReadStop) -> Status
    ensures value { result ≡ read_end stop }
{
    match stop {
        ReadStop::Fault => Status::ReadFault,
        ReadStop::TooLong => Status::TooLong,
        ReadStop::Memory => Status::Memory,
    }
}

/// Runs a command. The words after the program's name are `run`, with `--hex` and `--old` in any combination, `lpn`, alone or with `--hex`,
/// `audit`, or `gen COUNT START`; every other list is `Usage`. What the source has is read to its end before the flash is touched; `gen` reads nothing.
///
/// `run` reads a script from the source, runs it over the flash, and writes its report into the sink: the power of the flash is cycled, the
/// node of the script is provisioned on it, and the lives are run one after another; the report of a life is written once it is over, each
/// line as one piece, and nothing of the life but its flash is kept. `rt` starts the threads of the bearers, and `gate` is handed to each
/// life; it is there for tests.
///
/// Each life opens over what an image of this very flash recovers, and so can the next one, over the flash that is handed back. `FlashFault`
/// is a fault before the first life: the flash then recovers nothing, or what the node is provisioned with. With `--old` the node is
/// provisioned in format 01, else in format 02.
///
/// `lpn` is what `run` is for the script of a Low Power node, which it runs as one: on one bearer, with the lines `b0 seek`, `b0 poll` and
/// `b0 list ADDR`. What is stored, drawn and refused by the replay list is the same.
///
/// `audit` reads a log, and writes the line of its verdict.
///
/// `gen` runs a script that is generated from two numbers (`GeneratedScript` of `script_generator`), as `run` would run its text, and writes eight
/// lines: what is counted of all lives together.
///
/// The flash is honest. It is handed back, but for want of memory it may be lost.
pub fn run<R: Threads + Wait + Sync, S: Source, K: Sink, B: Bench, G: Gate>(
    rt: &R,
    alloc: Global,
    words: &[&str],
    source: &mut S,
    sink: &mut K,
    flash: B,
    gate: &G,
) -> Ended<B>
    requires honest { IsTrue (B.chip flash).honest }

    // Each status has its cause, in this order.
    ensures usage { result.status ≡ Status.Usage → command_of (map (λ w. w.now) words.now) ≡ None }
    ensures no_command { command_of (map (λ w. w.now) words.now) ≡ None
        → (result.status ≡ Status.Usage) ⊎ (result.status ≡ Status.Memory) }
    ensures read_fault { result.status ≡ Status.ReadFault → Rose (S.faults source.old) (S.faults source.new) }
    ensures too_long { result.status ≡ Status.TooLong → ReadsMoreThan (S.left source.old) (S.left source.new) 4194304 }
    ensures script { (line rule : ℕ) → result.status ≡ Status.Script line rule
        → IsRunAnd (command_of (map (λ w. w.now) words.now))
        (λ kind. IfSome (S.left source.old) (λ text. reading (grammar_of kind) text ≡ Fails line rule)) }
    ensures flash_fault { result.status ≡ Status.FlashFault
        → IsSomeAnd result.flash (λ f. (B.chip flash).faults < (B.chip f).faults) × (IsTrue (B.chip flash).steady → ⊥) }
    ensures early { (kind : Kinds) (flags : Flags)
        → command_of (map (λ w. w.now) words.now) ≡ Some (C.Run kind flags)
        → result.status ≡ Status.FlashFault
        → IfSome (S.left source.old)
        (λ text. IsScriptAnd (reading (grammar_of kind) text)
        (λ s. IsSomeAnd result.flash (λ f. FailsEarly (provisioned (script_of s).node) (B.chip flash) (B.chip f)))) }
    ensures not_erased { (at : ℕ) → result.status ≡ Status.NotErased at
        → IsSomeAnd result.flash (λ f. IsWrittenAt at (B.chip flash) (B.chip f)) }
    ensures erased { (kind : Kinds) (flags : Flags)
        → command_of (map (λ w. w.now) words.now) ≡ Some (C.Run kind flags)
        → (result.status ≡ Status.Done) ⊎ (result.status ≡ Status.WriteFault) → WasErased (B.chip flash) }
    ensures report { (line : ℕ) → result.status ≡ Status.Report line
        → IfSome (S.left source.old) (λ text. IsFirstOther text line) }
    ensures write_fault { result.status ≡ Status.WriteFault → Rose (K.faults sink.old) (K.faults sink.new) }

    // Where nothing fails, it is the one that the octets of the source ask for; and where the flash is erased, the report is written.
    ensures due { (kind : Kinds) (flags : Flags)
        → command_of (map (λ w. w.now) words.now) ≡ Some (C.Run kind flags)
        → IfSome (S.left source.old) (λ text. IsDue (grammar_of kind) text result.status) }
    ensures complete { (kind : Kinds) (flags : Flags)
        → command_of (map (λ w. w.now) words.now) ≡ Some (C.Run kind flags)
        → ¬ Rose (S.faults source.old) (S.faults source.new) → ¬ Rose (K.faults sink.old) (K.faults sink.new)
        → IsErasedFlash (B.chip flash)
        → IfSome (S.left source.old)
        (λ text. length text ≤ 4194304
        → IfScript (reading (grammar_of kind) text)
        (λ s. (result.status ≡ Status.Done) ⊎ (result.status ≡ Status.Memory) ⊎ (result.status ≡ Status.FlashFault))) }
    // Where the flash doesn't fail before its first life either, no fault of it ends the run.
    ensures unfailed { (kind : Kinds) (flags : Flags)
        → command_of (map (λ w. w.now) words.now) ≡ Some (C.Run kind flags)
        → ¬ Rose (S.faults source.old) (S.faults source.new) → ¬ Rose (K.faults sink.old) (K.faults sink.new)
        → IsErasedFlash (B.chip flash) → IfSome result.flash (λ f. ¬ FailedFirst (B.chip flash) (B.chip f))
        → IfSome (S.left source.old)
        (λ text. length text ≤ 4194304
        → IfScript (reading (grammar_of kind) text) (λ s. (result.status ≡ Status.Done) ⊎ (result.status ≡ Status.Memory))) }

    // What is written is the report of a record of a run of the script, or a front of it.
    ensures done { (kind : Kinds) (flags : Flags)
        → command_of (map (λ w. w.now) words.now) ≡ Some (C.Run kind flags)
        → result.status ≡ Status.Done
        → IfSome (S.left source.old)
        (λ text. IsScriptAnd (reading (grammar_of kind) text)
        (λ s. IsSomeAnd result.flash
        (λ f. FromProvisioned B.chip (format_by flags.old) (provisioned (script_of s).node) (B.chip flash)
        (λ start. Ran B.chip (machines_of kind) (script_of s) (Reports flags.hex) start
        (view_of K.held K.pieces sink.old) f (view_of K.held K.pieces sink.new))))) }
    ensures front { (kind : Kinds) (flags : Flags)
        → command_of (map (λ w. w.now) words.now) ≡ Some (C.Run kind flags)
        → result.status ≡ Status.WriteFault
        → IfSome (S.left source.old)
        (λ text. IsScriptAnd (reading (grammar_of kind) text)
        (λ s. IsSomeAnd result.flash
        (λ f. FromProvisioned B.chip (format_by flags.old) (provisioned (script_of s).node) (B.chip flash)
        (λ start. RanFront B.chip (machines_of kind) (script_of s) (Reports flags.hex) (ReportsFront flags.hex)
        start (view_of K.held K.pieces sink.old) f (view_of K.held K.pieces sink.new))))) }
    ensures whole { (kind : Kinds) (flags : Flags)
        → command_of (map (λ w. w.now) words.now) ≡ Some (C.Run kind flags)
        → result.status ≡ Status.Memory
        → ((sink.new ≡ sink.old) × (result.flash ≡ Some flash))
        ⊎ IfSome (S.left source.old)
        (λ text. IsScriptAnd (reading (grammar_of kind) text)
        (λ s. FromProvisioned B.chip (format_by flags.old) (provisioned (script_of s).node) (B.chip flash)
        (λ start. RanFirst B.chip (machines_of kind) (script_of s) (Reports flags.hex) start
        (view_of K.held K.pieces sink.old) result.flash (view_of K.held K.pieces sink.new)))) }
    ensures nothing_written { IsBeforeLives result.status → sink.new ≡ sink.old }

    // In each life of a run of a Low Power node two Polls of one friendship have the same FSN exactly where an even number of Polls was closed
    // between them.
    ensures fsn { FsnCountsAnswers }

    // An audit writes the line of the verdict on what is read, or a front of it, and leaves the flash.
    ensures verdict { command_of (map (λ w. w.now) words.now) ≡ Some C.Audit → result.status ≡ Status.Done
        → IfSome (S.left source.old)
        (λ text. Audited text (view_of K.held K.pieces sink.old) (view_of K.held K.pieces sink.new)) }
    ensures verdict_front { command_of (map (λ w. w.now) words.now) ≡ Some C.Audit → result.status ≡ Status.WriteFault
        → IfSome (S.left source.old)
        (λ text. AuditedFront text (view_of K.held K.pieces sink.old) (view_of K.held K.pieces sink.new)) }
    ensures verdict_memory { command_of (map (λ w. w.now) words.now) ≡ Some C.Audit → result.status ≡ Status.Memory
        → sink.new ≡ sink.old }
    ensures verdict_due { command_of (map (λ w. w.now) words.now) ≡ Some C.Audit
        → ¬ Rose (S.faults source.old) (S.faults source.new) → ¬ Rose (K.faults sink.old) (K.faults sink.new)
        → IfSome (S.left source.old) (λ text. length text ≤ 4194304 → IsAuditEnd result.status) }
    ensures verdict_too_long { command_of (map (λ w. w.now) words.now) ≡ Some C.Audit
        → IfSome (S.left source.old)
        (λ text. 4194304 < length text
        → (result.status ≡ Status.ReadFault) ⊎ (result.status ≡ Status.TooLong) ⊎ (result.status ≡ Status.Memory)) }
    ensures verdict_flash { command_of (map (λ w. w.now) words.now) ≡ Some C.Audit → result.flash ≡ Some flash }

    // Of a script that is generated the summary is written, or a front of it, or nothing where there is no memory: its first lives were run
    // then, or all of them. The source isn't read, and no cause comes that is of reading.
    ensures summary { (count start : ℕ) → command_of (map (λ w. w.now) words.now) ≡ Some (C.Generate count start)
        → result.status ≡ Status.Done
        → IsSomeAnd result.flash
        (λ f. FromProvisioned B.chip (format_by false) (provisioned (script_of (generated count start)).node)
        (B.chip flash)
        (λ from. Ran B.chip node_kind (script_of (generated count start)) Summarizes from
        (view_of K.held K.pieces sink.old) f (view_of K.held K.pieces sink.new))) }
    ensures summary_front { (count start : ℕ)
        → command_of (map (λ w. w.now) words.now) ≡ Some (C.Generate count start) → result.status ≡ Status.WriteFault
        → IsSomeAnd result.flash
        (λ f. FromProvisioned B.chip (format_by false) (provisioned (script_of (generated count start)).node)
        (B.chip flash)
        (λ from. Ran B.chip node_kind (script_of (generated count start)) SummarizesFront from
        (view_of K.held K.pieces sink.old) f (view_of K.held K.pieces sink.new))) }
    ensures summary_memory { (count start : ℕ)
        → command_of (map (λ w. w.now) words.now) ≡ Some (C.Generate count start) → result.status ≡ Status.Memory
        → ((sink.new ≡ sink.old) × (result.flash ≡ Some flash))
        ⊎ FromProvisioned B.chip (format_by false) (provisioned (script_of (generated count start)).node) (B.chip flash)
        (λ from. RanFirstOrAll B.chip node_kind (script_of (generated count start)) Unwritten from
        (view_of K.held K.pieces sink.old) result.flash (view_of K.held K.pieces sink.new)) }
    ensures summary_unwritten { IsGenerate (command_of (map (λ w. w.now) words.now)) → result.status ≡ Status.Memory
        → view_of K.held K.pieces sink.new ≡ view_of K.held K.pieces sink.old }
    ensures summary_early { (count start : ℕ)
        → command_of (map (λ w. w.now) words.now) ≡ Some (C.Generate count start) → result.status ≡ Status.FlashFault
        → IsSomeAnd result.flash
        (λ f. FailsEarly (provisioned (script_of (generated count start)).node) (B.chip flash) (B.chip f)) }
    ensures summary_erased { IsGenerate (command_of (map (λ w. w.now) words.now))
        → (result.status ≡ Status.Done) ⊎ (result.status ≡ Status.WriteFault) → WasErased (B.chip flash) }
    ensures summary_due { IsGenerate (command_of (map (λ w. w.now) words.now))
        → IsFromFlash result.status ⊎ (result.status ≡ Status.Memory) }
    ensures summary_complete { IsGenerate (command_of (map (λ w. w.now) words.now))
        → ¬ Rose (K.faults sink.old) (K.faults sink.new) → IsErasedFlash (B.chip flash)
        → (result.status ≡ Status.Done) ⊎ (result.status ≡ Status.Memory) ⊎ (result.status ≡ Status.FlashFault) }
    ensures summary_unfailed { IsGenerate (command_of (map (λ w. w.now) words.now))
        → ¬ Rose (K.faults sink.old) (K.faults sink.new) → IsErasedFlash (B.chip flash)
        → IfSome result.flash (λ f. ¬ FailedFirst (B.chip flash) (B.chip f))
        → (result.status ≡ Status.Done) ⊎ (result.status ≡ Status.Memory) }
    ensures unread { IsGenerate (command_of (map (λ w. w.now) words.now)) → source.new ≡ source.old }

    // What is read is all that there was.
    ensures nothing_read { result.status ≡ Status.Usage → source.new ≡ source.old }
    ensures read_whole { ¬ IsGenerate (command_of (map (λ w. w.now) words.now)) → ¬ IsReadingStop result.status
        → IsAtEnd (S.left source.new) }

    // What becomes of the flash.
    ensures same_flash { IsBeforeFlash result.status → result.flash ≡ Some flash }
    ensures handed_back { result.flash ≡ None → result.status ≡ Status.Memory }
    ensures frame { IfSome result.flash (λ f. IsSameFlash (B.chip flash) (B.chip f)) }

    // No fault is swallowed: a run that ends otherwise leaves the count. Counts of faults never fall.
    ensures no_source_fault { result.status ≢ Status.ReadFault → S.faults source.new ≡ S.faults source.old }
    ensures no_sink_fault { result.status ≢ Status.WriteFault → K.faults sink.new ≡ K.faults sink.old }
    ensures source_later { S.faults source.old ≤ S.faults source.new }
    ensures sink_later { K.faults sink.old ≤ K.faults sink.new }
{
    // It does nothing when it runs: the proof uses what it says.
    low_power_fsn_law();
    let command = match command_of(alloc, words) {
        Ok(Some(command)) => command,
        Ok(None) => return Ended::with_flash(Status::Usage, flash),
        Err(_) => return Ended::with_flash(Status::Memory, flash),
    };
    let host = Host { rt, alloc, gate };
    match command {
        Command::Run(kind, flags) => match read_whole(alloc, source) {
            Ok(bytes) => run_by(&host, kind, flags, bytes.as_slice(), sink, flash),
            Err(stop) => Ended::with_flash(read_end(stop), flash),
        },
        Command::Audit => match read_whole(alloc, source) {
            Ok(bytes) => Ended::with_flash(audit_text(alloc, bytes.as_slice(), sink), flash),
            Err(stop) => Ended::with_flash(read_end(stop), flash),
        },
        Command::Generate { count, start } => run_generated(&host, count, start, sink, flash),
    }
}
