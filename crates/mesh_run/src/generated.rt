//! A script that is generated, run and summed up.
#![tactic(auto)]

ghost use Rattle.std.specs.Prelude.{◌≡◌, ◌≢◌, ◌≤◌, false, IsSomeAnd, IsTrue};
ghost use Rattle.life_plans.specs.Plans.{script_of};
ghost use Rattle.mesh_base.specs.Outside.{Rose};
ghost use Rattle.report_writer.specs.Handing.{HandedFront, IsHanded};
ghost use Rattle.report_writer.specs.Writing.{view_of};
ghost use Rattle.run_steps.specs.Provisioned.{format_by};
ghost use Rattle.script_definitions.specs.Reading.Reading.{IsScript};
ghost use Rattle.run_summary.specs.Summaries.{summary_text};
ghost use Rattle.run_summary.specs.Telling.{Summarizes, SummarizesFront};
ghost use Rattle.script_generator.specs.Generated.{generated};
ghost use Rattle.mesh_run.specs.Causes.{IsBeforeLives, IsSumEnd};
ghost use Rattle.mesh_run.specs.Ending.{EndsByCause};
ghost use Rattle.mesh_run.specs.Kind.{node_kind};
ghost use Rattle.mesh_run.specs.Ran.{FirstOrAllFrom, RanFrom};
ghost use Rattle.mesh_run.specs.Reporting.{Unwritten};

use crate::laws::node_kind_law;
use crate::machine::ScriptMachine;
use crate::scripts::run_script;
use flash_model::Bench;
use mesh_base::outside::Sink;
use mesh_node::{Gate, Host};
use report_writer::WriteStop;
use run_steps::{Ended, Status};
use run_summary::{Summary, write_summary};
use script_generator::{GeneratedScript, generated_law};
use std::alloc::Global;
use std::sync::Wait;
use std::thread::Threads;

/// Writes the summary of a run, and says how the run ends.
fn sum_up<K: Sink>(alloc: Global, sink: &mut K, summary: &Summary) -> Status
    ensures ends { IsSumEnd result }
    ensures done { result ≡ Status.Done
        → IsHanded (summary_text summary.now) (view_of K.held K.pieces sink.old) (view_of K.held K.pieces sink.new) }
    ensures front { result ≡ Status.WriteFault
        → HandedFront (summary_text summary.now) (view_of K.held K.pieces sink.old)
        (view_of K.held K.pieces sink.new) }
    ensures memory { result ≡ Status.Memory → sink.new ≡ sink.old }
    ensures cause { result ≡ Status.WriteFault → Rose (K.faults sink.old) (K.faults sink.new) }
    ensures no_fault { result ≢ Status.WriteFault → K.faults sink.new ≡ K.faults sink.old }
    ensures later { K.faults sink.old ≤ K.faults sink.new }
{
    match write_summary(alloc, sink, summary) {
        Ok(()) => Status::Done,
        Err(WriteStop::Fault) => Status::WriteFault,
        Err(WriteStop::Memory) => Status::Memory,
    }
}

/// Runs the script of so many lines of bearers, whose numbers begin behind `start`, and writes its summary. Its lives are made as they begin
/// and counted as they end, and nothing else of them is kept.
pub(crate) fn run_generated<R: Threads + Wait + Sync, B: Bench, K: Sink, G: Gate>(
    host: &Host<R, G>,
    count: u32,
    start: u32,
    sink: &mut K,
    flash: B,
) -> Ended<B>
    requires honest { IsTrue (B.chip flash).honest }
    requires few { count ≤ 32768 }

    ensures ends { EndsByCause B.chip (IsScript (generated count start)) (B.chip flash) result.status result.flash
        (K.faults sink.old) (K.faults sink.new) }

    // What is written is the summary of a record of a run of the script, or a front of it, or nothing of its first lives or of all.
    ensures done { result.status ≡ Status.Done
        → IsSomeAnd result.flash
        (λ f. RanFrom B.chip node_kind (format_by false) (script_of (generated count start)) Summarizes (B.chip flash)
        (view_of K.held K.pieces sink.old) f (view_of K.held K.pieces sink.new)) }
    ensures front { result.status ≡ Status.WriteFault
        → IsSomeAnd result.flash
        (λ f. RanFrom B.chip node_kind (format_by false) (script_of (generated count start)) SummarizesFront (B.chip flash)
        (view_of K.held K.pieces sink.old) f (view_of K.held K.pieces sink.new)) }
    ensures memory { result.status ≡ Status.Memory
        → FirstOrAllFrom B.chip node_kind (format_by false) (script_of (generated count start)) Unwritten (B.chip flash)
        (view_of K.held K.pieces sink.old) result.flash (view_of K.held K.pieces sink.new) }
    ensures unwritten { result.status ≡ Status.Memory
        → view_of K.held K.pieces sink.new ≡ view_of K.held K.pieces sink.old }
    ensures nothing_written { IsBeforeLives result.status → sink.new ≡ sink.old }
{
    // They do nothing when they run: the proof uses what they say.
    generated_law();
    node_kind_law();
    let script = GeneratedScript { count, start };
    let mut summary = Summary::new();
    let ended = run_script::<ScriptMachine, R, GeneratedScript, B, Summary, K, G>(
        host,
        false,
        &script,
        &mut summary,
        sink,
        flash,
    );
    let Ended { status, flash } = ended;
    match status {
        Status::Done => Ended {
            status: sum_up(host.alloc, sink, &summary),
            flash,
        },
        status => Ended { status, flash },
    }
}
