//! The script of a text, run by the machines of a kind of node.
#![tactic(auto)]

ghost use Rattle.std.specs.Prelude.{◌≡◌, ◌≤◌, ℕ, Some, IsTrue, length};
ghost use Rattle.report_writer.specs.Writing.{view_of};
ghost use Rattle.script_definitions.specs.Reading.{reading};
ghost use Rattle.script_definitions.specs.Reading.Reading.{Fails};
ghost use Rattle.mesh_run.specs.Causes.{IsBeforeFlash};
ghost use Rattle.mesh_run.specs.Ending.{EndsByCause, IsReported};
ghost use Rattle.mesh_run.specs.Kind.{grammar_of, machines_of};

use crate::laws::{low_power_kind_law, node_kind_law};
use crate::machine::ScriptMachine;
use crate::scripts::run_text;
use command_words::{NodeKind, RunFlags};
use flash_model::Bench;
use low_power_machine::LowPowerMachine;
use mesh_base::outside::Sink;
use mesh_node::{Gate, Host};
use run_steps::{Ended, Status};
use script_definitions::kind::Grammar;
use std::sync::Wait;
use std::thread::Threads;

/// Runs the script of this kind of node that a text is, if it is one.
pub(crate) fn run_by<R: Threads + Wait + Sync, B: Bench, K: Sink, G: Gate>(
    host: &Host<R, G>,
    kind: NodeKind,
    flags: RunFlags,
    text: &[u8],
    sink: &mut K,
    flash: B,
) -> Ended<B>
    requires honest { IsTrue (B.chip flash).honest }
    requires short { length text.now ≤ 4194304 }

    ensures ends { EndsByCause B.chip (reading (grammar_of kind) text.now) (B.chip flash) result.status result.flash
        (K.faults sink.old) (K.faults sink.new) }
    ensures script { (line rule : ℕ) → result.status ≡ Status.Script line rule
        → reading (grammar_of kind) text.now ≡ Fails line rule }
    ensures report { IsReported B.chip (machines_of kind) (reading (grammar_of kind) text.now) flags flash result.status result.flash
        (view_of K.held K.pieces) sink.old sink.new }
    ensures same_flash { IsBeforeFlash result.status → result.flash ≡ Some flash }
{
    // They do nothing when they run: the proof uses what they say.
    node_kind_law();
    low_power_kind_law();
    match kind {
        NodeKind::Node => run_text::<ScriptMachine, R, B, K, G>(
            host,
            Grammar::Node,
            flags,
            text,
            sink,
            flash,
        ),
        NodeKind::LowPower => run_text::<LowPowerMachine, R, B, K, G>(
            host,
            Grammar::LowPower,
            flags,
            text,
            sink,
            flash,
        ),
    }
}
