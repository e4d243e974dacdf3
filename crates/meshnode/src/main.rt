//! The program: a mesh node, or a Low Power node, that runs the script on its standard input and prints the report on its standard output.
//!
//! `meshnode run` is the command, with `--hex` where the report is to show the octets of network PDUs, and `--old` where the node is to be
//! provisioned in format 01. `meshnode lpn`, alone or with `--hex`, runs the script of a Low Power node instead. `meshnode audit` reads a log, as
//! `run --hex` writes it, and prints the verdict on it. `meshnode gen COUNT START`
//! reads nothing: it runs a script of COUNT lines of bearers that is generated, whose numbers begin behind START, and prints what is counted
//! of it in eight lines. The flash is one in memory, erased at the beginning. The program ends with the number of its status, and prints the
//! status's name and numbers on standard error where it isn't `done`.
#![tactic(auto)]

ghost use Rattle.std.specs.Prelude.{◌≡◌, ℕ, List, map, string_bytes};
ghost use Rattle.std.specs.Process.{exit_status};
ghost use Rattle.command_words.specs.Commands.{command_of};
ghost use Rattle.report_writer.specs.Writing.{view_of};
ghost use Rattle.run_steps.specs.Status.{exit_number};
ghost use Rattle.meshnode.specs.Answering.{IsAnswered};

use flash_model::{Flash, MemFlash};
use mesh_base::outside::{Sink, Source};
use mesh_base::standard::{StdSink, StdSource};
use mesh_node::FreeGate;
use mesh_run::{Status, run};
use program_words::{NoWords, arguments_of, words_of};
use std::env::Env;
use std::process::ExitCode;
use std::sync::Wait;
use std::thread::Threads;

/// Runs the command of these words over an erased flash in memory.
fn run_words<R: AllocGlobal + Threads + Wait + Sync, S: Source, K: Sink>(
    rt: &R,
    words: &[&str],
    source: &mut S,
    sink: &mut K,
) -> Status
    ensures answers { IsAnswered (⟦<MemFlash as Flash>⟧.chip) S.left S.faults (view_of K.held K.pieces) K.faults
        (command_of (map (λ w. w.now) words.now)) result source.old source.new sink.old sink.new }
{
    let Ok(flash) = MemFlash::new(rt.alloc()) else {
        return Status::Memory;
    };
    run(rt, rt.alloc(), words, source, sink, flash, &FreeGate).status
}

/// Runs the command of these arguments.
fn run_given<R: AllocGlobal + Threads + Wait + Sync, S: Source, K: Sink>(
    rt: &R,
    arguments: &[String],
    source: &mut S,
    sink: &mut K,
) -> Status
    ensures answers { IsAnswered (⟦<MemFlash as Flash>⟧.chip) S.left S.faults (view_of K.held K.pieces) K.faults
        (command_of (map (λ a. string_bytes a) arguments.now)) result source.old source.new sink.old sink.new }
{
    match words_of(rt.alloc(), arguments) {
        Ok(words) => run_words(rt, words.as_slice(), source, sink),
        Err(_) => Status::Memory,
    }
}

/// Runs the command of the program's arguments. Where one isn't text they are no command.
fn run_arguments<R: Env + AllocGlobal + Threads + Wait + Sync, S: Source, K: Sink>(
    rt: &R,
    source: &mut S,
    sink: &mut K,
) -> Status
    ensures answers { (words : List (List ℕ))
        × IsAnswered (⟦<MemFlash as Flash>⟧.chip) S.left S.faults (view_of K.held K.pieces) K.faults
        (command_of words) result source.old source.new sink.old sink.new }
{
    match arguments_of(rt) {
        Ok(arguments) => run_given(rt, arguments.as_slice(), source, sink),
        Err(NoWords::NotText) => Status::Usage,
        Err(NoWords::Memory) => Status::Memory,
    }
}

/// What the program ends with.
fn exit_code(status: Status) -> ExitCode
    ensures value { exit_status result ≡ exit_number status }
{
    ExitCode::from(status.number())
}

fn main(rt: HostRuntime) -> ExitCode {
    let mut source = StdSource::new(rt.stdin());
    let mut sink = StdSink::new(rt.stdout());
    let status = run_arguments(&rt, &mut source, &mut sink);
    if status != Status::Done {
        // Where standard error can't be written, the number tells the status.
        let _ = eprintln!(rt; "{status}");
    }
    exit_code(status)
}
