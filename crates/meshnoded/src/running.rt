//! A node that is run.
#![tactic(auto)]

ghost use Rattle.std.specs.Prelude.{◌≡◌, IfErr, OnOk};
ghost use Rattle.daemon_words.specs.Numbers.{IsBearers};
ghost use Rattle.live_node.specs.Lived.{streams_at};
ghost use Rattle.report_writer.specs.Writing.{view_of};
ghost use Rattle.meshnoded.specs.Causes.{IsAnswerBy, IsErrorsFailure, IsSinkFailure, IsSourceFailure};
ghost use Rattle.meshnoded.specs.Running.{HasRun, IsAnswerOf, IsNotRun};

use crate::failure::Failure;
use crate::files::NodeFiles;
use daemon_words::RunWays;
use flash_model::Flash;
use live_lines::ClockedSource;
use live_node::{Status, Streams, run_node};
use mesh_base::outside::Sink;
use mesh_node::{FreeGate, Host};
use node_file::NodeFlash;
use std::alloc::Global;
use std::sync::Wait;
use std::thread::Threads;

/// What became of a node that was to be run.
#[derive(Drop)]
pub struct Ran<S, E, K> {
    /// That its source came to its end, or why it ended else.
    pub answer: Result<(), Failure>,
    /// The streams.
    pub streams: Streams<S, E, K>,
}

/// How a life is answered that ended so, where its flash failed or didn't.
fn answered(status: Status, closed: bool) -> Result<(), Failure>
    ensures done { OnOk result (status ≡ Status.Done) }
    ensures err { IfErr result (IsAnswerOf status closed) }
{
    match status {
        Status::Done => Ok(()),
        Status::Cut => Err(Failure::Life(Status::Cut)),
        status => {
            if closed {
                Err(Failure::LifeAndFlash(status))
            } else {
                Err(Failure::Life(status))
            }
        }
    }
}

/// `run`: the node of the file is run, over these streams.
pub fn run<
    H: NodeFiles,
    R: Threads + Wait + Sync,
    S: ClockedSource + Drop,
    E: Sink + Drop,
    K: Sink + Drop,
>(
    rt: &R,
    files: &H,
    alloc: Global,
    file: &str,
    ways: RunWays,
    streams: Streams<S, E, K>,
) -> Ran<S, E, K>
    requires bearers { IsBearers ways.bearers }
    ensures done { OnOk result.answer
        (HasRun (⟦<NodeFlash as Flash>⟧.chip) (H.opens files.now file.now) ways.hex ways.bearers S.clocked
        (streams_at S.left S.faults S.time E.held E.pieces E.faults streams)
        (streams_at S.left S.faults S.time E.held E.pieces E.faults result.streams)
        (view_of K.held K.pieces streams.sink) (view_of K.held K.pieces result.streams.sink)) }
    ensures failed { IfErr result.answer
        (IsNotRun (⟦<NodeFlash as Flash>⟧.chip) (H.opens files.now file.now) ways.hex ways.bearers S.clocked
        (streams_at S.left S.faults S.time E.held E.pieces E.faults streams)
        (streams_at S.left S.faults S.time E.held E.pieces E.faults result.streams)
        (view_of K.held K.pieces streams.sink) (view_of K.held K.pieces result.streams.sink)
        (H.refuses files.now file.now)) }
    ensures source_cause { IsAnswerBy IsSourceFailure result.answer (S.faults streams.source) (S.faults result.streams.source) }
    ensures errors_cause { IsAnswerBy IsErrorsFailure result.answer (E.faults streams.errors) (E.faults result.streams.errors) }
    ensures sink_cause { IsAnswerBy IsSinkFailure result.answer (K.faults streams.sink) (K.faults result.streams.sink) }
{
    let flash = match files.open(alloc, file) {
        Ok(flash) => flash,
        Err(fault) => {
            return Ran {
                answer: Err(Failure::from(fault)),
                streams,
            };
        }
    };
    let host = Host {
        rt,
        alloc,
        gate: &FreeGate,
    };
    let ended = run_node(&host, flash, ways.bearers, ways.hex, streams);
    Ran {
        answer: answered(ended.status, ended.closed),
        streams: ended.streams,
    }
}
