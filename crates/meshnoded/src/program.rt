//! The program, over whatever its files and streams are.
#![tactic(auto)]

ghost use Rattle.std.specs.Prelude.{◌≡◌, ℕ, List, map, string_bytes, IfErr, IfSome, OnOk};
ghost use Rattle.std.specs.Process.{exit_status};
ghost use Rattle.daemon_words.specs.Commands.{HasNumbers};
ghost use Rattle.daemon_words.specs.Numbers.{IsBearers};
ghost use Rattle.live_node.specs.Lived.{streams_at};
ghost use Rattle.report_writer.specs.Writing.{view_of};
ghost use Rattle.meshnoded.specs.Causes.{IsAnswerBy, IsErrorsFailure, IsSinkFailure, IsSourceFailure};
ghost use Rattle.meshnoded.specs.Doing.{IsClockless, IsDone, IsDoneBy, IsFailed, IsFailedBy};
ghost use Rattle.meshnoded.specs.Numbers.{answer_number};
ghost use Rattle.meshnoded.specs.Streams.{back_at};

use crate::commands::{check, init, tell, tell_help, tell_version};
use crate::failure::Failure;
use crate::files::NodeFiles;
use crate::running::{Ran, run};
use clocked_input::ClockedInput;
use daemon_words::{Command, RunWays, command_of, file_of};
use flash_model::Flash;
use live_lines::ClockedSource;
use live_node::Streams;
use mesh_base::outside::Sink;
use node_file::NodeFlash;
use program_words::{NoWords, arguments_of, words_of};
use std::env::Env;
use std::io;
use std::io::ErrorKind;
use std::process::ExitCode;
use std::sync::Wait;
use std::thread::Threads;
use std::time::Clock;

/// What the program is over.
#[derive(Drop)]
pub struct Program<'a, R, H, S, E, K> {
    /// The system: its memory, threads and clock.
    pub rt: &'a R,
    /// Where the files of nodes are.
    pub files: &'a H,
    /// The streams of the process.
    pub streams: Streams<S, E, K>,
}

/// What became of what was asked for.
#[derive(Drop)]
pub struct Answered<S, E, K> {
    /// That it was done, or why not.
    pub answer: Result<(), Failure>,
    /// Where lines and keys come from. There is none where `--clock` asked for a thread that reads it.
    pub source: Option<S>,
    /// Where it is told what is wrong with a line.
    pub errors: E,
    /// Where it is told what was asked for.
    pub sink: K,
}

/// What became of a node that was to be run over the source of the process.
fn answered_by<S, E, K>(ran: Ran<S, E, K>) -> Answered<S, E, K>
    ensures value { result
        ≡ record {
          answer = ran.answer;
          source = Some ran.streams.source;
          errors = ran.streams.errors;
          sink = ran.streams.sink;
        } }
{
    let Ran { answer, streams } = ran;
    let Streams {
        source,
        errors,
        sink,
    } = streams;
    Answered {
        answer,
        source: Some(source),
        errors,
        sink,
    }
}

/// What became of a node that was to be run over another source.
fn answered_beside<T: Drop, S, E, K>(ran: Ran<T, E, K>) -> Answered<S, E, K>
    ensures value { result
        ≡ record { answer = ran.answer; source = None; errors = ran.streams.errors; sink = ran.streams.sink } }
{
    let Ran { answer, streams } = ran;
    let Streams { errors, sink, .. } = streams;
    Answered {
        answer,
        source: None,
        errors,
        sink,
    }
}

/// Why there is no reading by a clock.
fn not_begun(error: io::Error) -> Failure
    ensures cause { IsClockless result }
{
    match error.kind() {
        ErrorKind::OutOfMemory => Failure::Memory,
        _ => Failure::Clock(error),
    }
}

/// The number that the program ends with.
pub fn exit_code(answer: &Result<(), Failure>) -> ExitCode
    ensures value { exit_status result ≡ answer_number answer.now }
{
    match answer {
        Ok(()) => ExitCode::SUCCESS,
        Err(failure) => ExitCode::from(failure.number()),
    }
}

impl<
    R: Env + AllocGlobal + Threads + Wait + Clock + Copy + Drop + Send + Sync + 'static,
    H: NodeFiles,
    S: ClockedSource + Send + Drop + 'static,
    E: Sink + Drop,
    K: Sink + Drop,
> Program<'_, R, H, S, E, K> {
    /// That this became of it, where no node was run.
    fn answered(self, answer: Result<(), Failure>) -> Answered<S, E, K>
        ensures value { result
            ≡ record {
              answer = answer;
              source = Some self.entry.streams.source;
              errors = self.entry.streams.errors;
              sink = self.entry.streams.sink;
            } }
    {
        let Program { streams, .. } = self;
        answered_by(Ran { answer, streams })
    }

    /// Runs the node of a file, with a clock or without.
    fn run_node(self, file: &str, ways: RunWays) -> Answered<S, E, K>
        requires bearers { IsBearers ways.bearers }
        ensures done { OnOk result.answer
            (IsDone (⟦<NodeFlash as Flash>⟧.chip) (H.opens self.entry.files.now) (H.makes self.entry.files.now) S.clocked
            (streams_at S.left S.faults S.time E.held E.pieces E.faults self.entry.streams)
            (back_at S.left S.faults E.held E.pieces E.faults result.source result.errors)
            (view_of K.held K.pieces self.entry.streams.sink) (view_of K.held K.pieces result.sink) (Command.Run ways) file.now) }
        ensures failed { IfErr result.answer
            (IsFailed (⟦<NodeFlash as Flash>⟧.chip) (H.opens self.entry.files.now) (H.refuses self.entry.files.now)
            (H.unmakes self.entry.files.now) S.clocked (streams_at S.left S.faults S.time E.held E.pieces E.faults self.entry.streams)
            (back_at S.left S.faults E.held E.pieces E.faults result.source result.errors)
            (view_of K.held K.pieces self.entry.streams.sink) (view_of K.held K.pieces result.sink) (Command.Run ways) file.now) }
        ensures source_cause { IfSome result.source
            (λ source. IsAnswerBy IsSourceFailure result.answer (S.faults self.entry.streams.source) (S.faults source)) }
        ensures errors_cause { IsAnswerBy IsErrorsFailure result.answer (E.faults self.entry.streams.errors)
            (E.faults result.errors) }
        ensures sink_cause { IsAnswerBy IsSinkFailure result.answer (K.faults self.entry.streams.sink)
            (K.faults result.sink) }
    {
        let alloc = self.rt.alloc();
        let Program { rt, files, streams } = self;
        if !ways.clock {
            return answered_by(run(rt, files, alloc, file, ways, streams));
        }
        let Streams {
            source,
            errors,
            sink,
        } = streams;
        let source = match ClockedInput::start(rt, alloc, source) {
            Ok(source) => source,
            Err(error) => {
                return Answered {
                    answer: Err(not_begun(error)),
                    source: None,
                    errors,
                    sink,
                };
            }
        };
        let streams = Streams {
            source,
            errors,
            sink,
        };
        answered_beside(run(rt, files, alloc, file, ways, streams))
    }

    /// Does what a command asks for, of the file that it names.
    fn run_command(self, command: Command, file: &str) -> Answered<S, E, K>
        requires numbers { HasNumbers command }
        ensures done { OnOk result.answer
            (IsDone (⟦<NodeFlash as Flash>⟧.chip) (H.opens self.entry.files.now) (H.makes self.entry.files.now) S.clocked
            (streams_at S.left S.faults S.time E.held E.pieces E.faults self.entry.streams)
            (back_at S.left S.faults E.held E.pieces E.faults result.source result.errors)
            (view_of K.held K.pieces self.entry.streams.sink) (view_of K.held K.pieces result.sink) command file.now) }
        ensures failed { IfErr result.answer
            (IsFailed (⟦<NodeFlash as Flash>⟧.chip) (H.opens self.entry.files.now) (H.refuses self.entry.files.now)
            (H.unmakes self.entry.files.now) S.clocked (streams_at S.left S.faults S.time E.held E.pieces E.faults self.entry.streams)
            (back_at S.left S.faults E.held E.pieces E.faults result.source result.errors)
            (view_of K.held K.pieces self.entry.streams.sink) (view_of K.held K.pieces result.sink) command file.now) }
        ensures source_cause { IfSome result.source
            (λ source. IsAnswerBy IsSourceFailure result.answer (S.faults self.entry.streams.source) (S.faults source)) }
        ensures errors_cause { IsAnswerBy IsErrorsFailure result.answer (E.faults self.entry.streams.errors)
            (E.faults result.errors) }
        ensures sink_cause { IsAnswerBy IsSinkFailure result.answer (K.faults self.entry.streams.sink)
            (K.faults result.sink) }
    {
        let alloc = self.rt.alloc();
        let mut program = self;
        match command {
            Command::Init(numbers) => {
                let answer = init(
                    program.files,
                    alloc,
                    file,
                    numbers,
                    &mut program.streams.source,
                );
                program.answered(answer)
            }
            Command::Run(ways) => program.run_node(file, ways),
            Command::Show => {
                let answer = tell(program.files, alloc, file, &mut program.streams.sink);
                program.answered(answer)
            }
            Command::Check => {
                let answer = check(program.files, alloc, file);
                program.answered(answer)
            }
            Command::Help => {
                let answer = tell_help(&mut program.streams.sink);
                program.answered(answer)
            }
            Command::Version => {
                let answer = tell_version(&mut program.streams.sink);
                program.answered(answer)
            }
        }
    }

    /// Does what words ask for.
    fn run_words(self, words: &[&str]) -> Answered<S, E, K>
        ensures done { OnOk result.answer
            (IsDoneBy (⟦<NodeFlash as Flash>⟧.chip) (H.opens self.entry.files.now) (H.makes self.entry.files.now) S.clocked
            (streams_at S.left S.faults S.time E.held E.pieces E.faults self.entry.streams)
            (back_at S.left S.faults E.held E.pieces E.faults result.source result.errors)
            (view_of K.held K.pieces self.entry.streams.sink) (view_of K.held K.pieces result.sink) (map (λ w. w.now) words.now)) }
        ensures failed { IfErr result.answer
            (IsFailedBy (⟦<NodeFlash as Flash>⟧.chip) (H.opens self.entry.files.now) (H.refuses self.entry.files.now)
            (H.unmakes self.entry.files.now) S.clocked (streams_at S.left S.faults S.time E.held E.pieces E.faults self.entry.streams)
            (back_at S.left S.faults E.held E.pieces E.faults result.source result.errors)
            (view_of K.held K.pieces self.entry.streams.sink) (view_of K.held K.pieces result.sink) (map (λ w. w.now) words.now)) }
        ensures source_cause { IfSome result.source
            (λ source. IsAnswerBy IsSourceFailure result.answer (S.faults self.entry.streams.source) (S.faults source)) }
        ensures errors_cause { IsAnswerBy IsErrorsFailure result.answer (E.faults self.entry.streams.errors)
            (E.faults result.errors) }
        ensures sink_cause { IsAnswerBy IsSinkFailure result.answer (K.faults self.entry.streams.sink)
            (K.faults result.sink) }
    {
        match command_of(self.rt.alloc(), words) {
            Ok(Some(command)) => self.run_command(command, file_of(words)),
            Ok(None) => self.answered(Err(Failure::Usage)),
            Err(_) => self.answered(Err(Failure::Memory)),
        }
    }

    /// Does what arguments ask for.
    fn run_given(self, arguments: &[String]) -> Answered<S, E, K>
        ensures done { OnOk result.answer
            (IsDoneBy (⟦<NodeFlash as Flash>⟧.chip) (H.opens self.entry.files.now) (H.makes self.entry.files.now) S.clocked
            (streams_at S.left S.faults S.time E.held E.pieces E.faults self.entry.streams)
            (back_at S.left S.faults E.held E.pieces E.faults result.source result.errors)
            (view_of K.held K.pieces self.entry.streams.sink) (view_of K.held K.pieces result.sink) (map (λ a. string_bytes a) arguments.now)) }
        ensures failed { IfErr result.answer
            (IsFailedBy (⟦<NodeFlash as Flash>⟧.chip) (H.opens self.entry.files.now) (H.refuses self.entry.files.now)
            (H.unmakes self.entry.files.now) S.clocked (streams_at S.left S.faults S.time E.held E.pieces E.faults self.entry.streams)
            (back_at S.left S.faults E.held E.pieces E.faults result.source result.errors)
            (view_of K.held K.pieces self.entry.streams.sink) (view_of K.held K.pieces result.sink) (map (λ a. string_bytes a) arguments.now)) }
        ensures source_cause { IfSome result.source
            (λ source. IsAnswerBy IsSourceFailure result.answer (S.faults self.entry.streams.source) (S.faults source)) }
        ensures errors_cause { IsAnswerBy IsErrorsFailure result.answer (E.faults self.entry.streams.errors)
            (E.faults result.errors) }
        ensures sink_cause { IsAnswerBy IsSinkFailure result.answer (K.faults self.entry.streams.sink)
            (K.faults result.sink) }
    {
        match words_of(self.rt.alloc(), arguments) {
            Ok(words) => self.run_words(words.as_slice()),
            Err(_) => self.answered(Err(Failure::Memory)),
        }
    }

    /// Does what the arguments of the process ask for. Where one isn't text they are no command.
    pub fn run_arguments(self) -> Answered<S, E, K>
        ensures done { OnOk result.answer
            ((words : List (List ℕ))
            × IsDoneBy (⟦<NodeFlash as Flash>⟧.chip) (H.opens self.entry.files.now) (H.makes self.entry.files.now) S.clocked
            (streams_at S.left S.faults S.time E.held E.pieces E.faults self.entry.streams)
            (back_at S.left S.faults E.held E.pieces E.faults result.source result.errors)
            (view_of K.held K.pieces self.entry.streams.sink) (view_of K.held K.pieces result.sink) words) }
        ensures failed { IfErr result.answer
            (λ failure. (words : List (List ℕ))
            × IsFailedBy (⟦<NodeFlash as Flash>⟧.chip) (H.opens self.entry.files.now) (H.refuses self.entry.files.now)
            (H.unmakes self.entry.files.now) S.clocked (streams_at S.left S.faults S.time E.held E.pieces E.faults self.entry.streams)
            (back_at S.left S.faults E.held E.pieces E.faults result.source result.errors)
            (view_of K.held K.pieces self.entry.streams.sink) (view_of K.held K.pieces result.sink) words failure) }
        ensures source_cause { IfSome result.source
            (λ source. IsAnswerBy IsSourceFailure result.answer (S.faults self.entry.streams.source) (S.faults source)) }
        ensures errors_cause { IsAnswerBy IsErrorsFailure result.answer (E.faults self.entry.streams.errors)
            (E.faults result.errors) }
        ensures sink_cause { IsAnswerBy IsSinkFailure result.answer (K.faults self.entry.streams.sink)
            (K.faults result.sink) }
    {
        match arguments_of(self.rt) {
            Ok(arguments) => self.run_given(arguments.as_slice()),
            Err(NoWords::NotText) => self.answered(Err(Failure::Usage)),
            Err(NoWords::Memory) => self.answered(Err(Failure::Memory)),
        }
    }
}
