//! The program: a mesh node whose state is in a file, and which goes on as long as lines come.
//!
//! `meshnoded init FILE UNICAST ELEMENTS IV FLAGS NETIDX` makes the file of a new node, with keys from standard input; `meshnoded run FILE` runs the
//! node, whose phases are the lines of standard input, and tells on standard output at once what became of each; `meshnoded show FILE` tells what the
//! file stores, but no key; `meshnoded check FILE` tells whether it holds a node. The program ends with the number of its status, and tells on
//! standard error what went wrong where it isn't 0.
//!
//! - `commands`: what each command does that runs no node
//! - `running`: a node that is run
//! - `files`: the files that commands name
//! - `failure`: what can go wrong
//! - `program`: the program, over whatever its files and streams are
#![tactic(auto)]

mod commands;
mod failure;
mod files;
mod program;
mod running;

use crate::files::SystemFiles;
use crate::program::{Program, exit_code};
use live_node::Streams;
use mesh_base::standard::{StdSink, StdSource};
use std::process::ExitCode;

fn main(rt: HostRuntime) -> ExitCode {
    let files = SystemFiles { rt: &rt };
    let program = Program {
        rt: &rt,
        files: &files,
        streams: Streams {
            source: StdSource::new(rt.stdin()),
            errors: StdSink::new(rt.stderr()),
            sink: StdSink::new(rt.stdout()),
        },
    };
    let answer = program.run_arguments().answer;
    if let Err(failure) = &answer {
        // Where standard error can't be written, the number tells the status.
        let _ = eprintln!(rt; "{failure}");
    }
    exit_code(&answer)
}
