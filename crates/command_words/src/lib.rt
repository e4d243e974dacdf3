//! The commands of the program, and the words that they are given by.
//!
//! - `commands`: what a command is
//! - `numbers`: numbers that words stand for
//! - `reading`: words to the command that they are, by `clap`
#![tactic(auto)]

mod commands;
mod numbers;
mod reading;

pub use commands::{Command, NodeKind, RunFlags};
pub use reading::command_of;
