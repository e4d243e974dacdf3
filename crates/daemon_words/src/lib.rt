//! The commands of the node that runs with its state in a file, and the words that they are given by.
//!
//! - `commands`: what a command is
//! - `numbers`: the words of what a new node is provisioned with
//! - `keys`: its keys, which no word of a command has
//! - `reading`: words to the command that they are, by `clap`
//! - `texts`: what the program tells of itself
#![tactic(auto)]

mod commands;
mod keys;
mod numbers;
mod reading;
mod texts;

pub use commands::{Command, RunWays};
pub use keys::{NodeKeys, keys_of};
pub use numbers::{NodeNumbers, provision_with};
pub use reading::{command_of, file_of};
pub use texts::{HELP, VERSION};
