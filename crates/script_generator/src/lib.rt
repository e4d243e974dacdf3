//! Scripts that are generated from two numbers, for long runs: so many lines of bearers, each of which follows from a number, and the
//! numbers from one another. What such a script is is defined in `specs/`, `Generated`.
//!
//! - `lines`: one line
//! - `scripts`: the script, `GeneratedScript`, and that it is one
#![tactic(auto)]

mod lines;
mod scripts;

pub use scripts::{GeneratedScript, generated_law};
