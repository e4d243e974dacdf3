//! The reader of scripts: the octets of a text to the script that it is, or its first failing line with the rule that fails
//! there first. What scripts are is defined in `script_definitions`.
//!
//! - `reading`: `read_script` and `read_low_power_script`, line by line
//! - `draft`: the script that the lines read so far are
//! - `counted`: the kind of a line, and what its words stand for
//! - `node_lines`, `outside_lines`, `event_lines`: the kinds of lines
//! - `forms`, `digits`: what one word stands for
//! - `words`: a text cut into lines, and a line into words
//!
//! `counted`, `words` and two calls of `reading` are what a reader of single lines needs (`live_lines`).
//!
//! A caller to begin with: `run_text` in `crates/mesh_run/src/scripts.rt`; `worked/refused.texts` has texts on both sides of each rule.
#![tactic(auto)]

pub mod counted;
pub mod digits;
mod draft;
mod event_lines;
pub mod forms;
mod node_lines;
mod outside_lines;
pub mod reading;
pub mod words;

pub use crate::reading::{LONGEST_SCRIPT, ScriptStop, read_low_power_script, read_script};
