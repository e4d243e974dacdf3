//! The reader of report lines: a text, as `run --hex` writes it, to the one line whose text it is.
//!
//! - `reading`: `read_line`
//! - `lines`: the kinds of lines
//! - `answers`, `outcomes`: what was answered to an event, and what became of a job
//! - `forms`: what the fields of a line stand for
//! - `laws`: a text has one line at most
#![tactic(auto)]

mod answers;
mod forms;
pub mod laws;
mod lines;
mod outcomes;
pub mod reading;

pub use crate::reading::{LineStop, read_line};
