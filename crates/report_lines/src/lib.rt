//! The lines of a node's report as octets.
//!
//! - `lines`: `write_line`, each line as its text, and lines put behind a text, of entries and jobs from where they stand
//! - `answers`, `outcomes`: the words of an answer, and of what became of a job
//! - `text`: the text of one line, word by word
#![tactic(auto)]

mod answers;
pub mod lines;
mod outcomes;
pub mod text;

pub use crate::lines::{push_entry_line, push_line, push_sent_line, write_line};
pub use crate::text::LineText;
