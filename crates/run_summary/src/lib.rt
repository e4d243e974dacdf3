//! The summary of a run: its lives are counted as they end, and nothing else of them is kept.
//!
//! - `counts`: what is counted of a life
//! - `summary`: the numbers of a run, as what is made of lives that are over
//! - `writing`: its eight lines
//!
//! In `specs/`, `Summaries` says what the summary of lives is, and its text, `Telling` what a sink tells after it was written, and `Counting` how
//! it grows life by life.
#![tactic(auto)]

mod counts;
mod summary;
mod writing;

pub use summary::Summary;
pub use writing::write_summary;
