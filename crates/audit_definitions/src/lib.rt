//! What an audit of a report is, apart from all code. The definitions stand in `specs/`:
//!
//! - `Input`: lines of keys, and then lines of a report
//! - `Seals`: what the lines show
//! - `Verdicts`: what may be wrong with them, which of it comes first, and the line that says so
//! - `laws`: an input says one thing, and has one verdict
#![tactic(auto)]

pub mod laws;
pub mod verdict;

pub use crate::verdict::Verdict;
