//! The record of a run, and the text of its report, apart from all code. The definitions stand in `specs/`:
//!
//! - `Record`: the record of a run over all its lives
//! - `Text`, `Report`: the lines of a record, and their text
//! - `WorkedReports`: two records with their reports
#![tactic(auto)]

pub mod laws;
