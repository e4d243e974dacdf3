//! The audit of a log: keys and lines of a report to the first thing that is wrong with them. What an input and a verdict are is
//! defined in `audit_definitions`.
//!
//! - `auditing`: `audit`, and `audit_report` with the line of its verdict
//! - `input`: a text to its keys, and the own sources of its report lines
//! - `verdicts`: the first thing that is wrong with the lines, which are read once more for it
//! - `facts`, `seen`: what a line is compared by, and what the lines before it used and accepted
//! - `seals`: whether the octets of a line are those of the PDU that it tells
//!
//! A caller to begin with: `audit_text` in `crates/run_steps/src/audits.rt`; `worked/audits.texts` has texts with their verdicts.
#![tactic(auto)]

pub mod auditing;
mod facts;
pub mod input;
mod seals;
mod seen;
mod verdicts;

pub use crate::auditing::{audit, audit_report};
pub use crate::input::AuditStop;
