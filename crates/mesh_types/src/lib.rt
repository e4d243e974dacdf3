//! The plain types that a run of a node is told in, below all crates that work with them, so that the definitions of a run
//! can name them.
//!
//! - `events`: what happens to a node
//! - `answers`: what it answers to an event
//! - `low_power`: what a Low Power node is told to do, and what it answers to that
//! - `jobs`: what it is to send for an event
//! - `lines`: what became of a job
//! - `history`: the entries of a life and the lines of its bearers
//! - `report`: the lines of the report
//! - `told`: what contracts alone see of a value that was there
#![tactic(auto)]

pub mod answers;
pub mod events;
pub mod history;
pub mod jobs;
pub mod lines;
pub mod low_power;
pub mod report;
pub mod told;
