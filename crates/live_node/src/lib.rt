//! A node that runs: one life over a flash, whose phases are the lines of a source, and whose report is written phase by phase.
//!
//! - `running`: `run_node`, the life from its opening to its end
//! - `ending`: its last line, and how it ends
//! - `status`: how a life ends, and its streams
//!
//! In `specs/`, `Lived` says what a life leaves, and `Status` which number and name each status has.
#![tactic(auto)]

mod ending;
mod running;
mod status;

pub use running::run_node;
pub use status::{Ended, Status, Streams};
