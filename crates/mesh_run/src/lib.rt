//! The run of a whole script: from the octets of a source to the report in a sink, over the lives of one flash.
//!
//! - `running`: `run`, the top call of the program
//! - `kinds`: the script of a text, run by the machines of a kind of node
//! - `scripts`: the script of a text, over a flash that is provisioned for it
//! - `generated`: a script that is generated, run and summed up
//! - `lives`: the lives of a script, one after another
//! - `machine`: the machine of a node's lives
//! - `laws`: what holds of the runs of a kind of node
//!
//! A caller to begin with: `run_words` in `crates/meshnode/src/main.rt`.
//!
//! In `specs/`, `Kind` says what lives are run by, `Ran` what a whole run leaves, `Causes` where each status comes, and `Ending` how the parts of
//! `run` end.
#![tactic(auto)]

mod generated;
mod kinds;
mod laws;
mod lives;
mod machine;
mod running;
mod scripts;

pub use run_steps::{Ended, Status};
pub use running::run;
