//! The steps of a run that no life takes, and how a run ends.
//!
//! - `reading`: a source to its end
//! - `provisioning`: what a node is provisioned with, onto an erased flash
//! - `audits`: the audit of a log
//! - `status`: how a run ends
//!
//! Callers to begin with: `run` in `crates/mesh_run/src/running.rt`, and `run_script` in `crates/mesh_run/src/scripts.rt`.
#![tactic(auto)]

mod audits;
mod provisioning;
mod reading;
mod status;

pub use audits::audit_text;
pub use provisioning::provision;
pub use reading::{ReadStop, read_whole};
pub use status::{Ended, Status};
