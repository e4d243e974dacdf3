//! What a script has a node do: the plan of each life, and what the node is provisioned with.
//!
//! - `planning`: the plan of the lines of one life
//! - `draft`: the plan of the lines so far
//! - `rooms`: for how many events a phase takes memory as it begins
//! - `scripts`: what a script says of its node
#![tactic(auto)]

mod draft;
pub mod planning;
mod rooms;
pub mod scripts;

pub use crate::planning::plan_of;
pub use crate::scripts::{provision_of, script_law};
