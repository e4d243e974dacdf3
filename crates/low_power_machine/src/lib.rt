//! The machine of a Low Power node (Mesh Profile 1.0.1, section 3.6.6): it handles one event after another over its flash, as a machine of any
//! kind of node (`machine_contract`). What it answers, stores and sends is `low_power_role`.
//!
//! Each event goes one way: room for its entry and its jobs is taken, and it is planned from what is kept in memory and what the store says;
//! then the record of an accepted message is put; then its jobs are made; and then its entry is appended. What can fail for want of memory comes
//! first, so after it nothing changed; what fails at the flash closes the machine. It has no timers, so nothing is ever due.
//!
//! - `machine`: [`LowPowerMachine`]
//! - `state`: what it is between two calls, and its calls
//! - `planning`: the plan of an event: its answer, and what is to be sent
//! - `hearing`: a network PDU heard
//! - `telling`: what the node is told to do
//! - `memory`: what is kept in memory
//! - `sending`: the jobs of a plan
//! - `opening`: how it is opened
#![tactic(auto)]

mod hearing;
mod machine;
mod memory;
mod opening;
mod plan;
mod planning;
mod sending;
mod state;
mod telling;

pub use machine::LowPowerMachine;
