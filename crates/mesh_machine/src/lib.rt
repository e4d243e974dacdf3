//! The machine of a node: it handles one event after another over its flash.
//!
//! Each event goes one way: room for its entry and its jobs is taken, and its plan is made from the tables in memory and what the store says;
//! then its records are put, in their order; then its jobs are made, over the store as it is now; and then its entry is appended. What can fail
//! for want of memory comes first, so after it nothing changed; what fails at the flash closes the machine. So nothing is answered before what
//! it stores is durable. Each kind of event has a function of its own, so that none pays for the values of another.
//!
//! A network PDU may be read before, without the machine, by a view that was taken from it: where that view is the machine's still, what was read
//! is used, and else the PDU is read again.
//!
//! - `machine`: [`MeshMachine`], and what it makes of network PDUs that were read before
//! - `state`: what it is between two calls, apart from its counts of early reading, and how it handles an event
//! - `kinds`: how an event is handled, by its kind
//! - `parts`: what the machine keeps of its node, and how records are stored in it
//! - `entering`: the keys behind the records
//! - `waiting`: in how many ticks something is due
//! - `opening`: how it is opened
//!
//! A caller to begin with: `live` in `crates/mesh_run/src/lives.rt`, which has `life` of `mesh_node` run it.
#![tactic(auto)]

mod entering;
mod kinds;
mod machine;
mod opening;
mod parts;
mod state;
mod waiting;

pub use early_reading::{KeyView, Reader, Reading};
pub use machine::MeshMachine;
