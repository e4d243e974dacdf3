//! What every machine is, whatever kind of node it has: how it stands over its flash and over the records that its life opened over, how it is
//! opened, and how an entry gets into its history. The kind of node is a role with what is kept in memory; a machine of one kind stands on this.
//!
//! - `Views` (in `specs/`): a machine as proofs see it
//! - `Ties`: what holds between two calls, and what a kind of machine owes for it
//! - `Kept`: which records keep a node whole
//! - `opening`: the store of a node is mounted
//! - `entering`: memory before an event, and its entry
#![tactic(auto)]

mod entering;
mod opening;

pub use entering::{Place, enter, room};
pub use opening::mount_node;
