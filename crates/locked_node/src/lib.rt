//! The value behind a node's lock: the machine with its flash, whose entries are the history and a mark for each bearer that stopped.
//!
//! - `known`: a value of the past that is known to proofs, and takes no place
//! - `marks`: the entries of the lock, and the origin of the value
//! - `raised`: what a refill answers
//! - `node`: the value, with its calls
//! - `waiting`: in how many ticks something is due
//! - `handing`: the writes of a flash that its caller makes
#![tactic(auto)]

mod handing;
mod known;
mod marks;
mod node;
mod raised;
mod waiting;

pub use known::Known;
pub use marks::{Armed, Mark, Origin};
pub use node::Node;
pub use raised::Raised;
