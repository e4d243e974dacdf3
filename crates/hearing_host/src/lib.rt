//! The smallest host of a node: its one bearer hears the PDUs of a list, one after another, and what each left is kept.
//!
//! - `ends`: a source that gives PDUs from a list, and a sink that keeps
//! - `host`: the life between them
#![tactic(auto)]

mod ends;
mod host;

pub use ends::{HeardPdus, KeptLogs};
pub use host::{Heard, hear_all};
