//! The history of a life that goes on: in contracts all its entries, in memory those alone that weren't taken yet.
//!
//! - `log`: [`EntryLog`]
//! - `past`: the entries so far, which take no memory
#![tactic(auto)]

mod log;
mod past;

pub use log::EntryLog;
