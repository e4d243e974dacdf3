//! The value that a list of a node's records stands for ([`Persist`]): [`Persist::apply`] changes it record by record, and
//! [`Persist::check`] asks before whether there is a place.
//!
//! - `persist`: the value
//! - `applying`: what each record changes in it
//! - `keyed`: tables of rows that stand by a number
//! - `keys`, `lists`, `labels`, `publications`: the changes of its tables
//! - `replay`: the replay list, with its changes
//! - `limits`: whether a table has a place for what a record adds
//! - `laws`: what is true of every value of records in range
#![tactic(auto)]

mod applying;
mod keyed;
mod keys;
mod labels;
pub mod laws;
mod limits;
mod lists;
mod persist;
mod publications;
mod replay;

pub use applying::Limit;
pub use persist::Persist;
pub use record_types::records::{PublishRow, StoreRecord};
pub use replay::ReplayList;
