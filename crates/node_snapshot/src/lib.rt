//! The snapshot of a store: the records that say a value anew ([`snapshot`]), for a compaction. They are told one at a time, so that they
//! needn't all lie in memory.
//!
//! - `parts`: the records of each part of the value
//! - `names`: the names of the replay list by source, two a record
//! - `listing`: the whole list, and its slots
#![tactic(auto)]

mod listing;
mod names;
mod parts;

pub use listing::{SnapshotSlots, snapshot};
pub use names::{Names, put_names};
