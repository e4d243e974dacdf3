//! The texts of the records of a node's store: the one text of each record ([`encode`]), and the one record of a text ([`decode`]).
//!
//! - `encoding`: from a record to its slot
//! - `decoding`: from a slot to its record
//! - `ranges`: whether a record's fields are in their ranges
//!
//! A caller to begin with: `take` in `crates/worked_parts/src/tests/records.rt`.
#![tactic(auto)]

mod decoding;
mod encoding;
mod ranges;

pub use decoding::{BadRecord, decode};
pub use encoding::encode;
pub use ranges::is_in_range;
