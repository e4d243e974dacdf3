//! The records of a node's store as plain types, below the crates that write them, read them and say what they mean.
//!
//! - `records`: a variant for each kind of record
#![tactic(auto)]

pub mod records;
