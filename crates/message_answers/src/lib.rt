//! What a node of any kind answers to a network PDU and to a whole message by what its records say: who sent it, whether it is a replay, what it
//! opens to, and whether the replay list has a place for it.
//!
//! - `rows`: by the sender and by the name
//! - `whole`: of a whole message
#![tactic(auto)]

mod rows;
mod whole;

pub use rows::{replayed, sender_row};
pub use whole::{Judged, judge_control, judge_opened};
