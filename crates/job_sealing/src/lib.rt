//! The line of a job: what is sealed and goes out, and the event of the node's own that follows.
//!
//! - `kept`: the schedules of the keys that were sealed with last
//! - `lines`: the line of a job, by its kind
//! - `messages`: access messages, sealed at both transport layers
//! - `segments`: segments of an own message
#![tactic(auto)]

mod kept;
mod lines;
mod messages;
mod segments;

pub use kept::KeptSeals;
pub use lines::{Line, drawn_line, draws, plain_line};
