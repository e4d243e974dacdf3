//! What a life of a node asks of the machine that handles its events, as a trait: so a life is proved apart from the machine.
//!
//! - `machine`: the trait, with the contract of each call
//! - `opening`: what a machine opens with, and why it doesn't
//! - `answers`: what a call answers, why it stops, and what a failed call had in hand
//! - `early`: what was read before an event is handled, and how often that is used
//! - `history`: what a machine leaves when a life is over
//!
//! What contracts see of a machine stands in `specs/`: `View` what it shows, `Ranges` the ranges of events and jobs, `Standing` what holds
//! between two calls of it, its flash and the records that its life opened over, and `Refused` what a refusal leaves.
#![tactic(auto)]

mod answers;
mod early;
mod history;
mod machine;
mod opening;

pub use answers::{Answered, Hand, Stop};
pub use early::{EarlyReads, ReadBefore};
pub use history::History;
pub use machine::Machine;
pub use opening::{StartFault, Started};
