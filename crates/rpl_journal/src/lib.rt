//! The replay list on the flash: a message is accepted only where it is newer than the entry of its source, and its own entry is durable
//! before it is delivered (Mesh Profile 1.0.1, section 3.8.8).
//!
//! What is written where: a message that is accepted is one Replay record.
//!
//! Hence what a cut leaves: the entries of before, or these with the new one. Where the new one is recovered and the message was not delivered
//! yet, the message is lost, never delivered twice.
//!
//! - `checking`: [`check`], which writes nothing
//! - `accepting`: [`accept`]
//!
//! A caller to begin with: `accepted` in `crates/worked_parts/src/tests/stores.rt`.
#![tactic(auto)]

mod accepting;
mod checking;

pub use accepting::{AcceptFault, accept};
pub use checking::{Old, check};
