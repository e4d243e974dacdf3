//! The network layer's PDUs (Mesh Profile 1.0.1, sections 3.4.4 and 3.8.7): fields sealed into octets, and octets read as fields.
//!
//! - `sealing`: fields to octets, by schedules that are kept or made for one PDU
//! - `reading`: octets to fields, under the first key that reads them
//! - `fields`: the fixed fields
//! - `obfuscation`: the header, obfuscated and clear
//!
//! A caller to begin with: `network` and `heard` in `crates/worked_vectors/src/pdus.rt`.
#![tactic(auto)]

mod fields;
mod obfuscation;
mod reading;
mod sealing;

pub use kept_keys::{HeardSchedules, NetSchedules};
pub use reading::{NetReading, Unread, read, read_kept, read_kept_behind, read_one, reading_law};
pub use sealing::{seal, seal_kept};
