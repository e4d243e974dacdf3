//! What a node reads and opens with the keys that it holds: [`Keys`] are derived from the node's records when these change, with their key
//! schedules, and never for a PDU. Network PDUs are read under the credentials of friendships too, which no record says: they are given with
//! the octets.
//!
//! - `keys`: the keys that a node holds
//! - `reading`: what octets read as, under the network keys and behind them the credentials of friendships
//! - `opening`: what an upper transport access PDU opens to
//! - `heard`: how far octets heard as a network PDU were read
//! - `laws`: why a node's records have keys that may be held
#![tactic(auto)]

mod heard;
mod keys;
mod laws;
mod opening;
mod reading;

pub use heard::HeardPdu;
pub use keys::Keys;
pub use laws::held_keys_law;
pub use network_layer::NetReading;
pub use opening::{Opened, SealedBy};
pub use reading::read_under;
