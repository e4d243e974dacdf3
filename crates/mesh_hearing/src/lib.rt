//! What a node answers to octets heard and to time, and what its tables in memory become. It has no flash: what an answer stores and sends is
//! for the layers above. Nor has it friendships: the credentials of these, under which network PDUs are read behind the network keys, are given
//! to [`Tables::hear`] with the octets.
//!
//! - `tables`: the tables, and the keys derived from the store
//! - `hearing`: a network PDU heard, from its octets to the answer
//! - `network`: the answers of the network layer
//! - `lower`: the answers of the lower transport layer
//! - `whole`: the answers to a whole message
//! - `beacons`: a beacon heard
//! - `again`: the names of messages that were accepted from segments
//! - `own`: own segmented messages
//! - `ticks`: time that passed
//! - `ends`: when the first timer of the messages ends
//! - `laws`: what the tables stand for
#![tactic(auto)]

mod again;
mod beacons;
mod ends;
mod hearing;
mod laws;
mod lower;
mod network;
mod own;
mod tables;
mod ticks;
mod whole;

pub use beacons::BeaconHearing;
pub use hearing::{Delivered, Hearing};
pub use laws::tables_law;
pub use layer_states::reassembly::{AckList, DueAck};
pub use mesh_reading::{HeardPdu, Keys, NetReading, Opened};
pub use segment_sender::{Rounds, SendFull};
pub use tables::Tables;
pub use ticks::Passed;
