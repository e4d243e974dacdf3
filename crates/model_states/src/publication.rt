//! What a node publishes on its own: the Statuses of its models and its heartbeat (Mesh Profile 1.0.1, sections 4.2.2 and 4.2.17).
//! Time is in ticks of 10 ms.
#![tactic(auto)]

use mesh_base::address::Address;
use record_types::records::PublishRow;

/// The Heartbeat Publication state (section 4.2.17).
#[derive(Clone, Copy, Default, PartialEq, Eq)]
pub struct HeartbeatRow {
    /// Heartbeat Publication Destination; 0000 where none are sent.
    pub dst: Address,
    /// Heartbeat Publication Count Log: 00 none, 01 to 10 a power of two, 11 65,534, ff without an end. Others are prohibited.
    pub count: u8,
    /// Heartbeat Publication Period Log: 00 none, 01 to 11 a power of two of seconds. Others are prohibited.
    pub period: u8,
    /// Heartbeat Publication TTL, at most 7f.
    pub ttl: u8,
    /// Heartbeat Publication Features, 16 bits.
    pub features: u16,
    /// The index of the network key, 12 bits.
    pub net: u16,
}

/// What a model publishes, and since when.
#[derive(Clone, Copy, Default)]
pub struct Publication {
    /// Its Model Publication state.
    pub row: PublishRow,
    /// The moment at which it was accepted.
    pub accepted: u64,
}

/// A heartbeat, since when it is sent, and how often it still is.
#[derive(Clone, Copy)]
pub struct Heartbeat {
    /// Its Heartbeat Publication state, as it was set.
    pub row: HeartbeatRow,
    /// The moment at which it was accepted.
    pub accepted: u64,
    /// The moment at which it was last asked whether one is due, if that was asked since then.
    pub asked: Option<u64>,
    /// How many more are sent; None without an end.
    pub left: Option<u16>,
}
