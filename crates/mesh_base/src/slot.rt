//! One record of the flash.
#![tactic(auto)]

/// A record as it lies in a slot: its kind, and 30 octets that the kind explains. In a record of a key the octets are the key,
/// so it can't be printed.
#[derive(Clone, Copy, Default, PartialEq, Eq)]
pub struct Slot {
    /// The kind of the record.
    pub kind: u8,
    /// The octets of the record.
    pub body: [u8; 30],
}
