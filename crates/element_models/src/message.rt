//! An access message that was opened.
#![tactic(auto)]

use mesh_base::address::Address;
use mesh_base::keys::UpperKey;
use mesh_base::pair::Name;

/// An access message that was opened. It holds a key, so it isn't printed.
#[derive(Drop)]
pub struct Message<'a> {
    /// SRC, and the pair of the PDU; of a segmented message its SeqAuth.
    pub name: Name,
    /// DST.
    pub dst: Address,
    /// The index of the network key that it was heard under, 12 bits.
    pub net: u16,
    /// TTL, as it was heard, 7 bits.
    pub ttl: u8,
    /// The key that opened it.
    pub key: UpperKey,
    /// The label that opened it, where DST is virtual.
    pub label: Option<[u8; 16]>,
    /// The access payload.
    pub payload: &'a [u8],
}
