//! What seals an access message besides its key (Mesh Profile 1.0.1, section 3.8.7.1).
#![tactic(auto)]

use crate::address::Address;
use crate::pair::Pair;

/// The fields of an upper transport access PDU that its nonce and its MIC are made of.
#[derive(Clone, Copy)]
pub struct UpperFields {
    /// SeqAuth: the IV Index and the SEQ of the message, or of its first segment.
    pub pair: Pair,
    /// SRC.
    pub src: Address,
    /// DST.
    pub dst: Address,
    /// Whether the TransMIC has 8 octets; else 4.
    pub long_mic: bool,
    /// The label of a virtual DST.
    pub label: Option<[u8; 16]>,
}
