//! The network layer's plain types (Mesh Profile 1.0.1, sections 3.4.4 and 3.8.6.3).
#![tactic(auto)]

use crate::address::Address;
use crate::octets::Octets;

/// What seals and opens network PDUs: derived from a network key by k2 (section 3.8.6.3.1). It holds keys, so it can't be printed.
#[derive(Clone, Copy, Default, PartialEq, Eq)]
pub struct NetMaterial {
    /// NID, below 128.
    pub nid: u8,
    /// The EncryptionKey.
    pub encryption: [u8; 16],
    /// The PrivacyKey.
    pub privacy: [u8; 16],
}

/// Network material under which a PDU may be heard, and whose it is.
#[derive(Clone, Copy, Default, PartialEq, Eq)]
pub struct Heard {
    /// The index of the network key, 12 bits.
    pub index: u16,
    /// The address of the Low Power node where the material is of friendship credentials; None for master credentials.
    pub lpn: Option<Address>,
    /// Whether it is of the new key of a Key Refresh.
    pub fresh: bool,
    /// The material.
    pub material: NetMaterial,
}

/// The fields of a network PDU (section 3.4.4), with the whole IV Index of which the PDU carries the lowest bit.
#[derive(Debug, Drop, PartialEq, Eq)]
pub struct NetFields {
    /// The IV Index.
    pub iv: u32,
    /// CTL: whether the transport PDU is a control message.
    pub ctl: bool,
    /// TTL, below 128.
    pub ttl: u8,
    /// SEQ, below 2^24.
    pub seq: u32,
    /// SRC.
    pub src: Address,
    /// DST.
    pub dst: Address,
    /// The transport PDU: 1 to 16 octets, or 1 to 12 with CTL.
    pub tpdu: Octets<16>,
}

impl NetFields {
    ghost use Rattle.std.specs.Prelude.{◌≡◌};

    /// The same fields once more. It takes no memory.
    pub fn copied(&self) -> NetFields
        ensures value { result ≡ self.now }
    {
        NetFields {
            iv: self.iv,
            ctl: self.ctl,
            ttl: self.ttl,
            seq: self.seq,
            src: self.src,
            dst: self.dst,
            tpdu: self.tpdu.copied(),
        }
    }
}
