//! What became of a job.
#![tactic(auto)]

use crate::answers::KeyName;
use mesh_base::address::Address;
use mesh_base::octets::Octets;
use mesh_base::pair::{Name, Pair};

/// What became of a job, one variant for each result of the report.
#[derive(Drop)]
pub enum Outcome {
    /// A control PDU of this node went out.
    Ctl {
        /// Its IV Index and SEQ.
        pair: Pair,
        /// TTL, below 128.
        ttl: u8,
        /// SRC.
        src: Address,
        /// DST.
        dst: Address,
        /// The transport PDU, 1 to 12 octets.
        tpdu: Octets<16>,
        /// The octets of the network PDU.
        pdu: Octets<29>,
    },
    /// An unsegmented access message of this node went out.
    Msg {
        /// Its IV Index and SEQ.
        pair: Pair,
        /// TTL, below 128.
        ttl: u8,
        /// SRC.
        src: Address,
        /// DST.
        dst: Address,
        /// The key that sealed the payload.
        key: KeyName,
        /// The access payload, 1 to 11 octets.
        payload: Octets<11>,
        /// The octets of the network PDU.
        pdu: Octets<29>,
    },
    /// The upper transport PDU of a segmented message was sealed.
    Long {
        /// The pair of the seal, which is the message's SeqAuth.
        pair: Pair,
        /// TTL, below 128.
        ttl: u8,
        /// SRC.
        src: Address,
        /// DST.
        dst: Address,
        /// The key that sealed the payload.
        key: KeyName,
        /// The access payload, 12 to 380 octets.
        payload: Octets<380>,
    },
    /// A segment of an own message went out.
    Seg {
        /// Its IV Index and SEQ.
        pair: Pair,
        /// TTL, below 128.
        ttl: u8,
        /// SRC.
        src: Address,
        /// DST.
        dst: Address,
        /// SegO, 5 bits.
        seg_o: u8,
        /// SegN, 5 bits.
        seg_n: u8,
        /// The SEQ of the message's SeqAuth.
        auth: u32,
        /// The octets of the network PDU.
        pdu: Octets<29>,
    },
    /// The network PDU of another node went out.
    Relay {
        /// Its IV Index and SEQ.
        pair: Pair,
        /// CTL.
        ctl: bool,
        /// TTL, below 128.
        ttl: u8,
        /// SRC.
        src: Address,
        /// DST.
        dst: Address,
        /// The transport PDU, 1 to 16 octets, or 1 to 12 with CTL.
        tpdu: Octets<16>,
        /// The octets of the network PDU.
        pdu: Octets<29>,
    },
    /// Octets that were kept for a Poll went out once more.
    Rep {
        /// Their SRC, IV Index and SEQ.
        name: Name,
        /// The octets of the network PDU.
        pdu: Octets<29>,
    },
    /// A Secure Network beacon went out.
    Bcn([u8; 22]),
    /// No SEQ is left under this transmit IV Index; nothing went out.
    Spent {
        /// That IV Index.
        iv: u32,
    },
    /// The pair of a segment is under another IV Index than SeqAuth, or too far above it; nothing went out.
    Late {
        /// The pair.
        pair: Pair,
    },
}
