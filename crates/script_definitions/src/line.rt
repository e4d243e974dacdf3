//! A line of a script, and what some of its words stand for. There is no `Debug` of these types, since they hold keys.
#![tactic(auto)]

use crate::payload::Payload;
use crate::script::ProvisionLine;
use mesh_base::address::Address;
use mesh_base::fields::NetFields;
use mesh_base::octets::Octets;
use mesh_types::events::SendKey;

/// The network credentials that an outside node seals with (Mesh Profile 1.0.1, section 3.8.6.3.1).
#[derive(Clone, Copy, PartialEq, Eq)]
pub enum ScriptNet {
    /// The master credentials of this network key.
    Master([u8; 16]),
    /// The credentials of a friendship.
    Friendship {
        /// The network key.
        key: [u8; 16],
        /// The address of the Low Power node.
        lpn: Address,
        /// The address of the Friend.
        friend: Address,
        /// LPNCounter.
        lpn_counter: u16,
        /// FriendCounter.
        friend_counter: u16,
    },
}

/// The key that an outside node seals an access message with.
#[derive(Clone, Copy, PartialEq, Eq)]
pub enum TalkKey {
    /// This device key.
    Device([u8; 16]),
    /// This application key.
    App([u8; 16]),
}

/// The destination of an outside node's access message.
#[derive(Clone, Copy, PartialEq, Eq)]
pub enum TalkDst {
    /// This address, of any kind.
    Address(Address),
    /// The virtual address of this label, which is the additional data of the seal too.
    Label([u8; 16]),
}

/// Which PDU of an outside node's access message is heard.
#[derive(Clone, Copy, PartialEq, Eq)]
pub enum TalkPiece {
    /// The unsegmented PDU.
    Whole,
    /// The segment with this SegO, 0 to 31.
    Segment(u8),
}

/// A line `peer`: a network PDU is heard that an outside node seals.
#[derive(Drop)]
pub struct PeerLine {
    /// What seals it.
    pub net: ScriptNet,
    /// Its fields. SRC and DST may be any addresses.
    pub fields: NetFields,
}

/// The PDU of an outside node's access message that is heard.
#[derive(Clone, Copy, PartialEq, Eq)]
pub struct TalkPdu {
    /// The IV Index of the message and of the PDU.
    pub iv: u32,
    /// TTL, below 128.
    pub ttl: u8,
    /// The SEQ of the message's seal, below 2^24.
    pub auth: u32,
    /// The SEQ of the PDU, below 2^24.
    pub seq: u32,
    /// SRC, any address.
    pub src: Address,
    /// The destination.
    pub dst: TalkDst,
    /// Which PDU of the message it is.
    pub piece: TalkPiece,
}

/// A line `talk`: one PDU of an outside node's access message is heard. The message has a TransMIC of 4 octets.
#[derive(Drop)]
pub struct TalkLine {
    /// What seals the PDU.
    pub net: ScriptNet,
    /// What seals the message.
    pub key: TalkKey,
    /// The PDU.
    pub pdu: TalkPdu,
    /// The access payload, 1 to 380 octets.
    pub payload: Payload,
}

/// A line `beacon`: a Secure Network beacon is heard (section 3.9.3).
#[derive(Clone, Copy)]
pub struct BeaconLine {
    /// The network key.
    pub net_key: [u8; 16],
    /// Bit 0 is the Key Refresh flag, bit 1 the IV Update flag; 0 to 3.
    pub flags: u8,
    /// The IV Index, at least 1 with bit 1.
    pub iv: u32,
}

/// A line `send`: the node sends an access message.
#[derive(Drop)]
pub struct SendLine {
    /// The place of the sending element, from 0 on.
    pub element: u8,
    /// DST, neither unassigned nor virtual.
    pub dst: Address,
    /// TTL, below 128.
    pub ttl: u8,
    /// The key that seals the message.
    pub key: SendKey,
    /// The access payload, 1 to 380 octets.
    pub payload: Payload,
}

/// A line `raw`: the node sends a control PDU from its first element.
#[derive(Drop)]
pub struct RawLine {
    /// DST, not unassigned.
    pub dst: Address,
    /// TTL, below 128.
    pub ttl: u8,
    /// The transport control PDU, 1 to 12 octets.
    pub tpdu: Octets<16>,
}

/// A line `arm`: a `sync`; then after so many program or erase calls the next one is torn. Directly behind `life` it is set before
/// the store is opened.
#[derive(Clone, Copy)]
pub struct ArmLine {
    /// How many calls go by, at most 100,000.
    pub calls: u32,
    /// The bits by which the next one is torn.
    pub mask: u8,
}

/// A line of a life.
#[derive(Drop)]
pub enum ScriptLine {
    /// `sync`: all bearers are joined, then go on.
    Sync,
    /// `arm`: a power cut is set.
    Arm(ArmLine),
    /// `net`: octets are heard as a network PDU.
    Net {
        /// The bearer.
        bearer: u8,
        /// 1 to 40 octets.
        octets: Octets<40>,
    },
    /// `bcn`: octets are heard as a beacon.
    Bcn {
        /// The bearer.
        bearer: u8,
        /// 1 to 40 octets.
        octets: Octets<40>,
    },
    /// `peer`: the network PDU is heard that an outside node seals from these fields.
    Peer {
        /// The bearer.
        bearer: u8,
        /// The PDU.
        peer: PeerLine,
    },
    /// `talk`: one PDU of an outside node's access message is heard.
    Talk {
        /// The bearer.
        bearer: u8,
        /// The message and the PDU.
        talk: TalkLine,
    },
    /// `beacon`: the Secure Network beacon of these fields is heard.
    Beacon {
        /// The bearer.
        bearer: u8,
        /// The beacon.
        beacon: BeaconLine,
    },
    /// `send`: the node sends an access message.
    Send {
        /// The bearer.
        bearer: u8,
        /// The message.
        send: SendLine,
    },
    /// `raw`: the node sends a control PDU from its first element.
    Raw {
        /// The bearer.
        bearer: u8,
        /// The PDU.
        raw: RawLine,
    },
    /// `tick`: time passes.
    Tick {
        /// The bearer.
        bearer: u8,
        /// So many ticks of 10 ms, 1 to 100,000,000.
        ticks: u32,
    },
    /// `seek`, of a Low Power node alone: it looks for a friend.
    Seek {
        /// The bearer.
        bearer: u8,
    },
    /// `poll`, of a Low Power node alone: it polls its friend.
    Poll {
        /// The bearer.
        bearer: u8,
    },
    /// `list`, of a Low Power node alone: it adds an address to its friend's list.
    List {
        /// The bearer.
        bearer: u8,
        /// A group address, c000 to feff.
        address: Address,
    },
}

/// A line that counts: neither empty nor a comment.
#[derive(Drop)]
pub enum CountedLine {
    /// The node's data.
    Provision(ProvisionLine),
    /// A life begins.
    Life,
    /// A line of a life.
    Line(ScriptLine),
}
