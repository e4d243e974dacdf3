//! What happens to a node.
#![tactic(auto)]

use crate::low_power::LowPowerEvent;
use mesh_base::address::Address;
use mesh_base::octets::Octets;
use mesh_base::pair::Name;
use std::fmt;
use std::fmt::{Debug, Formatter};

/// The key that an own access message is sealed under.
#[derive(Clone, Copy, PartialEq, Eq)]
pub enum SendKey {
    /// The node's own device key.
    Own,
    /// This device key, of another node.
    Other([u8; 16]),
    /// The application key of this index, 12 bits.
    App(u16),
}

/// Without the device key of another node, which is secret.
impl Debug for SendKey {
    ghost use Rattle.mesh_types.specs.Printed.{key_printed};

    ghost debug_output = { λ key. key_printed key };

    fn fmt<W: fmt::Write>(&self, f: &mut Formatter<W>) -> fmt::Result {
        match self {
            SendKey::Own => f.write_str("Own"),
            SendKey::Other(_) => f.write_str("Other(..)"),
            SendKey::App(index) => write!(f, "App({index})"),
        }
    }
}

/// An own access message that is sent in segments.
#[derive(Debug, Default, Drop, PartialEq, Eq)]
pub struct Outgoing {
    /// Its name: SRC, one of the node's elements, with its SeqAuth, the pair of the seal.
    pub name: Name,
    /// DST.
    pub dst: Address,
    /// TTL, below 128.
    pub ttl: u8,
    /// The index of the network key, 12 bits.
    pub net: u16,
    /// Whether an application key sealed it; else a device key.
    pub akf: bool,
    /// AID, 6 bits; 0 with a device key.
    pub aid: u8,
    /// The upper transport PDU, 5 to 384 octets.
    pub upper: Octets<384>,
}

impl Outgoing {
    ghost use Rattle.std.specs.Prelude.{◌≡◌};

    /// The same message once more. It takes no memory.
    pub fn copied(&self) -> Outgoing
        ensures value { result ≡ self.now }
    {
        Outgoing {
            name: self.name,
            dst: self.dst,
            ttl: self.ttl,
            net: self.net,
            akf: self.akf,
            aid: self.aid,
            upper: self.upper.copied(),
        }
    }
}

/// One event. A `Begin` or `Kept` follows a line of one of the node's own jobs; the others come from outside.
#[derive(Debug, Drop, PartialEq, Eq)]
pub enum Event {
    /// These octets were heard as a network PDU.
    Net(Octets<40>),
    /// These octets were heard as a beacon.
    Bcn(Octets<40>),
    /// The node is to send an access message.
    Send {
        /// The place of the sending element, from 0 on.
        element: u8,
        /// DST, neither unassigned nor virtual.
        dst: Address,
        /// TTL, below 128.
        ttl: u8,
        /// The key of the upper transport layer.
        key: SendKey,
        /// The access payload, 1 to 380 octets.
        payload: Octets<380>,
    },
    /// The node is to send a control PDU from its first element.
    Raw {
        /// DST, not unassigned.
        dst: Address,
        /// TTL, below 128.
        ttl: u8,
        /// The transport PDU, 1 to 12 octets.
        tpdu: Octets<16>,
    },
    /// So many ticks of 10 ms passed.
    Tick(u32),
    /// The upper transport PDU of an own segmented message was sealed, and its segments are to be sent.
    Begin(Outgoing),
    /// A Poll was answered by these octets.
    Kept {
        /// The Low Power node.
        lpn: Address,
        /// The FSN of its Poll.
        fsn: bool,
        /// SRC, IV Index and SEQ of the octets.
        name: Name,
        /// The octets of the network PDU.
        pdu: Octets<29>,
    },
    /// A Low Power node is to do this for its friendship.
    LowPower(LowPowerEvent),
}

/// The kind of an event.
#[derive(Clone, Copy)]
pub enum Kind {
    /// A network PDU heard.
    Net,
    /// A beacon heard.
    Bcn,
    /// An access message to be sent.
    Send,
    /// A control PDU to be sent.
    Raw,
    /// Time that passed.
    Tick,
    /// An own segmented message begins.
    Begin,
    /// The answer to a Poll.
    Kept,
    /// A Low Power node looks for a friend.
    Seek,
    /// A Low Power node asks its friend for a stored message.
    Poll,
    /// A Low Power node asks its friend to store what goes to an address.
    List,
}

impl Event {
    ghost use Rattle.std.specs.Prelude.{◌≡◌};
    ghost use Rattle.mesh_types.specs.Kind.{kind_of};

    /// The kind of this event.
    pub fn kind(&self) -> Kind
        ensures value { result ≡ kind_of self.now }
    {
        match self {
            Event::Net(_) => Kind::Net,
            Event::Bcn(_) => Kind::Bcn,
            Event::Send { .. } => Kind::Send,
            Event::Raw { .. } => Kind::Raw,
            Event::Tick(_) => Kind::Tick,
            Event::Begin(_) => Kind::Begin,
            Event::Kept { .. } => Kind::Kept,
            Event::LowPower(LowPowerEvent::Seek) => Kind::Seek,
            Event::LowPower(LowPowerEvent::Poll) => Kind::Poll,
            Event::LowPower(LowPowerEvent::List(_)) => Kind::List,
        }
    }
}
