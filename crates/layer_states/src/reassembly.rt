//! Messages of which segments were heard (Mesh Profile 1.0.1, section 3.5.3.3).
#![tactic(auto)]

use arrayvec::ArrayVec;
use mesh_base::address::Address;
use mesh_base::lower::Lower;
use mesh_base::octets::Octets;
use mesh_base::pair::Name;
use mesh_base::table::Table;
use node_limits::MESSAGES_IN_PROGRESS;
use std::marker::Model;

/// What all segments of a message have in common besides their name and SegN.
#[derive(Clone, Copy, Default)]
pub struct Form {
    /// Whether it is a control message; else an access message.
    pub ctl: bool,
    /// Whether an application key sealed an access message; false of a control message.
    pub akf: bool,
    /// AID of an access message, 6 bits; the opcode of a control message, 7 bits.
    pub code: u8,
    /// Whether the TransMIC has 8 octets; false of a control message.
    pub szmic: bool,
}

/// The pieces of a message: a place for each SegO from 0 to SegN, with the piece that was heard. A clause sees it as
/// the list of the places.
#[derive(Drop)]
pub struct Pieces {
    /// The places.
    pub places: ArrayVec<Option<Octets<12>>, 32>,
}

impl Model for Pieces {
    ghost use Rattle.std.specs.Prelude.{ℕ, List, Option};

    ghost Value = { List (Option (List ℕ)) };

    ghost view = { λ p. p.places.items };

    ghost inverse = { λ xs. record { places = record { items = xs } } };
}

/// No places, which fills the unused places of a table of messages.
impl Default for Pieces {
    fn default() -> Pieces {
        Pieces {
            places: ArrayVec::new(),
        }
    }
}

/// An acknowledgment timer that runs (section 3.5.3.3).
#[derive(Clone, Copy, Default)]
pub struct Timer {
    /// When it ends, in ticks of 10 ms.
    pub due: u64,
    /// TTL of the acknowledgment that is then sent, below 128.
    pub ttl: u8,
}

/// A message of which segments were heard.
#[derive(Default, Drop)]
pub struct Assembly {
    /// Its name, with its SeqAuth.
    pub name: Name,
    /// DST.
    pub dst: Address,
    /// The index of the network key that it was heard with, 12 bits.
    pub net: u16,
    /// What its segments have in common.
    pub form: Form,
    /// Its pieces.
    pub pieces: Pieces,
    /// When the last new piece was heard, in ticks of 10 ms.
    pub renewed: u64,
    /// Its acknowledgment timer, if that runs.
    pub timer: Option<Timer>,
}

/// A segment that was heard.
#[derive(Drop)]
pub struct PartHeard {
    /// The name of its message, with SeqAuth.
    pub name: Name,
    /// DST.
    pub dst: Address,
    /// The index of the network key that it was heard with, 12 bits.
    pub net: u16,
    /// TTL that it was heard with, below 128.
    pub ttl: u8,
    /// The segment: an `AccessPart` or a `ControlPart`.
    pub part: Lower,
    /// TTL of an acknowledgment of it, below 128.
    pub ack_ttl: u8,
}

/// What becomes of a segment.
#[derive(Drop, PartialEq, Eq)]
pub enum Taken {
    /// Pieces are missing.
    Waiting {
        /// How many are missing after it, 1 to 31.
        missing: u8,
    },
    /// No piece is missing: the octets of all pieces, in their order.
    Whole(Octets<384>),
    /// It is at odds with the message in progress under its name.
    Conflict,
    /// It belongs to no message in progress, and eight others are in progress.
    NoRoom {
        /// Their names, in the order in which they began.
        held: [Name; MESSAGES_IN_PROGRESS],
    },
}

/// An acknowledgment that is due.
#[derive(Clone, Copy, Default, PartialEq, Eq)]
pub struct DueAck {
    /// The message that it acknowledges.
    pub name: Name,
    /// DST of that message, from which the acknowledgment goes.
    pub dst: Address,
    /// The index of the network key, 12 bits.
    pub net: u16,
    /// TTL of the acknowledgment, below 128.
    pub ack_ttl: u8,
    /// BlockAck: bit i stands for the piece with SegO i.
    pub block: u32,
}

/// Acknowledgments that are due, in the order in which their messages began.
pub type AckList = Table<DueAck, MESSAGES_IN_PROGRESS>;
