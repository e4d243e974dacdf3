//! What a node answers to an event.
#![tactic(auto)]

use crate::low_power::LowPowerAnswer;
use mesh_base::address::Address;
use mesh_base::iv_state::IvStep;
use mesh_base::keys::UpperKey;
use mesh_base::octets::Octets;
use mesh_base::pair::{Name, Pair};
use node_limits::MESSAGES_IN_PROGRESS;

/// A key of the upper transport layer, as the report names it.
#[derive(Clone, Copy, Debug, PartialEq, Eq)]
pub enum KeyName {
    /// A device key.
    Dev,
    /// The application key of this index, 12 bits.
    App(u16),
}

impl KeyName {
    ghost use Rattle.std.specs.Prelude.{◌≡◌};
    ghost use Rattle.mesh_types.specs.KeyName.{key_name_of};

    /// How the report names this key.
    pub fn of(key: &UpperKey) -> KeyName
        ensures value { result ≡ key_name_of key.now }
    {
        match key {
            UpperKey::Device(_) => KeyName::Dev,
            UpperKey::App { index, .. } => KeyName::App(*index),
        }
    }
}

/// What an authentic beacon does to the Key Refresh phase of its network key (Mesh Profile 1.0.1, section 3.10.4).
#[derive(Clone, Copy, Debug, PartialEq, Eq)]
pub enum KeyStep {
    /// The phase stays.
    Same,
    /// Phase 2 begins.
    Phase2,
    /// The Key Refresh ends: phase 0.
    Phase0,
}

/// The answer to an event, one variant for each answer of the report.
#[derive(Debug, Drop, PartialEq, Eq)]
pub enum Answer {
    /// No key held reads the octets.
    Unread,
    /// SRC isn't unicast, or DST is unassigned.
    BadAddress,
    /// SRC is one of the node's elements.
    Own,
    /// The message cache has it.
    Cached,
    /// DST isn't one of the node's addresses or groups.
    NotMine,
    /// No lower transport PDU has this text.
    Malformed,
    /// A segment of a message that was accepted in this life.
    Again,
    /// The name isn't newer than the replay entry of its source.
    Replay {
        /// That entry.
        kept: Pair,
    },
    /// A segment of a new message, while so many others as have a place are in progress.
    NoRoom {
        /// Their names, in the order in which they began.
        held: [Name; MESSAGES_IN_PROGRESS],
    },
    /// A segment at odds with the message in progress under its name.
    Conflict,
    /// A segment; pieces are missing.
    Waiting {
        /// How many are missing after it, 1 to 31.
        missing: u8,
    },
    /// An access message that no key opens.
    NoKey,
    /// The source has no unexpired replay entry, and the list is full of those of others.
    ListFull {
        /// How many entries the list holds.
        held: u32,
    },
    /// An access message was accepted.
    Delivered {
        /// Its name.
        name: Name,
        /// DST.
        dst: Address,
        /// The key that opened it.
        key: KeyName,
        /// The access payload, 1 to 380 octets.
        payload: Octets<380>,
    },
    /// A control message was accepted.
    Control {
        /// Its name.
        name: Name,
        /// DST.
        dst: Address,
        /// The opcode, 7 bits.
        opcode: u8,
        /// The parameters: 0 to 11 octets, or up to 32 segments of 8 octets.
        params: Octets<256>,
    },
    /// An authentic beacon.
    Beacon {
        /// The index of its network key, 12 bits.
        index: u16,
        /// What it did to the Key Refresh phase.
        key: KeyStep,
        /// What it did to the IV state.
        iv: IvStep,
    },
    /// A message is to be sent, or was stored for a Low Power node.
    Planned,
    /// No such application key is held.
    NoAppKey {
        /// The index asked for, 12 bits.
        index: u16,
    },
    /// Time passed.
    Ticked {
        /// The ticks of this life up to now.
        now: u64,
    },
    /// The segments of an own message are to be sent.
    Begun,
    /// The IV Index of SeqAuth isn't the transmit IV Index.
    Moved {
        /// The transmit IV Index.
        iv: u32,
    },
    /// The DST of an own segmented message belongs to a friendship.
    Befriended,
    /// Too many own segmented messages are unacknowledged.
    SendFull {
        /// How many.
        held: u32,
    },
    /// The octets were noted as the answer to their Poll.
    Kept,
    /// The octets weren't noted.
    Dropped,
    /// What a Low Power node alone answers; to an event that only such a node is told, another one has the answer `NoFriend` of these.
    LowPower(LowPowerAnswer),
    /// A Node Reset was delivered before in this life.
    Reset,
}
