//! What a Friend node keeps for Low Power nodes (Mesh Profile 1.0.1, section 3.6.6).
#![tactic(auto)]

use arrayvec::ArrayVec;
use mesh_base::address::Address;
use mesh_base::control::Request;
use mesh_base::fields::{NetFields, NetMaterial};
use mesh_base::keys::UpperKey;
use mesh_base::octets::Octets;
use mesh_base::pair::Name;
use mesh_base::table::Table;
use node_limits::{FRIEND_ADDRESSES, FRIEND_QUEUE, FRIENDSHIPS};
use std::marker::Model;
use thiserror::Error;

/// An own access message of one segment, which is sealed when it is sent. It holds a key, so it can't be printed.
#[derive(Default, Drop, PartialEq, Eq)]
pub struct OwnShort {
    /// The index of the network key, 12 bits.
    pub net: u16,
    /// The key that seals the payload.
    pub key: UpperKey,
    /// TTL, below 128.
    pub ttl: u8,
    /// SRC, one of the node's elements.
    pub src: Address,
    /// DST.
    pub dst: Address,
    /// The access payload, 1 to 11 octets.
    pub payload: Octets<11>,
}

/// A message that waits for the Poll of a Low Power node.
#[derive(Drop)]
pub enum QueueEntry {
    /// A network PDU of another node, with the TTL that it is sent with.
    Heard(NetFields),
    /// A message of this node.
    Own(OwnShort),
}

/// An empty message, which fills the unused places of a queue.
impl Default for QueueEntry {
    fn default() -> QueueEntry {
        QueueEntry::Own(OwnShort::default())
    }
}

/// A Friend Queue: at most `FRIEND_QUEUE` messages, the oldest first. A clause sees it as the list of them.
#[derive(Drop)]
pub struct Queue {
    /// The messages.
    pub entries: ArrayVec<QueueEntry, FRIEND_QUEUE>,
}

impl Model for Queue {
    ghost use Rattle.std.specs.Prelude.{List};
    ghost use Rattle.layer_states.specs.declared.friends.QueueEntry.{QueueEntry};

    ghost Value = { List QueueEntry };

    ghost view = { λ q. q.entries.items };

    ghost inverse = { λ xs. record { entries = record { items = xs } } };
}

/// No messages.
impl Default for Queue {
    ghost use Rattle.std.specs.Prelude.{◌≡◌, []};

    ghost is_default = { λ q. q ≡ [] };

    fn default() -> Queue {
        Queue {
            entries: ArrayVec::new(),
        }
    }
}

/// The octets that answered a Poll.
#[derive(Drop, PartialEq, Eq)]
pub struct KeptPdu {
    /// SRC, IV Index and SEQ of the octets.
    pub name: Name,
    /// The octets of the network PDU.
    pub pdu: Octets<29>,
}

/// A Friend Subscription List.
pub type AddressTable = Table<Address, FRIEND_ADDRESSES>;

/// An offer to a Low Power node, and from its first Poll on the friendship with it. It holds a key, so it can't be
/// printed.
#[derive(Default, Drop)]
pub struct Friendship {
    /// The unicast address of the Low Power node's first element.
    pub lpn: Address,
    /// The unicast address of this node's first element.
    pub own: Address,
    /// The index of the network key, 12 bits.
    pub net: u16,
    /// The friendship credentials, which are derived at the Request.
    pub material: NetMaterial,
    /// The Request that was answered by the offer.
    pub request: Request,
    /// When it goes, in ticks of 10 ms.
    pub until: u64,
    /// FSN of the last Poll. It is a friendship from the first one on.
    pub fsn: Option<bool>,
    /// Whether the last Poll was answered by the oldest message of the queue.
    pub answered: bool,
    /// The octets that answered the last Poll, once they are known.
    pub kept: Option<KeptPdu>,
    /// The Friend Subscription List.
    pub list: AddressTable,
    /// The Friend Queue.
    pub queue: Queue,
}

/// What answers a Poll. It may hold a key, so it can't be printed.
#[derive(Drop, PartialEq, Eq)]
pub enum PollAnswer {
    /// A Friend Update: the queue is empty.
    Update,
    /// A network PDU of another node, sealed under the friendship credentials with its own SRC, SEQ and IV Index.
    Stored(NetFields),
    /// A message of this node, sealed now.
    Own(OwnShort),
    /// The octets that answered the Poll before, which had the same FSN.
    Repeat {
        /// SRC, IV Index and SEQ of the octets.
        name: Name,
        /// The octets of the network PDU.
        pdu: Octets<29>,
    },
    /// Nothing: the FSN is that of the Poll before, whose octets aren't known.
    Silent,
}

/// What a Poll leads to.
#[derive(Drop, PartialEq, Eq)]
pub struct Polled {
    /// What answers it.
    pub answer: PollAnswer,
    /// The DST and the LPNCounter of the Friend Clear that a first Poll asks for, to the Friend node before this one.
    pub clear: Option<(Address, u16)>,
}

/// Why a Friend node doesn't do what is asked.
#[derive(Clone, Copy, Debug, PartialEq, Eq, Error)]
pub enum FriendFault {
    /// Two other friendships or offers stand.
    #[error("{held} other friendships or offers stand")]
    NoSlot {
        /// How many.
        held: u32,
    },
    /// A field of the Request is outside its range.
    #[error("field {field} of the Request is outside its range")]
    BadRequest {
        /// The first such field, counted from 1.
        field: u8,
    },
    /// There is no such friendship.
    #[error("there is no such friendship")]
    Stranger,
}

/// The Low Power nodes of the friendships that stand, with their PollTimeout in units of 100 ms.
pub type PollList = Table<(Address, u32), FRIENDSHIPS>;
