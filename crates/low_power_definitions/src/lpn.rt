//! What a Low Power node knows of its friend, and what it sends (Mesh Profile 1.0.1, section 3.6.6).
#![tactic(auto)]

use mesh_base::address::Address;
use mesh_base::octets::Octets;
use thiserror::Error;

/// What the friendship credentials are made of, besides the network key and the Low Power node's own address (section 3.8.6.3.1).
#[derive(Clone, Copy, Debug, PartialEq, Eq)]
pub struct Credentials {
    /// The address of the Friend node: the SRC of its Offer.
    pub friend: Address,
    /// LPNCounter of the Friend Request, 16 bits.
    pub lpn_counter: u16,
    /// FriendCounter of the Friend Offer, 16 bits.
    pub friend_counter: u16,
}

/// A friend, and the Polls that are sent to it.
#[derive(Clone, Copy, Debug, PartialEq, Eq)]
pub struct Friend {
    /// What the friendship credentials are made of.
    pub credentials: Credentials,
    /// FSN of the next Poll, 1 bit.
    pub fsn: bool,
    /// Whether a Poll is open: it was sent, and no PDU closed it yet.
    pub polling: bool,
}

/// Whether a Low Power node has a friend.
#[derive(Clone, Copy, Debug, PartialEq, Eq)]
pub enum Standing {
    /// It has none, and didn't look for one in this life.
    Alone,
    /// It looks for one, and waits for an Offer.
    Seeking {
        /// LPNCounter of its Friend Request, 16 bits.
        lpn_counter: u16,
    },
    /// It has one.
    Befriended(Friend),
}

/// A control message that a Low Power node sends: from its first element, with TTL 0.
#[derive(Debug, Drop, PartialEq, Eq)]
pub struct LpnJob {
    /// DST.
    pub dst: Address,
    /// The transport PDU of an unsegmented control message: its opcode and its parameters.
    pub tpdu: Octets<16>,
    /// The friendship credentials that it goes under, or None for the master credentials.
    pub under: Option<Credentials>,
}

/// What becomes of a PDU that was heard.
#[derive(Clone, Copy, Debug, PartialEq, Eq)]
pub enum LpnHeard {
    /// It came under friendship credentials while no Poll is open. It isn't taken.
    Unasked,
    /// It has the SRC, the IV Index and the SEQ of the PDU that closed the last Poll. It isn't taken.
    Repeat,
    /// It goes on to what is above. Under friendship credentials it closed the Poll.
    Pass,
}

/// The Low Power node has no friend.
#[derive(Clone, Copy, Debug, PartialEq, Eq, Error)]
#[error("the Low Power node has no friend")]
pub struct NoFriend;

/// Why an address isn't added to the friend's list.
#[derive(Clone, Copy, Debug, PartialEq, Eq, Error)]
pub enum ListFault {
    /// The Low Power node has no friend.
    #[error("the Low Power node has no friend")]
    NoFriend,
    /// Other addresses take all places of the list.
    #[error("{held} other addresses are in the list")]
    TooMany {
        /// How many.
        held: u32,
    },
}
