//! What a Low Power node is told to do for its friendship, and what it answers that no other node does (Mesh Profile 1.0.1, section 3.6.6).
#![tactic(auto)]

use mesh_base::address::Address;

/// What a Low Power node is told to do.
#[derive(Clone, Copy, Debug, PartialEq, Eq)]
pub enum LowPowerEvent {
    /// It is to look for a friend, by a Friend Request (section 3.6.5.3).
    Seek,
    /// It is to ask its friend for a stored message, by a Friend Poll (section 3.6.5.1).
    Poll,
    /// It is to ask its friend to store what goes to this address, c000 to feff, by a Friend Subscription List Add (section 3.6.5.7).
    List(Address),
}

/// An answer of a Low Power node, where a node that isn't one has another or none. To an event that only a Low Power node is told, another
/// node answers `NoFriend`.
#[derive(Clone, Copy, Debug, PartialEq, Eq)]
pub enum LowPowerAnswer {
    /// The transport PDU is a segment; none is taken.
    Segmented,
    /// The PDU came under friendship credentials while no Poll is open.
    Unasked,
    /// The PDU has the SRC, the IV Index and the SEQ of the one that closed the last Poll.
    Repeat,
    /// A Friend Request is to be sent.
    Sought,
    /// A Friend Poll is to be sent.
    Polled,
    /// There is no friend.
    NoFriend,
    /// A Friend Subscription List Add is to be sent.
    Listed,
    /// Other addresses take all places of the friend's list.
    TooMany {
        /// How many.
        held: u32,
    },
}
