//! What a control message leads to.
#![tactic(auto)]

use layer_states::friends::Polled;
use mesh_base::control::{Clear, Offer};

/// What a control message of a Low Power node leads to (Mesh Profile 1.0.1, sections 3.6.6.3 and 3.6.6.4). The answer to a Poll may hold a key,
/// so it can't be printed.
#[derive(Drop)]
pub enum FriendAct {
    /// Nothing is sent.
    Nothing,
    /// A Friend Request is answered by an offer.
    Offered(Offer),
    /// A Friend Poll is answered. If it is the first of a friendship, the Friend node before this one may be told, too.
    Answered {
        /// FSN of the Poll.
        fsn: bool,
        /// What answers it, and the Friend Clear to the Friend node before.
        polled: Polled,
    },
    /// A list message of a friendship is confirmed.
    Confirmed {
        /// TransactionNumber of the list message, 8 bits.
        transaction: u8,
    },
    /// A Friend Clear ended a friendship, which is confirmed.
    Cleared(Clear),
}
