//! What a Friend node keeps for Low Power nodes (Mesh Profile 1.0.1, section 3.6.6): [`Friends`] holds at most 2
//! friendships and offers, each with its Friend Queue and its Friend Subscription List. Its contracts see it as the
//! list of them, in the order of the offers, with the number of offers; what each call answers and leaves is said in
//! `layer_states`.
//!
//! - `friends`: the table and its calls
//! - `slots`: what a call does to the list of friendships and offers
//! - `slot`: a friendship, its Polls and its list
//! - `queue`: the Friend Queue
//! - `request`: a Friend Request, and the offer that answers it
//! - `ends`: when the first of the friendships and offers goes
#![tactic(auto)]

mod ends;
mod friends;
mod queue;
mod request;
mod slot;
mod slots;

pub use friends::Friends;
pub use layer_states::friends::{FriendFault, OwnShort, PollAnswer, PollList, Polled};
pub use mesh_base::control::{Offer, Request};
