//! What the friendships of a node make of one event (Mesh Profile 1.0.1, section 3.6.6), as calls on the `NodeFriends` of `node_friends` in the
//! order in which the definitions of a life have them: a PDU heard is stored, then what a control message asks for is done, or the replies to
//! an access message are stored; so are messages that the node is asked to send, and its publications. What is stored is taken out of what is
//! sent. There is no flash here, and nothing wants memory.
//!
//! - `hearing`: a network PDU heard
//! - `replying`: the replies to a message
//! - `sending`: messages that the node is asked to send, and octets that answered a Poll
//! - `publishing`: time that passed, and what is published then
//! - `short`: payloads that go unsegmented
//! - `laws`: entries in which friendships have no part
#![tactic(auto)]

mod hearing;
mod laws;
mod publishing;
mod replying;
mod sending;
mod short;

pub use hearing::{FriendsHeard, hear_friends};
pub use laws::friend_steps_law;
pub use publishing::store_publications;
pub use sending::{keep_octets, store_send};
