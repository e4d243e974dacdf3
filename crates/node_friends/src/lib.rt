//! The friendships of a node in a life, one event at a time (Mesh Profile 1.0.1, section 3.6.6): [`NodeFriends`] keeps the table of
//! `friend_queue` as what the definitions of a life say of it (`node_layers`, `specs/Friendship.antt`), and the jobs of a control message are
//! put behind those of its event. There is no flash here: what a call needs of the records comes as the value that they stand for.
//!
//! - `friends`: the friendships, what is stored in them, and what answers ask of them
//! - `acts`: what a control message leads to
//! - `control`: a control message of a Low Power node
//! - `jobs`: what such a message asks to be sent
//! - `heard`: under which credentials a PDU was heard
//! - `laws`: which calls are the step of which entry of a life
#![tactic(auto)]

mod acts;
mod control;
mod ends;
mod friends;
mod heard;
mod jobs;
mod laws;

pub use acts::FriendAct;
pub use friend_queue::{OwnShort, PollAnswer, PollList, Polled};
pub use friends::NodeFriends;
pub use jobs::push_friend_jobs;
pub use laws::friends_law;
