//! The models of a node in a life as one state: the Configuration Server, the Generic OnOff and Level Servers of all elements, and what they
//! publish (Mesh Profile 1.0.1, sections 3.7, 4.2.2, 4.2.17 and 4.4.1). A delivered message is taken, and what is due at a moment is asked
//! for; nothing is stored or sent here.
//!
//! - `models`: the state, and its calls
//! - `configuration`: what a message asks the Configuration Server for, and what is published by that
//! - `taken`: what a message stores, and what is replied to it
//! - `due`: what is published at a moment
//! - `ends`: when something of the models is due
//! - `laws`: what leaves the models as they are
#![tactic(auto)]

mod configuration;
mod due;
mod ends;
mod laws;
mod models;
mod taken;

pub use due::{Due, DueList, DueRow};
pub use element_models::{Message, Replies, Reply};
pub use laws::node_models_law;
pub use models::{NodeModels, is_own_row};
pub use taken::{MessageReplies, Taken};
