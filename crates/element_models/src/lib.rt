//! The Generic OnOff Servers and the Generic Level Servers of all elements of a node in a life (Mesh Model 1.0.1, section 3.3; Mesh Profile 1.0.1,
//! section 3.7): which of them take an access message, what that stores and replies, and the Status that a publication shows.
//!
//! - `message`: an access message
//! - `taking`: which models take it
//! - `taken`: what a message stores and what is replied
//! - `servers`: the two servers of an element
//! - `models`: the servers of all elements
//! - `ends`: when the first change of a state ends
//! - `laws`: what leaves them as they are
#![tactic(auto)]

mod ends;
mod laws;
mod message;
mod models;
mod servers;
mod taken;
mod taking;

pub use laws::models_law;
pub use message::Message;
pub use models::ElementModels;
pub use servers::{LEVEL_SERVER, ONOFF_SERVER, Servers};
pub use taken::{ModelsTaken, Replies, Reply};
