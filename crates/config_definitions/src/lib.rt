//! What a Configuration Server answers to each configuration message and which record it stores for it (Mesh Profile 1.0.1, section 4.3),
//! as a function of what the node's records say. There is no code here: `config_server` is proved to do what these definitions say.
//!
//! - `messages`: configuration messages with their fields
//! - `acts`: what a configuration message does
#![tactic(auto)]

pub mod acts;
pub mod messages;
