//! The Configuration Server of a node (Mesh Profile 1.0.1, section 4.4.1): what a configuration message is answered by, and which record is
//! stored for it. Nothing is stored or sent here.
//!
//! - `fields`: the fields of messages, out of their parameters
//! - `reading`: from a payload to its message, a row for each opcode
//! - `params`: numbers, keys and statuses in replies
//! - `keys`: messages about network keys and application keys
//! - `models`: the models that messages are about
//! - `groups`: messages about subscriptions to groups
//! - `labels`: messages about subscriptions to labels
//! - `bindings`: messages about the application keys of models
//! - `features`: messages about the features of the node
//! - `publishing`: messages about publications
//! - `heartbeats`: messages about the heartbeat
//! - `server`: what each message does
#![tactic(auto)]

mod bindings;
mod features;
mod fields;
mod groups;
mod heartbeats;
mod keys;
mod labels;
mod models;
mod params;
mod publishing;
mod reading;
mod server;

pub use config_definitions::acts::ConfigAct;
pub use server::{Ignored, take};
