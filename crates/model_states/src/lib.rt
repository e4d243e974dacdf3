//! What the models of a node hold and how a message changes it: definitions over plain types. There is no code here: the crates
//! of the access layer, the models and publication are proved to do what these definitions say.
//!
//! - `access`: the opcode of an access message
//! - `models`: the states of the Generic OnOff Server and the Generic Level Server
//! - `publication`: what a node publishes, and when
#![tactic(auto)]

pub mod access;
pub mod models;
pub mod publication;
