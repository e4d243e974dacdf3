//! The law of an audit: it tells of no report of a run that a nonce was used twice, or that a message was accepted twice; and under the keys
//! that sealed the report it finds nothing wrong. There is no code here: each law is the contract of a function that does nothing.
//!
//! - `Laws` (in `specs/`): the law, of all layers whose jobs come from an element of the node, and what it asks of a script
//! - `Reading`: what a report is read as, and that the grammar of scripts has what the law asks
//! - `Covered`: that nothing is wrong with a report under the keys that sealed it
//! - `laws`: the laws, as contracts of functions that do nothing
#![tactic(auto)]

pub mod laws;
