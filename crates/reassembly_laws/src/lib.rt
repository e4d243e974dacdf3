//! Reassembly in the words of the standard (Mesh Profile 1.0.1, sections 3.5.3.3 and 3.5.3.4), one message at a time, tied by a law to the
//! state of all messages that the answers of a node are defined by. There is no code here: the law is the contract of a function that does
//! nothing.
//!
//! - `Progress` (in `specs/`): what was heard of a message since it began, and what is answered to a segment of it
//! - `laws`: the law
#![tactic(auto)]

pub mod laws;
