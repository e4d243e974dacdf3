//! That the rules of a run are needed: without any one of them some record that keeps all others seals two plaintexts under one key and
//! nonce, or delivers a message twice. Nothing stands on this crate. That the rules are enough is the safety law of `run_safety`.
//!
//! - `WrittenRun` (in `specs/`): a run of two lives, written out, that keeps all rules
//! - `Needed`: what each of the rules is needed for
//! - `laws`: the laws, as contracts of functions that do nothing
#![tactic(auto)]

pub mod laws;
