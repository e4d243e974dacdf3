//! The safety law: every run of a node seals no two plaintexts under one key and nonce of its own addresses, and
//! delivers no message twice. It follows from the relation between a script and the record of a run alone, which
//! `run_definitions` states. What it asks of the layers above the lower transport layer is `AreSafe` of `event_definitions`.
//!
//! - `Safety` (in `specs/`): the laws
//! - `Rules`: the rules of a run as fields, so that one of them can be changed, and those that are enough
//! - `laws`: the laws, as contracts of functions that do nothing
//!
//! That each rule is needed is proved in `needed_rules`.
#![tactic(auto)]

pub mod laws;
