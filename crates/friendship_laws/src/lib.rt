//! What a Low Power node and its Friend node do together, as a law over the definitions of both. There is no code here: the law is the
//! contract of a function that does nothing.
//!
//! - `laws`: the law
#![tactic(auto)]

pub mod laws;
