//! What the flash of a node stores, told line by line without its keys.
//!
//! - `lines`: the lines, from what the records say and how the journal stands
//! - `showing`: the lines of a flash whose octets come from outside
#![tactic(auto)]

mod lines;
mod showing;

pub use lines::state_text;
pub use showing::{ShowFault, show};
