//! Reassembly of segmented messages (Mesh Profile 1.0.1, sections 3.5.3.3 and 3.5.3.4): [`Parts`] holds at most 8
//! messages of which segments were heard. Its contracts see it as the list of these messages, in the order in which
//! they began; what each call answers and leaves is said in `layer_states`.
//!
//! - `parts`: the table and its calls
//! - `rows`: what a call does to the list of messages
//! - `message`: a segment and its message
//! - `pieces`: the pieces of a message
//! - `segment`: what a segment says
//! - `ends`: when the first timer of the messages ends
//!
//! A caller to begin with: `take_low` and `hear_named` in `crates/mesh_hearing/src/lower.rt`.
#![tactic(auto)]

mod ends;
mod message;
mod parts;
mod pieces;
mod rows;
mod segment;

pub use layer_states::reassembly::{AckList, DueAck, PartHeard, Taken};
pub use parts::Parts;
