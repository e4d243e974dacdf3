//! The states of the layers that remember: messages in reassembly, own segmented messages, friendships and the message
//! cache. `src/` has the plain types that these states are made of. `specs/` says of each layer what a state is, what
//! each call leaves of it, and what a call answers; the tables of the layers show exactly these states.
//!
//! - `reassembly`: messages of which segments were heard (Mesh Profile 1.0.1, section 3.5.3.3)
//! - `sending`: own messages of which segments are sent (section 3.5.3.2)
//! - `friends`: what a Friend node keeps for Low Power nodes (section 3.6.6)
//! - `laws`: what follows from the definitions alone
#![tactic(auto)]

pub mod friends;
pub mod laws;
pub mod reassembly;
pub mod sending;
