//! The network keys of a node (Mesh Profile 1.0.1, sections 3.8.6.3 and 3.10.4): under which material network PDUs may be heard
//! and are sent. The material and its key schedules are made once, when the keys are given, and not for each PDU.
//!
//! - `keys`: the keys by index, and what is heard and sent under them
//! - `held`: the keys that are heard, with their schedules, in the order in which they are tried
//! - `credentials`: the material of master and friendship credentials
//! - `laws`: why the keys that have a PDU's NID suffice to read it
//!
//! A caller to begin with: `candidates` and `transmit` in `crates/worked_vectors/src/keys.rt`.
#![tactic(auto)]

mod credentials;
mod held;
mod keys;
mod laws;

pub use credentials::{friendship, master};
pub use keys::NetKeys;
pub use laws::candidates_law;
