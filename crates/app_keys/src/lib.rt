//! The application keys of a node (Mesh Profile 1.0.1, sections 3.8.6.2 and 3.10.4): which keys may open an access message, and
//! under which one a message is sent. The AIDs and the key schedules are made once, when the keys are given, and not for each PDU.
//!
//! - `keys`: the keys by index, and what is opened and sent under them
//! - `held`: the values with their AIDs and schedules, in the order in which they are tried
//!
//! A caller to begin with: `derive` in `crates/mesh_reading/src/keys.rt`.
#![tactic(auto)]

mod held;
mod keys;

pub use keys::AppKeys;
