//! Secure Network beacons (Mesh Profile 1.0.1, section 3.9.3): [`BeaconKeys::read`] and [`BeaconKey::write`] by what is kept of network
//! keys, [`read`] and [`write`] where nothing is.
//!
//! - `kept`: network keys with their Network IDs and the schedules of their BeaconKeys
//! - `writing`: the octets of a beacon
//! - `reading`: which key has a beacon with these octets, and what it says
//!
//! A caller to begin with: `beacon` and `read` in `crates/worked_vectors/src/keys.rt`.
#![tactic(auto)]

mod kept;
mod reading;
mod writing;

pub use kept::{BeaconKey, BeaconKeys};
pub use mesh_base::beacon::Beacon;
pub use reading::{Unread, beacon_law, read};
pub use writing::write;
