//! Keys kept with their key schedules, so that no schedule is made for each PDU. A clause sees each as the plain value that it is kept
//! for: network material, a key heard, a key of the upper transport layer.
//!
//! - `network`: network material, and material under which a PDU may be heard
//! - `upper`: application keys and the device key
//!
//! Nothing here is printed: the types have no `Debug`.
//!
//! A caller to begin with: `keep` in `crates/net_keys/src/held.rt`, and `keep` in `crates/app_keys/src/held.rt`.
#![tactic(auto)]

mod network;
mod upper;

pub use network::{HeardSchedules, NetSchedules, is_same_material};
pub use upper::{BoundSchedule, UpperSchedule};
