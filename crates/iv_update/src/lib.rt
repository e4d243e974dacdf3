//! The IV Index procedures (Mesh Profile 1.0.1, sections 3.10.5 and 3.10.6): what a Secure Network beacon
//! ([`on_beacon`]) and the passing of hours ([`on_hours`]) do to the state of the IV Index. Nothing is stored or sent
//! here: each call answers the step, and the caller makes it.
//!
//! - `beacons`: the table of steps for a beacon
//! - `hours`: the rule for the end of an hour
//! - `laws`: the transmit IV Index never falls, and the IV Index moves up by at most 42
//!
//! A caller to begin with: `beacon_answer` in `crates/mesh_hearing/src/beacons.rt`, and `hour_records` in
//! `crates/event_records/src/ticks.rt`.
#![tactic(auto)]

mod beacons;
mod hours;
mod laws;

pub use beacons::on_beacon;
pub use hours::on_hours;
pub use laws::steps_law;
pub use mesh_base::iv_state::{IvState, IvStep};
