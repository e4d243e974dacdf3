//! When something is due of a node: in how many ticks of 10 ms the first timer ends of what it keeps in memory, an hour of its life, or the
//! time between two beacons. A host that has nothing else to do can sleep until then: a tick event that comes earlier stores nothing, sends
//! nothing, and ends nothing.
//!
//! - `ends`: when the first of all these ends
//! - `ticks`: in how many ticks that is
//! - `waiting`: time in which nothing is due
#![tactic(auto)]

mod ends;
mod ticks;
mod waiting;

pub use ticks::due;
pub use waiting::wait;
