//! One phase of a life: bearers that run beside one another over one node, and stop together.
//!
//! - `bearers`: a bearer for each list of events, its work, and what is left of bearers that are through
//! - `threads`: all bearers at once, each on a thread
//! - `phase`: the whole, from a node to the node
//! - `host`: what a phase is run with
//! - `kept`: what bearers keep from phase to phase
//! - `alone`: the same for one bearer, without threads
//! - `laws`: what a phase is in the terms of a run
#![tactic(auto)]

mod alone;
mod bearers;
mod host;
mod kept;
pub mod laws;
mod phase;
mod threads;

pub use alone::run_alone;
pub use bearers::Done;
pub use host::PhaseHost;
pub use kept::KeptByBearers;
pub use node_bearer::{Alone, FreeGate, Gate};
pub use phase::run_phase;
