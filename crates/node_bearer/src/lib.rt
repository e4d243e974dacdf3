//! One bearer of a node, which takes its events to the machine behind the lock and does the jobs that they give it.
//!
//! - `bearer`: what a bearer has; `workplace`: where it works; `gate`: who is told of its steps
//! - `sharing`: how it comes to its turn at the lock, beside others or alone
//! - `acting`: events are handled in a turn at the lock, and a refill is stored
//! - `drawing`: a sequence number is drawn, without the lock
//! - `jobs`: jobs are sealed and noted
//! - `working`: all events of a bearer
#![tactic(auto)]

mod acting;
mod bearer;
mod drawing;
mod gate;
mod jobs;
mod sharing;
mod working;
mod workplace;

pub use bearer::{Bearer, Drawn};
pub use gate::{FreeGate, Gate};
pub use sharing::{Alone, Sharing};
pub use working::work;
pub use workplace::Workplace;
