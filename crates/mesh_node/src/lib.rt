//! One life of a node: from power on to its end, by bearers that run beside one another.
//!
//! - `told`: where the phases of a life come from, and who is told of each
//! - `phases`: what stands around a phase
//! - `edges`: what the loop of a life begins with, and what is left behind it
//! - `going`: a life phase by phase, as they come, of which nothing is kept
//! - `alone`: the same of one bearer, without threads
//! - `held`: the same, held by its owner between its phases
//! - `host`: what lives are run with
//! - `log`: the lines of the bearers
//! - `steps`: the steps of a plan, one after another
//! - `living`: a life of a plan, from a flash to the flash, which leaves a whole log
//!
//! A caller to begin with: `live` in `crates/mesh_run/src/lives.rt`, which has `plan_of` of `life_plans` make the plan.
#![tactic(auto)]

mod alone;
mod edges;
mod going;
mod held;
mod host;
mod living;
mod log;
mod phases;
mod steps;
mod told;

pub use alone::{live_alone, one_phase_alone};
pub use edges::{Beginning, LifeLeft};
pub use going::{live_on, one_phase};
pub use held::{HeldLife, HeldPhase, Unopened};
pub use host::Host;
pub use life_laws::plan::{LifeLog, LifePlan, PlanStep};
pub use living::life;
pub use node_phase::{FreeGate, Gate};
pub use phases::{PhaseDone, Seats};
pub use told::{LastStep, PhaseLog, PhaseSink, PhaseSource, SinkFailed, SourceFailed};
