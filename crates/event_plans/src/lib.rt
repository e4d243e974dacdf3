//! One event apart from its flash: its answer, what it stores, and then its jobs. What an event does to what a node keeps
//! in memory, its tables, its models and its friendships, is done here; its records come as values, and its jobs are asked
//! for when these are stored. There is a call for each kind of event, so that none pays for the values of another.
//!
//! - `tables`: what a node keeps in memory in a life
//! - `models`: what the models make of an answer
//! - `plan`: the answer and the records, with what the jobs need of the time before the records, by kind
//! - `planning`: the plan of an event, by kind
//! - `answers`: the answers to events that bring no octets and no time
//! - `jobs`: the jobs of a plan
//! - `bounds`: what the types of values in hand say
#![tactic(auto)]

mod answers;
mod bounds;
mod jobs;
mod models;
mod plan;
mod planning;
mod tables;

pub use bounds::{are_octets, are_within};
pub use event_records::Records;
pub use jobs::{jobs_of_beacon, jobs_of_own, jobs_of_pdu, jobs_of_tick};
pub use mesh_jobs::{PduBasis, TimeBasis};
pub use mesh_reading::HeardPdu;
pub use plan::{BeaconPlan, OwnPlan, PduPlan, TickPlan};
pub use planning::{plan_beacon, plan_own, plan_pdu, plan_tick};
pub use tables::NodeTables;
