//! Who is told of the phases of a living node: a report of lines, which are written at once to a sink of octets.
//!
//! - `report`: [`LiveReport`], a [`PhaseSink`](mesh_node::PhaseSink) over any sink
//! - `laws`: what was written once several phases were told, and what stands in the sink once a life was told from its opening to its end
//!
//! In `specs/`, `Lines` says which lines a life that is told phase by phase has, and `Steps` what the report does with one phase.
#![tactic(auto)]

pub mod laws;
mod report;

pub use report::LiveReport;
