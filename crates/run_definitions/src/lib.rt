//! What a run of the node is, apart from all code: when a record is one of a run of a script. That every run is safe is proved in
//! `run_safety`. The definitions stand in `specs/`, from the bottom up:
//!
//! - `Seals`, `Lines`, `Order`: what a line of a job shows, and the order in which a bearer does its work
//! - `RunOf`: the relation of a life to its plan, and of a run to its script
//! - `Uses`: what a run seals and delivers
//!
//! How one event is handled stands in `event_definitions`, the record of a run and its report in `report_definitions`.
#![tactic(auto)]
