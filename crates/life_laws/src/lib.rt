//! The plan of a life and what a life leaves, and what phases of a life are together, in the terms of a run. There is no code here that does
//! anything: each law is the contract of a function that does nothing, over what `node_phase` says of one phase.
//!
//! - `plan`: what a life has to do, and what it leaves
//! - `order`: the entries and the lines of several phases fall into parts, and each bearer's entries are numbered
//! - `pairs`: the pairs that the lines draw
//! - `hands`: what bearers handled of their events, and the event in hand of a node whose flash failed
//! - `living`: a life as one of its plan
//! - `stops`: what a bearer that stopped says of the node
#![tactic(auto)]

pub mod hands;
pub mod living;
pub mod order;
pub mod pairs;
pub mod plan;
pub mod stops;
