//! A node behind a pointer, and its calls as numbers and slices of octets alone: what `meshnode_c` exports to C, and what a program in any language
//! can hold that knows no type of a node.
//!
//! - `status`: what a call answers
//! - `loose`: a box as its pointer
//! - `held`: [`Meshnode`], which holds a node, or none
//! - `opening`: a node over an image, with the first line of its life
//! - `handing`: what the last phase left, handed out
//! - `calls`: the calls of a [`Meshnode`]
//!
//! A caller opens a node over an image and then, for each line, calls `line`, takes the writes and makes them durable in their order, and takes the
//! report; at last it calls `close`. A call that is refused, for a slice that is too short too, leaves the node and the slices as they were. No call asks
//! anything of its caller: what it is given at the wrong time, or of the wrong length, it refuses.
//!
//! In `specs/`, `Owned` says what a [`Meshnode`] owns, and `Nodes` what a call does to the node that it holds.
#![tactic(auto)]

mod calls;
mod handing;
mod held;
mod loose;
mod opening;
pub mod status;

pub use held::{HeldNode, Meshnode};
