//! Each run of a node as steps of the world of numbers, seals and messages (`mesh_world`), life by life: power comes on over the mark that the
//! life opens with, messages are accepted and delivered in the order of the entries, numbers are drawn one after another up to the last one
//! that a line shows, and each line seals with a number that was drawn since power came on. The seals of these worlds are those of the run's
//! lines, and what they deliver is what the run accepts: so both halves of the world's law are about the run.
//!
//! - `Steps` (in `specs/`): which steps of numbers and seals a life is
//! - `Whole`: which steps of all kinds it is
//! - `laws`: the law, as the contract of a function that does nothing
#![tactic(auto)]

pub mod laws;
