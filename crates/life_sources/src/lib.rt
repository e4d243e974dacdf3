//! Where the lives of a script come from, one at a time: a script that was read, or one that is generated.
//!
//! - `sources`: the trait `LifeSource`, both sources, and the lines of a life
//!
//! In `specs/`, `Lines` says which lines these are.
#![tactic(auto)]

mod sources;

pub use sources::{LifeLines, LifeSource};
