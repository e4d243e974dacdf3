//! A flash whose reads fail where it is told, without a cut: for tests of what stands on a flash.
//!
//! - `flaw`: the flash, with the list of reads that fail
#![tactic(auto)]

mod flaw;

pub use flaw::FlawFlash;
