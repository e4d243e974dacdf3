//! Runs of a script over flashes that aren't erased or fail, and with a gate between bearers; and the report of a living node. There is no code
//! here but tests. Scripts with their reports stand in `worked/` at the top.
//!
//! - `ends`: how a run ends
//! - `flashes`: flashes that aren't erased, and flashes whose reads fail
//! - `gates`: bearers beside one another
//! - `reports`: the report of a living node
//! - `streams`: sources and sinks that fail at one call
#![tactic(auto)]

#[cfg(test)]
mod tests;
