//! A Low Power node and its Friend node, each by its own crate: what one seals is read by the other. There is no code here but tests.
//!
//! - `sides`: both nodes, and how a PDU goes from one to the other
//! - `friendship`: a friendship from its first Request to the next one
//! - `rows`: the octets of what a Low Power node sends, and what it refuses
#![tactic(auto)]

#[cfg(test)]
mod tests;
