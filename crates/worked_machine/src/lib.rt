//! What the machine of a node makes of network PDUs that were read before. There is no code here but tests.
#![tactic(auto)]

#[cfg(test)]
mod tests;
