//! A node as calls, from an image to the next one: it is opened, configured and switched by lines, and opened again from what its writes made.
//! There is no code here but tests.
#![tactic(auto)]

#[cfg(test)]
mod tests;
