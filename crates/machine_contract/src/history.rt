//! What a machine leaves.
#![tactic(auto)]

use mesh_types::history::Entry;

/// What is left of the history of a life when it is over.
#[derive(Drop)]
pub struct History {
    /// The entries that weren't taken before, in the order in which the machine handled them: all of them, where none were.
    pub entries: Vec<Entry>,
    /// The number of refills that were stored after the last entry.
    pub refills: u32,
}
