//! What lives are run with.
#![tactic(auto)]

use std::alloc::Global;

/// What lives are run with, whatever their phases: no contract speaks of it.
#[derive(Drop)]
pub struct Host<'a, R, G> {
    /// Starts the threads of the bearers, and waits for them.
    pub rt: &'a R,
    /// Where memory comes from.
    pub alloc: Global,
    /// Is told where a bearer is in its work.
    pub gate: &'a G,
}
