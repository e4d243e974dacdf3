//! What a phase is run with.
#![tactic(auto)]

use seq_word::Numbers;
use std::alloc::Global;

/// What a phase is run with.
#[derive(Drop)]
pub struct PhaseHost<'a, R, G> {
    /// Starts the threads of the bearers, and waits for them; or `Alone`, where there is one bearer and no thread is started.
    pub rt: &'a R,
    /// Where memory comes from.
    pub alloc: Global,
    /// Is told where a bearer is in its work.
    pub gate: &'a G,
    /// The counter and the mark.
    pub numbers: &'a Numbers,
}
