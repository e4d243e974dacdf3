//! What a bearer has.
#![tactic(auto)]

use job_sealing::KeptSeals;
use machine_contract::{Answered, Stop};
use mesh_base::pair::Pair;
use mesh_types::history::Sent;
use seq_word::Drawer;
use turn_lock::{Logged, Pass};

/// A bearer in one phase of a life.
#[derive(Drop)]
pub struct Bearer<T: Logged> {
    /// Its seat at the counter and the mark.
    pub drawer: Drawer,
    /// Its right to take turns at the lock.
    pub pass: Pass<T>,
    /// What became of the jobs that it did in this phase, in their order.
    pub lines: Vec<Sent>,
    /// The number of its last entry in this life, or 0.
    pub number: u32,
    /// The schedules of the keys that it sealed with last, in a box, so that they go from phase to phase without a copy.
    pub kept: Box<KeptSeals>,
    /// Why it stopped.
    pub stop: Option<Stop>,
}

/// What a draw gave.
#[derive(Clone, Copy)]
pub enum Drawn {
    /// This pair.
    Pair(Pair),
    /// No SEQ is left under this transmit IV Index.
    Spent(u32),
}

/// What a turn at the lock gave.
#[derive(Drop)]
pub struct Acted {
    /// The place of the last event that was handled in it, among those that were to be handled.
    pub last: usize,
    /// What that one was answered. The others left no jobs.
    pub answered: Answered,
}
