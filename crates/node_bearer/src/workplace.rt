//! Where a bearer works.
#![tactic(auto)]

use seq_word::Numbers;
use turn_lock::{Logged, Turn};

/// Where a bearer works: what it shares with the other bearers of its node, and which of them it is.
#[derive(Drop)]
pub struct Workplace<'a, T: Logged, S> {
    /// How it comes to its turn at the lock.
    pub sharing: &'a S,
    /// The counter and the mark.
    pub numbers: &'a Numbers,
    /// The lock.
    pub turn: &'a Turn<T>,
    /// Its number among the bearers.
    pub bearer: u8,
}
