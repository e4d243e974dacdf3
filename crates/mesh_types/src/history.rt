//! The history of a life.
#![tactic(auto)]

use crate::answers::Answer;
use crate::jobs::{Job, Jobs};
use crate::lines::Outcome;
use crate::told::{Told, ToldEvent};
use std::mem::size_of;

// An entry takes this much memory alone: a life keeps up to 8,192 entries, which thus stay below 4,000,000 octets.
const _: () = prove!(size_of::<Entry>() <= 480);

const _: () = prove!(size_of::<Job>() <= 144);

/// An event that was handled under the node's lock.
#[derive(Drop)]
pub struct Entry {
    /// The bearer, 0 to 7.
    pub bearer: u8,
    /// The number of this entry among those of its bearer in this life, from 1 on.
    pub number: u32,
    /// The event, of which its kind alone is kept when the program runs.
    pub event: ToldEvent,
    /// The number of refills that were stored since the entry before.
    pub fills: u32,
    /// The answer.
    pub answer: Answer,
    /// The jobs, for contracts alone.
    pub jobs: Told<Jobs>,
}

/// A job that was done.
#[derive(Drop)]
pub struct Sent {
    /// The place of its entry in the life's history, from 0 on.
    pub entry: u32,
    /// Its place among the jobs of that entry, from 0 on.
    pub job: u8,
    /// What became of it.
    pub outcome: Outcome,
}
