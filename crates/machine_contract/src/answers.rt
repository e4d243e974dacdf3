//! What a call of a machine answers.
#![tactic(auto)]

use mesh_types::answers::Answer;
use mesh_types::jobs::Jobs;
use mesh_types::told::{Told, ToldEvent};
use thiserror::Error;

/// An event was handled.
#[derive(Drop)]
pub struct Answered {
    /// The place of its entry in the history, from 0 on.
    pub at: u32,
    /// The answer, for contracts alone: its entry has it.
    pub answer: Told<Answer>,
    /// The jobs, in their order.
    pub jobs: Jobs,
}

/// Why a machine didn't handle an event, or stored no refill.
#[derive(Clone, Copy, Debug, PartialEq, Eq, Error)]
pub enum Stop {
    /// The flash failed in an earlier call.
    #[error("the flash failed before")]
    Closed,
    /// Memory ran out, before anything changed.
    #[error("memory ran out")]
    Memory,
    /// The flash failed in this call. No entry was appended, and the machine is closed from then on.
    #[error("the flash failed")]
    Flash,
}

/// What the call that closed a machine had in hand.
#[derive(Drop)]
pub enum Hand {
    /// No call has failed.
    Nothing,
    /// This event was to be handled.
    OfEvent(ToldEvent),
    /// A refill was to be stored.
    OfRefill,
}
