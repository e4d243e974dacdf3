//! What a life has to do, and what it leaves.
#![tactic(auto)]

use machine_contract::{EarlyReads, History};
use mesh_types::events::Event;
use mesh_types::history::Sent;
use mesh_types::report::{End, Opened};
use seq_word::Closed;

/// A step of a life.
#[derive(Drop)]
pub enum PlanStep {
    /// The flash is told to tear a later call.
    Arm {
        /// How many program and erase calls come before it.
        calls: u32,
        /// Of the octets of that call each bit whose bit in the mask is 1 takes its new value.
        mask: u8,
    },
    /// Each bearer has these events, in their order; the bearers leave the phase together.
    Phase(Vec<Vec<Event>>),
}

/// What a life has to do. Each phase has a list of events for each bearer.
#[derive(Drop)]
pub struct LifePlan {
    /// The number of bearers, at most `BEARERS` of `node_limits`.
    pub bearers: u8,
    /// The steps, in their order.
    pub steps: Vec<PlanStep>,
}

/// What a life leaves.
#[derive(Drop)]
pub struct LifeLog {
    /// How it opened.
    pub opened: Opened,
    /// Its entries, and the refills behind them.
    pub history: History,
    /// What became of the jobs, bearer by bearer, in the order in which each did them.
    pub sends: Vec<Vec<Sent>>,
    /// What the counter and the mark were at the end, where the life was run.
    pub drawn: Option<Closed>,
    /// How it ended.
    pub end: End,
    /// How many network PDUs its bearers read before they took the lock, and how many of these were read again under it: zero both where the life
    /// wasn't run.
    pub early: EarlyReads,
}
