//! The lines of the report.
#![tactic(auto)]

use crate::answers::Answer;
use crate::events::Kind;
use crate::lines::Outcome;
use mesh_base::iv_state::IvState;

/// How a life began.
#[derive(Clone, Copy)]
pub enum Opened {
    /// With this IV state and this mark, a word `iv * 2^25 + seq`.
    On(IvState, u64),
    /// A Node Reset is stored.
    WasReset,
    /// The flash failed while the store was opened.
    CutAtStart,
}

/// How a life ended.
#[derive(Clone, Copy, Debug, PartialEq, Eq)]
pub enum End {
    /// All of it was done.
    Ended,
    /// The flash failed.
    Cut {
        /// The number of program and erase calls begun in this life.
        calls: u32,
    },
}

/// One line of the report.
#[derive(Drop)]
pub enum ReportLine {
    /// A life began.
    Opened {
        /// The number of the life, from 1 on.
        life: u32,
        /// The IV state that it opened with.
        state: IvState,
        /// The mark that it opened with, a word `iv * 2^25 + seq`.
        mark: u64,
    },
    /// A life wasn't run, since a Node Reset is stored.
    WasReset {
        /// The number of the life, from 1 on.
        life: u32,
    },
    /// The flash failed while a life was opened.
    CutAtStart {
        /// The number of the life, from 1 on.
        life: u32,
    },
    /// An entry of the history.
    Entry {
        /// Its place in the history, from 1 on.
        at: u32,
        /// The bearer, 0 to 7.
        bearer: u8,
        /// Its number among the entries of its bearer, from 1 on.
        number: u32,
        /// The kind of its event.
        kind: Kind,
        /// The answer.
        answer: Answer,
    },
    /// A job that was done.
    Sent {
        /// The bearer that did it, 0 to 7.
        bearer: u8,
        /// The place of its entry in the history, from 1 on.
        entry: u32,
        /// Its place among the jobs of that entry, from 1 on.
        job: u8,
        /// What became of it.
        outcome: Outcome,
        /// Whether the octets of a network PDU are shown.
        hex: bool,
    },
    /// A life ended.
    End,
    /// The flash failed in a life.
    Cut {
        /// The number of program and erase calls begun in the life.
        calls: u32,
    },
}
