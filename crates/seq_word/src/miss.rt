//! Why a draw gave no number.
#![tactic(auto)]

use crate::dry::Dry;
use thiserror::Error;

/// Why one try to draw gave no number. Words are those of `crate::word`.
#[derive(Debug, Error, Drop)]
pub enum Miss {
    /// The counter stood at SEQ 2^24 of this IV Index.
    #[error("no sequence number is left under IV Index {iv:08x}")]
    Spent {
        /// The IV Index, 32 bits.
        iv: u32,
    },
    /// The counter had reached the mark.
    #[error("{0}")]
    Dry(Dry),
    /// Another seat moved the counter between the look and the exchange.
    #[error("the counter went from {expected:x} to {found:x}")]
    Lost {
        /// The word that the look found in the counter.
        expected: u64,
        /// The word that the exchange found there.
        found: u64,
    },
}

/// Why a draw that tries again gave no number.
#[derive(Debug, Error, Drop)]
pub enum DrawStop {
    /// The counter stood at SEQ 2^24 of this IV Index.
    #[error("no sequence number is left under IV Index {iv:08x}")]
    Spent {
        /// The IV Index, 32 bits.
        iv: u32,
    },
    /// The counter had reached the mark.
    #[error("{0}")]
    Dry(Dry),
}
