//! How a machine opens.
#![tactic(auto)]

use mesh_base::iv_state::IvState;
use seq_word::{Drawer, Numbers};
use thiserror::Error;

/// A machine at the beginning of a life, with the two words that its bearers share.
#[derive(Drop)]
pub struct Started<M> {
    /// The machine.
    pub machine: M,
    /// The counter and the mark.
    pub numbers: Numbers,
    /// The first seat that draws.
    pub drawer: Drawer,
    /// The IV state that the records say.
    pub state: IvState,
    /// The mark that the records say, a word `iv * 2^25 + seq`.
    pub mark: u64,
}

/// Why no machine was started.
#[derive(Clone, Copy, Debug, PartialEq, Eq, Error)]
pub enum StartFault {
    /// The flash failed in this call.
    #[error("the flash failed")]
    Flash,
    /// A Node Reset is stored.
    #[error("the node was reset")]
    WasReset,
    /// Memory ran out.
    #[error("memory ran out")]
    Memory,
}
