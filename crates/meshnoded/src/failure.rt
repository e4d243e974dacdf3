//! What can go wrong.
#![tactic(auto)]

ghost use Rattle.std.specs.Prelude.{◌≡◌};
ghost use Rattle.meshnoded.specs.Failing.{make_failure, open_failure, show_failure};
ghost use Rattle.meshnoded.specs.declared.failure.Failure.TheVariants as failures;

use live_node::Status;
use node_file::{MakeFault, OpenFault};
use node_state::ShowFault;
use node_store::ImageFault;
use std::alloc::AllocError;
use std::io;
use thiserror::Error;

/// Why the program ends with another number than 0.
#[derive(Debug, Drop, Error)]
pub enum Failure {
    /// The words are no command.
    #[error("usage: see meshnoded --help")]
    Usage,
    /// Standard input isn't two keys.
    #[error("keys: standard input isn't two words of 32 hexadecimal digits")]
    Keys,
    /// Standard input failed.
    #[error("readfault")]
    Read,
    /// Standard output failed.
    #[error("writefault")]
    Write,
    /// There was no memory.
    #[error("memory")]
    Memory,
    /// The file wasn't opened.
    #[error("nofile: {0}")]
    Open(OpenFault),
    /// The file wasn't made.
    #[error("notmade: {0}")]
    Make(MakeFault),
    /// What the file stores isn't told.
    #[error("nofile: {0}")]
    Show(ImageFault),
    /// There is no thread to read with, or no clock.
    #[error("noclock: {0}")]
    Clock(io::Error),
    /// A life ended so.
    #[error("{0}")]
    Life(Status),
    /// A life ended so, and the flash failed too: it was cut.
    #[error("{0}; cut")]
    LifeAndFlash(Status),
}

impl From<AllocError> for Failure {
    ghost from_gives = { λ _ e. e ≡ failures.Memory };

    fn from(_: AllocError) -> Self {
        Failure::Memory
    }
}

impl From<OpenFault> for Failure {
    ghost from_gives = { λ fault e. e ≡ open_failure fault };

    fn from(fault: OpenFault) -> Self {
        match fault {
            OpenFault::Memory => Failure::Memory,
            fault => Failure::Open(fault),
        }
    }
}

impl From<MakeFault> for Failure {
    ghost from_gives = { λ fault e. e ≡ make_failure fault };

    fn from(fault: MakeFault) -> Self {
        match fault {
            MakeFault::Memory => Failure::Memory,
            fault => Failure::Make(fault),
        }
    }
}

impl From<ShowFault> for Failure {
    ghost from_gives = { λ fault e. e ≡ show_failure fault };

    fn from(fault: ShowFault) -> Self {
        match fault {
            ShowFault::Image(fault) => Failure::Show(fault),
            ShowFault::Memory => Failure::Memory,
        }
    }
}

impl Failure {
    ghost use Rattle.meshnoded.specs.Numbers.{failure_number};

    /// The number that the program ends with.
    pub fn number(&self) -> u8
        ensures value { result ≡ failure_number self.now }
    {
        match self {
            Failure::Usage => 2,
            Failure::Read => 4,
            Failure::Write => 5,
            Failure::Memory => 6,
            Failure::Keys => 15,
            Failure::Open(_) | Failure::Show(_) => 16,
            Failure::Make(_) => 17,
            Failure::Clock(_) => 18,
            Failure::Life(status) | Failure::LifeAndFlash(status) => status.number(),
        }
    }
}
