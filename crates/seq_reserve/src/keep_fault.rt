//! Why numbers weren't stored.
#![tactic(auto)]

use node_store::PutFault;
use thiserror::Error;

/// Why numbers weren't stored.
#[derive(Clone, Copy, Debug, PartialEq, Eq, Error)]
pub enum KeepFault {
    /// An earlier write failed: mount the flash again.
    #[error("an earlier write to the store failed")]
    Closed,
    /// The flash failed in this call. The store is closed from then on.
    #[error("the flash failed")]
    Flash,
}

impl From<PutFault> for KeepFault {
    ghost use Rattle.std.specs.Prelude.{◌≡◌};
    ghost use Rattle.seq_reserve.specs.Faults.{keep_fault_of};

    ghost from_gives = { λ fault e. e ≡ keep_fault_of fault };

    /// No table refuses a Numbers record, so a limit is never told.
    fn from(fault: PutFault) -> Self {
        match fault {
            PutFault::Closed => KeepFault::Closed,
            PutFault::Limit { .. } | PutFault::Flash => KeepFault::Flash,
        }
    }
}
