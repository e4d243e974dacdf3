//! The machine.
#![tactic(auto)]

use crate::state::LowPowerState;

/// The machine of a Low Power node. The flash stays with the caller, and is passed to each call.
///
/// What it keeps of its node is boxed where a life is opened, so that whoever hands the machine on moves a pointer.
#[derive(Drop)]
pub struct LowPowerMachine {
    pub(crate) state: Box<LowPowerState>,
}
