//! The state of the IV Index (Mesh Profile 1.0.1, section 3.10.5).
#![tactic(auto)]

/// What a node knows of the IV Index.
#[derive(Clone, Copy, Debug, PartialEq, Eq)]
pub struct IvState {
    /// The known IV Index. In progress it is at least 1.
    pub current: u32,
    /// Whether the state is IV Update in Progress (else Normal Operation).
    pub progress: bool,
    /// Hours since the state was entered, at most 65,535.
    pub hours: u16,
    /// Hours since the last IV Index Recovery, at most 65,535.
    pub since: u16,
}

impl IvState {
    ghost use Rattle.std.specs.Prelude.{◌≡◌};
    ghost use Rattle.mesh_base.specs.IvState.{HasTransmit, transmit_of};

    /// The IV Index of what this node sends: `current`, and one less while the update is in progress (section 3.10.5).
    #[tactic(auto, unfolding(crate::specs::IvState::transmit_of))]
    pub fn transmit(&self) -> u32
        requires { HasTransmit self.now }
        ensures value { result ≡ transmit_of self.now }
    {
        if self.progress {
            self.current - 1
        } else {
            self.current
        }
    }
}

/// What a beacon or the passing of hours does to the state.
#[derive(Clone, Copy, Debug, PartialEq, Eq)]
pub enum IvStep {
    /// Nothing changes, by this rule of the table.
    Ignore {
        /// The rule's number; 0 where no rule spoke.
        rule: u8,
    },
    /// IV Update in Progress begins.
    Begin(IvState),
    /// Normal Operation comes back.
    Finish(IvState),
    /// IV Index Recovery.
    Recover(IvState),
    /// A step is due and has to wait.
    Wait,
}
