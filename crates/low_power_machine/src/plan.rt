//! The plan of an event.
#![tactic(auto)]

ghost use Rattle.std.specs.Prelude.{◌≡◌, None};

use low_power::LpnJob;
use mesh_types::answers::Answer;

/// What an event leads to.
#[derive(Drop)]
pub struct Plan {
    /// The answer.
    pub(crate) answer: Answer,
    /// What is to be sent.
    pub(crate) job: Option<LpnJob>,
}

impl Plan {
    /// An answer alone.
    pub(crate) fn answered(answer: Answer) -> Plan
        ensures { result ≡ record { answer = answer; job = None } }
    {
        Plan { answer, job: None }
    }
}
