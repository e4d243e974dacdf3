//! The rule that all access messages of this node follow: what is stored instead of being sent.
#![tactic(auto)]

ghost use Rattle.std.specs.Prelude.{◌≡◌, if◌then◌else◌, List, []};
ghost use Rattle.mesh_types.specs.declared.jobs.Job.{Job};
ghost use Rattle.event_definitions.specs.Jobs.{unless_stored};

/// The longest access payload that goes unsegmented, in octets (Mesh Profile 1.0.1, section 3.7.3).
const UNSEGMENTED: usize = 11;

/// Whether an access message of this node is stored for a Low Power node instead of being sent: it goes unsegmented, to an address of a
/// friendship that stands. Messages that the node is asked to send, replies and publications follow this one rule.
pub fn is_stored(befriended: bool, payload: &[u8]) -> bool
    ensures value { (jobs : List Job) → unless_stored befriended payload.now jobs ≡ (if result then [] else jobs) }
{
    befriended && payload.len() <= UNSEGMENTED
}
