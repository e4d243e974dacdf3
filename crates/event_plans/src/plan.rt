//! What an event is answered, what it stores, and what its jobs need, by the kind of the event.
#![tactic(auto)]

use event_records::Records;
use mesh_hearing::BeaconHearing;
use mesh_jobs::{PduBasis, TimeBasis};
use mesh_types::answers::Answer;

/// Of a network PDU heard.
#[derive(Drop)]
pub struct PduPlan {
    /// The answer.
    pub answer: Answer,
    /// The records, in the order in which they are stored.
    pub records: Records,
    /// What the jobs need: how far the octets were read, and what is known of the time before the records.
    pub basis: PduBasis,
}

/// Of a beacon heard, which asks for no jobs.
#[derive(Drop)]
pub struct BeaconPlan {
    /// What the octets were read as, and the answer.
    pub heard: BeaconHearing,
    /// The records, in the order in which they are stored.
    pub records: Records,
}

/// Of time that passed.
#[derive(Drop)]
pub struct TickPlan {
    /// The answer.
    pub answer: Answer,
    /// The records, in the order in which they are stored.
    pub records: Records,
    /// What the jobs need: what is due, and what is known of the time before the records.
    pub basis: TimeBasis,
}

/// Of an event that brings neither octets heard nor time. It stores nothing.
#[derive(Drop)]
pub struct OwnPlan {
    /// The answer.
    pub answer: Answer,
    /// Whether a message that the node was asked to send goes to an address of a friendship.
    pub befriended: bool,
}
