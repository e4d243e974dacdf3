//! When the models of a node publish, and when its heartbeat is sent (Mesh Profile 1.0.1, sections 4.2.2 and 4.2.17). Time is in ticks of
//! 10 ms. Nothing is sent here: the calls answer what is due.
//!
//! - `publisher`: the rows of the models, and the heartbeat
//! - `rows`: rows in their order, and which are due
//! - `heartbeats`: periods and counts of a heartbeat, and whether one is due
//! - `ends`: when the first period ends of what is published
//! - `laws`: rows of a node's own models are at most 8
#![tactic(auto)]

mod ends;
mod heartbeats;
mod laws;
mod publisher;
mod rows;

pub use laws::rows_law;
pub use model_states::publication::HeartbeatRow;
pub use publisher::Publisher;
pub use record_types::records::PublishRow;
pub use rows::PublishList;
