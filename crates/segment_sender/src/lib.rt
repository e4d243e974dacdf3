//! Own segmented messages (Mesh Profile 1.0.1, section 3.5.3.2): [`Senders`] holds at most 4 messages that aren't
//! acknowledged. Its contracts see it as the list of these messages, in the order in which they began; what each call
//! answers and leaves is said in `layer_states`.
//!
//! - `senders`: the table and its calls
//! - `rows`: what a call does to the list of messages
//! - `message`: one message, its pieces and its rounds
//! - `ends`: when the first timer of the messages ends
#![tactic(auto)]

mod ends;
mod message;
mod rows;
mod senders;

pub use layer_states::sending::{Acked, DueList, Sending};
pub use mesh_types::events::Outgoing;
pub use message::round_due;
pub use senders::{Rounds, SendFull, Senders};
