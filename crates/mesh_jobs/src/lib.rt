//! What an event's answer asks to be sent, in the order in which it is sent. Each call answers, or puts behind others,
//! the very list that the definitions of a run say (`event_definitions`, `specs/Jobs.antt`), for what the records after
//! the event say. There is no flash here and no table of a life: what a call needs of these comes as plain values.
//! Nothing here wants memory: jobs are made in a draft that has room for all of them, and the rest of its memory is
//! handed back.
//!
//! - `pdus`: a network PDU heard: it goes on, it is acknowledged, what it delivered is replied to, what a control message led to is
//!   answered, and beacons follow a Key Refresh
//! - `ticks`: time that passed: acknowledgments, segments and beacons that are due, and what is published
//! - `messages`: the node's own messages
//! - `segments`: the segments of an own message
//! - `acknowledgments`, `replying`, `beacons`, `refresh`, `publishing`: what these are made of
//! - `replies`: what is stored instead of being sent
#![tactic(auto)]

mod acknowledgments;
mod beacons;
mod making;
mod messages;
mod pdus;
mod publishing;
mod refresh;
mod replies;
mod replying;
mod segments;
mod ticks;

pub use beacons::push_beacons;
pub use messages::{AskedMessage, OwnBasis, begin_jobs, own_jobs, send_keys};
pub use pdus::{PduBasis, is_before_cache, pdu_jobs, push_ack, push_relay};
pub use publishing::{is_still_held, publish_ttl, push_publications};
pub use refresh::{KeyPhase, Phases, held_phases, push_refresh};
pub use replies::is_stored;
pub use replying::{HeardMessage, push_replies};
pub use segments::push_rounds;
pub use ticks::{Span, TimeBasis, push_acks, push_beacons_due, tick_jobs};
