//! A Low Power node (Mesh Profile 1.0.1, section 3.6.6): [`Lpn`] looks for a friend, polls it, and has addresses added to its list. It
//! says which PDUs it takes: under friendship credentials one for each Poll. Its contracts see it as the state of
//! `low_power_definitions`, where what each call answers, sends and leaves is said.
//!
//! It has no timers and sends nothing by itself: the caller seals each [`LpnJob`] from the first element with TTL 0, and decides when to
//! look for a friend and when to poll.
//!
//! - `lpn`: the node and its calls
//! - `messages`: what it sends
//! - `standing`: its friend, and the Poll that is open
//! - `addresses`: the addresses that it had added to its friend's list
//! - `credentials`: what it seals and hears with
#![tactic(auto)]

mod addresses;
mod credentials;
mod lpn;
mod messages;
mod standing;

pub use credentials::job_material;
pub use low_power_definitions::lpn::{Credentials, ListFault, LpnHeard, LpnJob, NoFriend};
pub use lpn::Lpn;
