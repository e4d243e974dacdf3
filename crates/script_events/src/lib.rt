//! What a line of a script stands for: the event that happens, and the bearer that it happens on. An outside node seals the octets that
//! `peer`, `talk` and `beacon` make heard; the definitions of all that stand in `script_definitions`.
//!
//! - `events`: the event of each kind of line
//! - `outside`: the outside node: the network PDUs of `peer` and `talk`, and the beacon of `beacon`
//! - `talking`: the transport PDU of `talk`, which has a whole access message or one of its segments
//! - `kept`: keys with what was derived from them, so that lines of one key derive it once
#![tactic(auto)]

pub mod events;
mod kept;
pub mod outside;
mod talking;

pub use crate::events::Happening;
pub use crate::kept::material;
pub use crate::outside::{OutsideNode, beacon_octets};
