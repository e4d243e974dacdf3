//! Network PDUs that are read before their turn, apart from the node that holds the keys: so a bearer reads octets without the node's lock, and
//! the node uses the reading where it would read the same now. What a reading depends on is a [`KeyView`]: the network keys heard, the
//! credentials of friendships, and the known IV Index.
//!
//! - `view`: what the reading of octets depends on
//! - `reader`: reads octets by a view, and keeps the key schedules
//! - `reading`: octets that were read, and what they read as
//! - `early`: octets that were read before, and what is known of octets by it
//!
//! A caller to begin with: `renew_reader` and `handle_early` in `crates/mesh_machine/src/machine.rt`.
#![tactic(auto)]

mod early;
mod reader;
mod reading;
mod view;

pub use early::{Early, Known, read_unless};
pub use reader::Reader;
pub use reading::Reading;
pub use view::KeyView;
