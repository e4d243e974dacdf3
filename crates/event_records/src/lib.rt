//! What an event stores, in the order in which it is put: the very records that the definitions of a run say (`event_definitions`,
//! `specs/Stores.antt`). There is no flash here: the records come as values, with what the store asks of them.
//!
//! - `numbers`: the record of a new IV state
//! - `ticks`: time that passed
//! - `beacons`: a beacon heard
//! - `messages`: a network PDU heard
//! - `laws`: what is known of the index of a network key, and of the changes that a message asks for
#![tactic(auto)]

mod beacons;
mod laws;
mod messages;
mod numbers;
mod ticks;

pub use beacons::beacon_records;
pub use laws::{changes_law, index_law};
use mesh_base::table::Table;
pub use messages::heard_records;
use record_types::records::StoreRecord;
pub use ticks::tick_records;

/// What a message asks to be stored, at most 9 records: one of the configuration, and one of each of the 2 models of at most 4 elements.
pub type Changes = Table<StoreRecord, 9>;

/// The records of an event, at most 10: the name of an accepted message, and behind it what the message asks for. A beacon and a tick store at
/// most 2.
pub type Records = Table<StoreRecord, 10>;
