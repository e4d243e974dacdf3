//! What the records of a node's store say, apart from all code: of the node, of its replay list, and of what an image of the flash
//! recovers. The definitions stand in `specs/`, from the bottom up:
//!
//! - `Config`: what a list of records says of the node, one change for each record
//! - `Entries`: the entries of the replay list
//! - `Ranges`: the ranges of a record's fields
//! - `Recovered`: the text of a record, and the records that an image of the flash recovers
//! - `Numbers`: the records of a refill and of a new IV state
//! - `Provisioning`: the records of provisioning
//! - `Alike`: when two lists say the same
//! - `Following`: which record may come after others
//! - `Node`: what the records of a node that can be run say, and which records keep it
//! - `Wear`: how many calls of the flash records cost
//!
//! The laws about them are the contracts of functions that do nothing: `recovery` and `node`.
#![tactic(auto)]

pub mod node;
pub mod recovery;
