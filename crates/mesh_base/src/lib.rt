//! The plain types that every layer of a Bluetooth mesh node speaks of, and the traits of the outside: where octets come
//! from (`Source`) and where they go (`Sink`).
//!
//! - `address`: a 16-bit address and its kind
//! - `octets`: a list of at most N octets
//! - `pair`: an IV Index with a SEQ, their order, and the name of a message
//! - `fields`: the fields of a network PDU, and the material that seals it
//! - `keys`: network, application and device keys as the node holds them
//! - `iv_state`: the state of the IV Index and the steps that it takes
//! - `lower`: the four kinds of lower transport PDU
//! - `beacon`: what a Secure Network beacon says
//! - `control`: the control messages of the transport layers
//! - `upper`: what seals an access message besides its key
//! - `slot`: one record of the flash
//! - `outside`: the traits `Source` and `Sink`
//! - `memory`: sources and sinks in memory, failing at chosen calls or never
//! - `standard`: the source and the sink over std's readers and writers
//! - `table`: a list of at most N items
#![tactic(auto)]

pub mod address;
pub mod beacon;
pub mod control;
pub mod fields;
pub mod iv_state;
pub mod keys;
pub mod lower;
pub mod memory;
pub mod octets;
pub mod outside;
pub mod pair;
mod pieces;
pub mod slot;
pub mod standard;
pub mod table;
pub mod upper;
