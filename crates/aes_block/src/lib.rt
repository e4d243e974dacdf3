//! AES-128 of one block (FIPS 197), with the round keys computed once for each key.
//!
//! - `schedule`: a key with its round keys; a block, and a step of a chaining
//! - `state`: the steps of a round, a word for each column
//! - `tables`: the S-box and what an octet adds to its mixed column
//! - `sums`: octets added bit by bit
//!
//! Tables are read at places that depend on the key and on the text, so time, through the processor's cache, tells of both: this isn't
//! AES in constant time.
//!
//! A caller to begin with: `aes` and `chained` in `crates/worked_vectors/src/ciphers.rt`.
#![tactic(auto)]

mod schedule;
mod state;
mod sums;
mod tables;

pub use schedule::Schedule;
pub use sums::add_to;
