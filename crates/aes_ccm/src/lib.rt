//! AES-CCM (RFC 3610) in place, with a nonce of 13 octets, a MIC of 4 or 8 octets, and additional data: L = 2 and M = 4 or 8 in the
//! RFC's terms. Nothing is allocated. That the time of a call does not hang on its data is not claimed.
//!
//! A caller to begin with: `sealed` and `open` in `crates/worked_vectors/src/ciphers.rt`.
#![tactic(auto)]

mod chaining;
mod sealing;
mod stream;
mod trial;

pub use sealing::{BadMic, seal, unseal};
pub use trial::Trial;
