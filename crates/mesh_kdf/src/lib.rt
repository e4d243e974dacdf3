//! AES-CMAC (RFC 4493) and the key derivations s1, k1, k2, k3 and k4 of a mesh network (Mesh Profile 1.0.1, section 3.8.2),
//! and the virtual address of a label (section 3.4.2.3).
//!
//! - `mac`: AES-CMAC of a message
//! - `subkeys`: what AES-CMAC adds to its last block
//! - `derivations`: s1 to k4, and virtual addresses
//! - `credentials`: what k2 derives
//!
//! A caller to begin with: `k2` and `k3` in `crates/worked_vectors/src/ciphers.rt`.
#![tactic(auto)]

mod credentials;
mod derivations;
mod mac;
mod subkeys;

pub use credentials::K2;
pub use derivations::{address, k1, k2, k3, k4, s1};
pub use mac::{cmac, cmac_kept};
