//! Definitions of the cryptography of a mesh network, on numbers and lists alone: octets of numbers, AES-128, AES-CCM, AES-CMAC and the
//! key derivations. They stand in specs/, and the laws about them in proofs/.
//!
//! - `Octets`: octets of numbers, sums of lists, blocks of 16
//! - `Aes`: AES-128 (FIPS 197)
//! - `Ccm`: AES-CCM (RFC 3610)
//! - `Cmac`: AES-CMAC (RFC 4493)
//! - `Kdf`: s1, k1, k2, k3, k4 and virtual addresses (Mesh Profile 1.0.1, sections 3.8.2 and 3.4.2.3)
#![tactic(auto)]
