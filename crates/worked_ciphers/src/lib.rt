//! The definitions of AES, AES-CMAC and AES-CCM at vectors of FIPS 197, RFC 4493 and RFC 3610, by evaluation. They stand in
//! `proofs/Definitions.antt`. There is no code here. The code at the standards' own vectors is `worked_vectors`.
#![tactic(auto)]
