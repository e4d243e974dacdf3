//! What a program in C, or in any language that calls C, can call of the layers of a node, where nothing is kept, and of a node that it holds: numbers
//! and slices of octets alone. `bindings/c/meshnode.h` is written from these files, and from the status numbers and the struct of `node_handle`, by
//! `bindings/header`.
//!
//! - `arrays`: octets of a slice as an array
//! - `ciphers`: AES-CCM and AES-CMAC
//! - `credentials`: what network PDUs are sealed with
//! - `derivations`: s1, k1 to k4, virtual addresses
//! - `network`: network PDUs
//! - `lower`: lower transport PDUs, Segment Acknowledgments, SeqAuth
//! - `upper`: access messages of the upper transport layer
//! - `beacons`: Secure Network beacons
//! - `audit`: the audit of a log
//! - `node`: a node that is held, as `node_handle` has it
//!
//! A call of a layer whose slices haven't the lengths that it asks for, or whose numbers are out of range, is refused and leaves all that it was given
//! as it was (`refused`). It is exact when it is (`when`; of `meshnode_audit` `length` and `too_long`). Two calls that give no answer write all the
//! same: `meshnode_ccm_open` leaves zeros in place of a text whose MIC is wrong (`zeros`), and `meshnode_audit` tells the first line that isn't of the
//! form (`not_report`). A call of a node that is refused leaves the node and the slices as they were; a size is told where a slice is too short.
//!
//! What C must uphold is what the types say: a pointer is to as many octets as the length behind it, what is written to isn't given to another
//! parameter too, and a struct that holds a node is as a call left it, or all 0.
#![tactic(auto)]

mod arrays;
mod audit;
mod beacons;
mod ciphers;
mod credentials;
mod derivations;
mod lower;
mod network;
mod node;
mod upper;
