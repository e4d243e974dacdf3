//! Worked cases of single crates that the program doesn't show. There is no code here but tests.
//!
//! - `streams`: sources and sinks, in memory and over readers and writers of std
//! - `flaws`: flashes in memory whose reads fail where they are told to
//! - `files`: a flash over a place in memory: what is read, and what whoever comes next finds, also where the place refused a write
//! - `journals`: a journal, its header, and what a cut leaves of it
//! - `bearers`: threads that draw numbers and take a lock in turn
//! - `records`: the octets of records with what they say, those beside that are no record, and the size of each table
//! - `stores`: the octets of a node that accepts a message and draws a number, and what mounting refuses
//! - `mounts`: what is refused over an erased flash and a full journal, what mounting answers behind the slots of provisioning, and the octets of two names
//! - `lines`: phases from lines that come in any pieces, long lines, and streams that fail
//! - `low_power`: scripts of a Low Power node, which the program doesn't run
//! - `proofs/Headers.antt`: which of two banks counts, evaluated at octets of headers
#![tactic(auto)]

#[cfg(test)]
mod tests;
