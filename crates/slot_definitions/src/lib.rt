//! Definitions of the octets of the node's flash: slots, the headers of its two banks, and what an image recovers. There is no code here: the
//! journal's crate is proved to write and read what these definitions say, and a run is told by them.
#![tactic(auto)]
