//! Worked cases of the layers of a node, and of a Low Power node: laws by computation, each the contract of a function that does nothing. What octets are read as is
//! given in each case; keys may be any, and the answers and jobs are those that were worked out by hand.
//!
//! - `Walk` (in `specs/`): an event that is handled, and the node of the cases
//! - `Segments`: segmented messages heard
//! - `Friendship`: a friendship, and what is stored for it
//! - `Models`: the configuration, the models and the heartbeat
//! - `Sending`: own segmented messages, and PDUs that go on
//! - `IvIndex`: the IV Index that a PDU is read under, and an IV Update that a beacon ends
//! - `Published`: labels, and what models publish
//! - `LowPower`: a Low Power node, its friend and its list
//! - `laws`: the laws
#![tactic(auto)]

pub mod laws;
