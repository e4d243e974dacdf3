//! Definitions of the mesh layers over the plain types: nonces, texts of PDUs and what octets read as. There is no code here: each
//! layer's crate is proved to do what these definitions say.
//!
//! - `Network`, `Lower`, `Upper`: PDUs of the network layer and of both transport layers
//! - `Control`, `ControlReading`: control messages, and the one that octets read as
//! - `Labels`: messages to virtual addresses
//! - `Beacon`, `IvIndex`: Secure Network beacons, and the steps of the IV Index
//! - `KeyRefresh`, `Order`: keys by phase, and rows by index
#![tactic(auto)]
