//! That the layers of a node have the properties that a life asks of them. There is no code here: each law is the contract of a function that
//! does nothing.
//!
//! - `Laws` (in `specs/`): the laws of all layers of the node, `node_layers`, and of those below the access layer, `built_layers`
//! - `laws`: the laws, as contracts of functions that do nothing
#![tactic(auto)]

pub mod laws;
