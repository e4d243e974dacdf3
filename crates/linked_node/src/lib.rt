//! A node that is linked: whoever links it has its image, gives it events, and makes its writes durable. It starts no thread, waits for none, and asks
//! for no handle.
//!
//! - `faults`: why an image isn't opened
//! - `opening`: a node over an image
//!
//! What its caller does, in this order: open the image ([`open_image`]); then, for each phase, `phase`, and all writes of `take_writes` made durable in
//! their order before anything leaves that the phase handed out; at last `close`, and its writes. A caller that dies opens the image anew.
#![tactic(auto)]

mod faults;
mod opening;

pub use faults::OpenFault;
pub use mesh_node::{HeldPhase, LifeLeft, PhaseLog};
pub use opening::{LinkedNode, open_image};
