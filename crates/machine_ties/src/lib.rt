//! What ties a node's machine to its flash, to the records that its life opened over, and to its history (`machine_standing`, of a node with these
//! layers): definitions, and what follows from them, for the machine above. No code here does anything when it runs.
//!
//! - `Views` (in `specs/`): a machine as proofs see it
//! - `Ties`: what holds between two calls
//! - `Kept`: the laws by which a node stays one, as a proof takes them
//! - `laws`: the laws by which a node stays one
//! - `bounds`: what the types of values in hand say
#![tactic(auto)]

mod bounds;
mod laws;

pub use bounds::are_bounded;
pub use laws::ties_law;
