//! The upper transport layer's PDUs (Mesh Profile 1.0.1, section 3.6): access messages sealed and opened under application and device
//! keys, and the octets of control messages both ways.
//!
//! - `nonce`: what an access message is sealed with
//! - `sealing`: from an access payload to octets
//! - `opening`: from octets to an access payload, under the first key that opens them
//! - `labelled`: the same of a message to a virtual address under one key, by the first label that opens them
//! - `control_reading`: from octets to a control message
//! - `control_writing`: from a control message to octets
//! - `laws`: octets have one reading
//!
//! A caller to begin with: `access`, `opened` and `control` in `crates/worked_vectors/src/messages.rt`.
#![tactic(auto)]

mod control_reading;
mod control_writing;
mod labelled;
mod laws;
mod nonce;
mod opening;
mod sealing;

pub use control_reading::read_control;
pub use control_writing::write_control;
pub use kept_keys::{BoundSchedule, UpperSchedule};
pub use labelled::{LabelOpening, open_labelled};
pub use laws::{control_law, upper_law};
pub use mesh_base::control::ControlMsg;
pub use mesh_base::keys::UpperKey;
pub use mesh_base::upper::UpperFields;
pub use opening::{NoKey, Opened, open_kept, unseal_access, unseal_bound, unseal_kept};
pub use sealing::{seal_access, seal_kept};
