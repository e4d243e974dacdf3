//! Access messages to virtual addresses (Mesh Profile 1.0.1, sections 3.4.2.3 and 3.8.7.1): several labels may have one virtual address,
//! and the label that a message was sealed with is found by opening it.
//!
//! - `opening`: the first label, and with it the first key, that open a message
//! - `kept`: labels with their virtual addresses, which are derived once
#![tactic(auto)]

mod kept;
mod opening;

pub use kept::Labels;
pub use opening::{LabelOpened, NoLabel, unseal};
