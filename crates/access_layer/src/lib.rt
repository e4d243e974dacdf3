//! The access layer: the opcode of an access message, and the Composition Data (Mesh Profile 1.0.1, sections 3.7.3 and 4.2.1).
//!
//! - `opcodes`: from the octets of a payload to its opcode
//! - `pages`: Composition Data Page 0
//! - `laws`: a payload begins with at most one opcode
#![tactic(auto)]

mod laws;
mod opcodes;
mod pages;

pub use laws::opcode_law;
pub use model_states::access::Opcode;
pub use opcodes::{BadOpcode, read_opcode};
pub use pages::composition;
