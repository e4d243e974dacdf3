//! The access layer's plain types (Mesh Profile 1.0.1, section 3.7.3).
#![tactic(auto)]

/// The opcode of an access message, as the number that its one, two or three octets make, the first octet highest. One octet is 00
/// to 7e, two begin with 80 to bf, three with c0 to ff.
#[derive(Clone, Copy)]
pub struct Opcode(pub u32);
