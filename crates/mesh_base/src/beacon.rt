//! What a Secure Network beacon says (Mesh Profile 1.0.1, section 3.9.3).
#![tactic(auto)]

/// An authentic Secure Network beacon.
#[derive(Clone, Copy, PartialEq, Eq)]
pub struct Beacon {
    /// The index of the network key whose beacon it is, 12 bits.
    pub index: u16,
    /// Whether it is authentic under the new key of a Key Refresh.
    pub fresh: bool,
    /// The Key Refresh flag.
    pub refresh: bool,
    /// The IV Update flag.
    pub update: bool,
    /// The IV Index.
    pub iv: u32,
}
