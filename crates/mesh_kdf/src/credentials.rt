//! What k2 derives.
#![tactic(auto)]

/// What k2 derives from a network key (section 3.8.2.6): the material of a set of credentials. It has no `Debug`, since it is keys.
#[derive(Clone, Copy, PartialEq, Eq)]
pub struct K2 {
    /// NID, below 128.
    pub nid: u8,
    /// The EncryptionKey.
    pub encryption: [u8; 16],
    /// The PrivacyKey.
    pub privacy: [u8; 16],
}
