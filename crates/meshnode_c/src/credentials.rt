//! What network PDUs are sealed with.
#![tactic(auto)]

ghost use Rattle.std.specs.Prelude.{◌≡◌};
ghost use Rattle.meshnode_c.specs.Network.{material_of};

use mesh_base::fields::NetMaterial;

/// Credentials: what network PDUs are sealed and opened with, as `meshnode_k2` derives it of a network key.
#[repr(C)]
#[derive(Drop)]
pub struct MeshnodeCredentials {
    /// NID, below 128.
    pub nid: u8,
    /// The EncryptionKey.
    pub encryption: [u8; 16],
    /// The PrivacyKey.
    pub privacy: [u8; 16],
}

/// Credentials as the network layer takes them.
pub fn material_of(by: &MeshnodeCredentials) -> NetMaterial
    ensures value { result ≡ material_of by.now }
{
    NetMaterial {
        nid: by.nid,
        encryption: by.encryption,
        privacy: by.privacy,
    }
}
