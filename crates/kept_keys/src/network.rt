//! Network material (Mesh Profile 1.0.1, section 3.8.6.3.1) with the schedules of its two keys.
#![tactic(auto)]

ghost use Rattle.std.specs.Prelude.{◌≡◌, ◌↔◌, IsTrue};

use aes_block::Schedule;
use mesh_base::fields::{Heard, NetMaterial};
use std::marker::Model;

// Whether the octets of two keys are the same. It looks at all of them, so that they are compared at once.
fn are_same_octets(a: &[u8; 16], b: &[u8; 16]) -> bool
    ensures same { IsTrue result ↔ (a.now ≡ b.now) }
{
    let mut so_far = true;
    for i in 0..16 {
        so_far = so_far & (a[i] == b[i]);
    }
    so_far
}

/// Whether it's the same material (Mesh Profile 1.0.1, section 3.8.6.3.1). How long it takes may tell which of its fields differs first.
pub fn is_same_material(a: &NetMaterial, b: &NetMaterial) -> bool
    ensures same { IsTrue result ↔ (a.now ≡ b.now) }
{
    a.nid == b.nid
        && are_same_octets(&a.encryption, &b.encryption)
        && are_same_octets(&a.privacy, &b.privacy)
}

/// Network material with the schedules of its two keys. A clause sees it as the material.
#[derive(Drop)]
pub struct NetSchedules {
    nid: u8,
    encryption: Schedule,
    privacy: Schedule,
}

impl Model for NetSchedules {
    ghost use Rattle.mesh_base.specs.declared.fields.NetMaterial.{NetMaterial};

    ghost Value = { NetMaterial };

    ghost view = { λ s. record { nid = s.nid; encryption = s.encryption; privacy = s.privacy } };
}

impl NetSchedules {
    /// This material with its schedules.
    pub fn new(m: &NetMaterial) -> NetSchedules
        ensures value { result ≡ m.now }
    {
        NetSchedules {
            nid: m.nid,
            encryption: Schedule::new(&m.encryption),
            privacy: Schedule::new(&m.privacy),
        }
    }

    /// NID, below 128.
    pub fn nid(&self) -> u8
        ensures value { result ≡ self.now.nid }
    {
        self.nid
    }

    /// The schedule of the EncryptionKey.
    pub fn encryption(&self) -> &Schedule
        ensures value { result.now ≡ self.now.encryption }
    {
        &self.encryption
    }

    /// The schedule of the PrivacyKey.
    pub fn privacy(&self) -> &Schedule
        ensures value { result.now ≡ self.now.privacy }
    {
        &self.privacy
    }
}

/// The material of zeros, which fills the unused places of a table.
impl Default for NetSchedules {
    ghost use Rattle.std.specs.Prelude.{◌≡◌, replicate};

    ghost is_default = { λ m. m ≡ record { nid = 0; encryption = replicate 16 0; privacy = replicate 16 0 } };

    fn default() -> NetSchedules {
        NetSchedules {
            nid: 0,
            encryption: Schedule::new(&[0; 16]),
            privacy: Schedule::new(&[0; 16]),
        }
    }
}

/// Network material under which a PDU may be heard, and whose it is, with its schedules. A clause sees it as what is heard.
#[derive(Drop)]
pub struct HeardSchedules {
    heard: Heard,
    schedules: NetSchedules,
}

impl Model for HeardSchedules {
    ghost use Rattle.std.specs.Prelude.{◌≡◌};
    ghost use Rattle.mesh_base.specs.declared.fields.Heard.{Heard};

    ghost Value = { Heard };

    ghost view = { λ k. k.heard };

    ghost invariant = { λ k. k.schedules ≡ k.heard.material };
}

impl HeardSchedules {
    /// This key with its schedules.
    pub fn new(heard: &Heard) -> HeardSchedules
        ensures value { result ≡ heard.now }
    {
        HeardSchedules {
            heard: *heard,
            schedules: NetSchedules::new(&heard.material),
        }
    }

    /// The index of the network key, 12 bits.
    pub fn index(&self) -> u16
        ensures value { result ≡ self.now.index }
    {
        self.heard.index
    }

    /// Whether it is of the new key of a Key Refresh.
    pub fn is_fresh(&self) -> bool
        ensures value { result ≡ self.now.fresh }
    {
        self.heard.fresh
    }

    /// The key itself.
    pub fn heard(&self) -> Heard
        ensures value { result ≡ self.now }
    {
        self.heard
    }

    /// Its material with the schedules.
    pub fn schedules(&self) -> &NetSchedules
        ensures value { result.now ≡ self.now.material }
    {
        &self.schedules
    }
}

/// The material of zeros, of the network key with index 0, which fills the unused places of a table.
impl Default for HeardSchedules {
    ghost use Rattle.std.specs.Prelude.{⊤};

    ghost is_default = { λ _. ⊤ };

    fn default() -> HeardSchedules {
        HeardSchedules::new(&Heard::default())
    }
}
