//! Keys of the upper transport layer (Mesh Profile 1.0.1, section 3.8.6) with their schedules.
#![tactic(auto)]

ghost use Rattle.std.specs.Prelude.{◌≡◌};
ghost use Rattle.layer_definitions.specs.Upper.{key_octets};
ghost use Rattle.kept_keys.specs.Bound.{fits};

use aes_block::Schedule;
use mesh_base::keys::UpperKey;
use std::marker::Model;

// The octets of a key.
fn octets_of(key: &UpperKey) -> &[u8; 16]
    ensures { result.now ≡ key_octets key.now }
{
    match key {
        UpperKey::Device(key) => key,
        UpperKey::App { key, .. } => key,
    }
}

/// An application key or a device key with its schedule. A clause sees it as the key.
#[derive(Drop)]
pub struct UpperSchedule {
    key: UpperKey,
    schedule: Schedule,
}

impl Model for UpperSchedule {
    ghost use Rattle.std.specs.Prelude.{◌≡◌};
    ghost use Rattle.mesh_base.specs.declared.keys.UpperKey.{UpperKey};
    ghost use Rattle.layer_definitions.specs.Upper.{key_octets};

    ghost Value = { UpperKey };

    ghost view = { λ k. k.key };

    ghost invariant = { λ k. k.schedule ≡ key_octets k.key };
}

impl UpperSchedule {
    /// This key with its schedule.
    pub fn new(key: &UpperKey) -> UpperSchedule
        ensures value { result ≡ key.now }
    {
        UpperSchedule {
            key: *key,
            schedule: Schedule::new(octets_of(key)),
        }
    }

    /// The key itself.
    pub fn key(&self) -> UpperKey
        ensures value { result ≡ self.now }
    {
        self.key
    }

    /// The schedule of its octets.
    pub fn schedule(&self) -> &Schedule
        ensures value { result.now ≡ key_octets self.now }
    {
        &self.schedule
    }
}

/// The device key of zeros, which fills the unused places of a table.
impl Default for UpperSchedule {
    ghost use Rattle.std.specs.Prelude.{⊤};

    ghost is_default = { λ _. ⊤ };

    fn default() -> UpperSchedule {
        UpperSchedule::new(&UpperKey::default())
    }
}

/// A value of an application key with its schedule, and what it is bound to.
#[derive(Drop)]
pub struct BoundSchedule {
    /// The index of the network key that the application key is bound to, 12 bits.
    pub net: u16,
    /// The index of the application key, 12 bits.
    pub index: u16,
    /// Whether it is the new value of a Key Refresh.
    pub fresh: bool,
    /// The value: an application key with its AID.
    pub key: UpperSchedule,
}

impl BoundSchedule {
    /// Whether the value is bound to the network key of this index and has this AID.
    pub fn fits(&self, net: u16, aid: u8) -> bool
        ensures value { result ≡ fits net aid self.now }
    {
        match self.key.key() {
            UpperKey::App { aid: id, .. } => self.net == net && id == aid,
            UpperKey::Device(_) => false,
        }
    }
}

/// The device key of zeros, bound to nothing, which fills the unused places of a table.
impl Default for BoundSchedule {
    ghost use Rattle.std.specs.Prelude.{⊤};

    ghost is_default = { λ _. ⊤ };

    fn default() -> BoundSchedule {
        BoundSchedule {
            net: 0,
            index: 0,
            fresh: false,
            key: UpperSchedule::default(),
        }
    }
}
