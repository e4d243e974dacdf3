//! What is kept of the keys that were sealed with last: their schedules, so that the next PDU under the same keys is sealed without deriving
//! them anew.
#![tactic(auto)]

ghost use Rattle.std.specs.Prelude.{◌≡◌, ◌+◌, ◌≤◌, ◌<◌, ◌^◌, length};
ghost use Rattle.layer_definitions.specs.Network.{HasPdu, net_text};
ghost use Rattle.layer_definitions.specs.Upper.{trans_mic_length, upper_text};

use kept_keys::{NetSchedules, UpperSchedule, is_same_material};
use mesh_base::fields::{NetFields, NetMaterial};
use mesh_base::keys::UpperKey;
use mesh_base::octets::Octets;
use mesh_base::upper::UpperFields;
use std::marker::Model;

/// Network material with its schedules.
#[derive(Drop)]
struct KeptNet {
    material: NetMaterial,
    schedules: NetSchedules,
}

impl Model for KeptNet {
    ghost use Rattle.std.specs.Prelude.{◌≡◌};
    ghost use Rattle.mesh_base.specs.declared.fields.NetMaterial.{NetMaterial};

    ghost Value = { NetMaterial };

    ghost view = { λ k. k.material };

    ghost invariant = { λ k. k.schedules ≡ k.material };
}

/// The schedules of the network material and of the key of messages that were sealed with last. What is sealed is the same whatever is
/// kept, so a clause sees nothing of it.
#[derive(Drop)]
pub struct KeptSeals {
    net: Option<KeptNet>,
    upper: Option<UpperSchedule>,
}

impl Model for KeptSeals {
    ghost use Rattle.std.specs.Prelude.{⊤};

    ghost Value = { ⊤ };

    ghost view = { λ _. tt };
}

impl KeptSeals {
    /// Nothing was sealed yet.
    pub fn new() -> KeptSeals {
        KeptSeals {
            net: None,
            upper: None,
        }
    }

    /// The octets of the network PDU of these fields under this material. NID is below 128.
    pub(crate) fn seal(&mut self, material: &NetMaterial, fields: &NetFields) -> Octets<29>
        requires nid { material.now.nid < 2 ^ 7 }
        requires fields { HasPdu fields.now }
        ensures value { result ≡ net_text material.now fields.now }
    {
        match &self.net {
            Some(kept) if is_same_material(&kept.material, material) => {
                network_layer::seal_kept(&kept.schedules, fields)
            }
            _ => {
                let kept = self.net.insert(KeptNet {
                    material: *material,
                    schedules: NetSchedules::new(material),
                });
                network_layer::seal_kept(&kept.schedules, fields)
            }
        }
    }

    /// The octets of the upper transport access PDU of this payload under this key: at least one octet, and with its TransMIC at most 384.
    pub(crate) fn seal_access(
        &mut self,
        key: &UpperKey,
        fields: &UpperFields,
        payload: &[u8],
    ) -> Octets<384>
        requires least { 1 ≤ length payload.now }
        requires most { length payload.now + trans_mic_length fields.now.long_mic ≤ 384 }
        ensures value { result ≡ upper_text key.now fields.now payload.now }
    {
        match &self.upper {
            Some(kept) if kept.key() == *key => upper_transport::seal_kept(kept, fields, payload),
            _ => {
                let kept = self.upper.insert(UpperSchedule::new(key));
                upper_transport::seal_kept(kept, fields, payload)
            }
        }
    }
}
