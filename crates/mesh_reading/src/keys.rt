//! The keys that a node holds.
#![tactic(auto)]

ghost use Rattle.std.specs.Prelude.{◌≡◌, ◌≤◌, ◌<◌, length};
ghost use Rattle.mesh_reading.specs.Held.{held_in, AreHeldKeys};
ghost use Rattle.mesh_reading.specs.Rows.{labels_of};
ghost use Rattle.net_beacon.specs.Kept.{values_of};
ghost use Rattle.node_records.specs.Tables.{config_in};
ghost use Rattle.virtual_labels.specs.Addresses.{has_address};

use app_keys::AppKeys;
use kept_keys::UpperSchedule;
use mesh_base::address::Address;
use mesh_base::keys::UpperKey;
use net_beacon::BeaconKeys;
use net_keys::NetKeys;
use node_limits::LABEL_SUBSCRIPTIONS;
use node_records::Persist;
use std::marker::Model;
use virtual_labels::Labels;

/// The keys that a node holds, with all that is derived from them: material and schedules of its network keys, their Network IDs and
/// BeaconKeys, AIDs and schedules of its application keys, the schedule of its device key, and the virtual addresses of its labels. A clause
/// sees them as the keys alone.
#[derive(Drop)]
pub struct Keys {
    pub(crate) nets: NetKeys,
    pub(crate) beacons: BeaconKeys,
    pub(crate) apps: AppKeys,
    pub(crate) device: UpperSchedule,
    pub(crate) labels: Labels,
}

impl Model for Keys {
    ghost use Rattle.std.specs.Prelude.{◌≡◌};
    ghost use Rattle.layer_definitions.specs.Upper.{key_octets};
    ghost use Rattle.mesh_base.specs.declared.keys.UpperKey.TheVariants.{Device};
    ghost use Rattle.mesh_reading.specs.Keys.{HeldKeys};
    ghost use Rattle.net_beacon.specs.Kept.{values_of};

    ghost Value = { HeldKeys };

    ghost view = { λ k. record { nets = k.nets; apps = k.apps.apps; device = key_octets k.device; labels = k.labels } };

    ghost invariant = { λ k. (k.apps.nets ≡ k.nets) × (k.device ≡ Device (key_octets k.device)) × (k.beacons ≡ values_of k.nets) };
}

// The labels of these subscriptions, in their order. The addresses of those that are among `before` are taken from there.
fn labels_renewed(before: &Labels, rows: &[(Address, u16, [u8; 16])]) -> Labels
    requires { length rows.now ≤ LABEL_SUBSCRIPTIONS }
    ensures { result ≡ labels_of rows.now }
{
    let mut labels = Labels::new();
    for row in rows {
        labels.push_kept(before, &row.2);
    }
    labels
}

impl Keys {
    /// The keys that the records of a node say, and what is derived from them.
    pub fn derive(p: &Persist) -> Keys
        requires { AreHeldKeys (config_in p.now) }
        ensures value { result ≡ held_in (config_in p.now) }
    {
        Keys {
            nets: NetKeys::derive(p.nets.as_slice()),
            beacons: BeaconKeys::derive(p.nets.as_slice()),
            apps: AppKeys::derive(p.apps.as_slice(), p.nets.as_slice()),
            device: UpperSchedule::new(&UpperKey::Device(p.dev_key)),
            labels: labels_renewed(&Labels::new(), p.labels.as_slice()),
        }
    }

    /// The keys that the records of a node say, in place of those before. Of a key or a label that stays nothing is derived: its material, Network
    /// ID, BeaconKey, AID or address is taken from those before.
    pub fn renew(&mut self, p: &Persist)
        requires { AreHeldKeys (config_in p.now) }
        ensures value { self.new ≡ held_in (config_in p.now) }
    {
        self.nets.renew(p.nets.as_slice());
        self.beacons.renew(p.nets.as_slice());
        self.apps.renew(p.apps.as_slice(), p.nets.as_slice());
        self.device = UpperSchedule::new(&UpperKey::Device(p.dev_key));
        self.labels = labels_renewed(&self.labels, p.labels.as_slice());
    }

    /// The network keys.
    pub fn nets(&self) -> &NetKeys
        ensures value { result.now ≡ self.now.nets }
    {
        &self.nets
    }

    /// The network keys as their beacons are read.
    pub fn beacons(&self) -> &BeaconKeys
        ensures value { result.now ≡ values_of self.now.nets }
    {
        &self.beacons
    }

    /// The application keys, beside the same network keys.
    pub fn apps(&self) -> &AppKeys
        ensures apps { result.now.apps ≡ self.now.apps }
        ensures nets { result.now.nets ≡ self.now.nets }
    {
        &self.apps
    }

    /// Whether an address is the virtual address of a label held.
    pub fn is_labelled(&self, address: Address) -> bool
        ensures value { result ≡ has_address self.now.labels address }
    {
        self.labels.has(address)
    }
}
