//! Keys of an outside node, each kept with what was derived from it.
#![tactic(auto)]

ghost use Rattle.std.specs.Prelude.{◌≡◌, ◌<◌, ◌^◌, ◌↔◌, IsTrue, IsFalse};
ghost use Rattle.cipher_definitions.specs.Kdf.{virtual_address};
ghost use Rattle.layer_definitions.specs.Network.{HasPdu, net_text};
ghost use Rattle.script_definitions.specs.Events as Said;

use mesh_base::fields::{NetFields, NetMaterial};
use mesh_base::keys::UpperKey;
use mesh_base::octets::Octets;
use mesh_kdf::{address, k4};
use net_keys::{friendship, master};
use network_layer::{NetSchedules, seal_kept};
use script_definitions::line::{ScriptNet, TalkKey};
use std::marker::Model;
use upper_transport::UpperSchedule;

/// What network PDUs are sealed with under network credentials of a script (Mesh Profile 1.0.1, section 3.8.6.3.1).
pub fn material(net: &ScriptNet) -> NetMaterial
    ensures value { result ≡ Said.material_of net.now }
    ensures nid { result.nid < 2 ^ 7 }
{
    match net {
        ScriptNet::Master(key) => master(key),
        ScriptNet::Friendship {
            key,
            lpn,
            friend,
            lpn_counter,
            friend_counter,
        } => friendship(key, *lpn, *friend, *lpn_counter, *friend_counter),
    }
}

/// Network credentials with their material and its schedules. A clause sees the credentials.
#[derive(Drop)]
pub(crate) struct KeptCredentials {
    net: ScriptNet,
    schedules: NetSchedules,
}

impl Model for KeptCredentials {
    ghost use Rattle.std.specs.Prelude.{◌≡◌, ◌<◌, ◌^◌};
    ghost use Rattle.script_definitions.specs.Events.{material_of};
    ghost use Rattle.script_definitions.specs.declared.line.ScriptNet.{ScriptNet};

    ghost Value = { ScriptNet };

    ghost view = { λ c. c.net };

    ghost invariant = { λ c. (c.schedules ≡ material_of c.net) × (c.schedules.nid < 2 ^ 7) };
}

impl KeptCredentials {
    /// These credentials, with what is derived from them.
    pub(crate) fn new(net: &ScriptNet) -> KeptCredentials
        ensures value { result ≡ net.now }
    {
        KeptCredentials {
            net: *net,
            schedules: NetSchedules::new(&material(net)),
        }
    }

    /// Whether it's these credentials that are kept.
    pub(crate) fn is_of(&self, net: &ScriptNet) -> bool
        ensures value { IsTrue result ↔ (self.now ≡ net.now) }
    {
        self.net == *net
    }

    /// The network PDU of these fields.
    pub(crate) fn seal(&self, fields: &NetFields) -> Octets<29>
        requires fields { HasPdu fields.now }
        ensures value { result ≡ net_text (Said.material_of self.now) fields.now }
    {
        seal_kept(&self.schedules, fields)
    }
}

/// The AID of a key, which is 0 for a device key.
#[tactic(auto, unfolding(cipher_definitions::specs::Kdf::aid))]
fn aid_of(key: &TalkKey) -> u8
    ensures value { result ≡ Said.aid_of key.now }
    ensures width { result < 2 ^ 6 }
{
    match key {
        TalkKey::Device(_) => 0,
        TalkKey::App(key) => k4(key),
    }
}

/// The key that seals the message, with its AID. Its index here is 0, and in no octet.
#[tactic(auto, unfolding(cipher_definitions::specs::Kdf::aid))]
fn upper_key(key: &TalkKey, aid: u8) -> UpperKey
    requires aid { aid ≡ Said.aid_of key.now }
    ensures value { result ≡ Said.upper_key key.now }
{
    match key {
        TalkKey::Device(key) => UpperKey::Device(*key),
        TalkKey::App(key) => UpperKey::App {
            index: 0,
            aid,
            key: *key,
        },
    }
}

/// A key of access messages with its AID and its schedule. A clause sees the key.
#[derive(Drop)]
pub(crate) struct KeptKey {
    key: TalkKey,
    aid: u8,
    schedule: UpperSchedule,
}

impl Model for KeptKey {
    ghost use Rattle.std.specs.Prelude.{◌≡◌, ◌<◌, ◌^◌};
    ghost use Rattle.script_definitions.specs.Events.{aid_of, upper_key};
    ghost use Rattle.script_definitions.specs.declared.line.TalkKey.{TalkKey};

    ghost Value = { TalkKey };

    ghost view = { λ k. k.key };

    ghost invariant = { λ k. (k.aid ≡ aid_of k.key) × (k.aid < 2 ^ 6) × (k.schedule ≡ upper_key k.key) };
}

impl KeptKey {
    /// This key, with what is derived from it.
    pub(crate) fn new(key: &TalkKey) -> KeptKey
        ensures value { result ≡ key.now }
    {
        let aid = aid_of(key);
        KeptKey {
            key: *key,
            aid,
            schedule: UpperSchedule::new(&upper_key(key, aid)),
        }
    }

    /// Whether it's this key that is kept.
    pub(crate) fn is_of(&self, key: &TalkKey) -> bool
        ensures value { IsTrue result ↔ (self.now ≡ key.now) }
    {
        self.key == *key
    }

    /// The key that seals the message, with its schedule.
    pub(crate) fn schedule(&self) -> &UpperSchedule
        ensures value { result.now ≡ Said.upper_key self.now }
    {
        &self.schedule
    }

    /// Whether an application key seals the message (AKF), and its AID, which is 0 for a device key.
    pub(crate) fn bits(&self) -> (bool, u8)
        ensures akf { result.0 ≡ Said.is_app self.now }
        ensures aid { result.1 ≡ Said.aid_of self.now }
        ensures width { result.1 < 2 ^ 6 }
        ensures device { IsFalse result.0 → result.1 ≡ 0 }
    {
        match self.key {
            TalkKey::Device(_) => (false, 0),
            TalkKey::App(_) => (true, self.aid),
        }
    }
}

/// A label with its virtual address. A clause sees the label.
#[derive(Drop)]
pub(crate) struct KeptLabel {
    label: [u8; 16],
    address: u16,
}

impl Model for KeptLabel {
    ghost use Rattle.std.specs.Prelude.{◌≡◌, ℕ, List};
    ghost use Rattle.cipher_definitions.specs.Kdf.{virtual_address};

    ghost Value = { List ℕ };

    ghost view = { λ l. l.label };

    ghost invariant = { λ l. l.address ≡ virtual_address l.label };
}

impl KeptLabel {
    /// This label, with its address.
    pub(crate) fn new(label: &[u8; 16]) -> KeptLabel
        ensures value { result ≡ label.now }
    {
        KeptLabel {
            label: *label,
            address: address(label),
        }
    }

    /// Whether it's this label that is kept.
    pub(crate) fn is_of(&self, label: &[u8; 16]) -> bool
        ensures value { IsTrue result ↔ (self.now ≡ label.now) }
    {
        self.label == *label
    }

    /// The virtual address of the label.
    pub(crate) fn address(&self) -> u16
        ensures value { result ≡ virtual_address self.now }
    {
        self.address
    }
}
