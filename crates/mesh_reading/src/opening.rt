//! What the octets of an upper transport access PDU open to (Mesh Profile 1.0.1, sections 3.6.4.2 and 3.8.7.1).
#![tactic(auto)]

ghost use Rattle.std.specs.Prelude.{◌≡◌, ◌≤◌, ℕ, [], ◌∷◌, length, if◌then◌else◌};
ghost use Rattle.std.specs.Option.{option_map};
ghost use Rattle.layer_definitions.specs.KeyRefresh.{app_keys};
ghost use Rattle.mesh_base.specs.Address.{is_unicast};
ghost use Rattle.mesh_base.specs.declared.keys.UpperKey.TheVariants.{Device};
ghost use Rattle.mesh_reading.specs.Held.{held_in, opening_of, reading_of};
ghost use Rattle.event_definitions.specs.Readings.{IsOpenedByLabel, IsOpenedFor, IsOpenedUnder, fields_heard, keys_tried};
ghost use Rattle.store_definitions.specs.Config.{Config};

use crate::keys::Keys;
use mesh_base::keys::UpperKey;
use mesh_base::octets::Octets;
use mesh_base::pair::Name;
use mesh_base::upper::UpperFields;
use network_layer::NetReading;
use upper_transport::{open_kept, unseal_bound};

/// What an access message says of its seal.
#[derive(Drop)]
pub struct SealedBy {
    /// Whether an application key sealed it; else the device key.
    pub akf: bool,
    /// AID, 6 bits; 0 with the device key.
    pub aid: u8,
    /// Whether the TransMIC has 8 octets; else 4.
    pub long_mic: bool,
}

/// An access message that opened. It holds a key, so it isn't printed.
#[derive(Drop)]
pub struct Opened {
    /// The key that opened it.
    pub key: UpperKey,
    /// The label that it was sealed with, where DST is virtual.
    pub label: Option<[u8; 16]>,
    /// The access payload, 1 to 380 octets.
    pub payload: Octets<380>,
}

impl Keys {
    // With the application keys of this network key and this AID, where no label was used.
    fn open_plain(&self, net: u16, aid: u8, f: &UpperFields, upper: &[u8]) -> Option<Opened>
        requires { length upper.now ≤ 384 }
        ensures value { IsOpenedUnder (app_keys self.now.apps net aid) f.now upper.now (option_map opening_of result) }
    {
        match unseal_bound(self.apps.values(), net, aid, f, upper) {
            Ok(opened) => {
                let keys = self.apps.candidates(net, aid);
                Some(Opened {
                    key: keys.as_slice()[opened.at as usize],
                    label: None,
                    payload: opened.payload,
                })
            }
            Err(_) => None,
        }
    }

    // With those application keys, where DST is virtual.
    fn open_labelled(&self, net: u16, aid: u8, f: &UpperFields, upper: &[u8]) -> Option<Opened>
        requires { length upper.now ≤ 384 }
        ensures value { IsOpenedByLabel (app_keys self.now.apps net aid) self.now.labels f.now upper.now
            (option_map opening_of result) }
    {
        match self.labels.unseal(self.apps.values(), net, aid, f, upper) {
            Ok(found) => {
                let keys = self.apps.candidates(net, aid);
                Some(Opened {
                    key: keys.as_slice()[found.opened.at as usize],
                    label: Some(self.labels.as_slice()[found.label as usize]),
                    payload: found.opened.payload,
                })
            }
            Err(_) => None,
        }
    }

    // With the device key.
    fn open_device(&self, f: &UpperFields, upper: &[u8]) -> Option<Opened>
        requires { length upper.now ≤ 384 }
        ensures value { IsOpenedUnder (Device self.now.device ∷ []) f.now upper.now (option_map opening_of result) }
    {
        let payload = open_kept(&self.device, f, upper)?;
        Some(Opened {
            key: self.device.key(),
            label: None,
            payload,
        })
    }

    // With application keys.
    fn open_app(&self, net: u16, aid: u8, f: &UpperFields, upper: &[u8]) -> Option<Opened>
        requires { length upper.now ≤ 384 }
        ensures value { (c : Config) → self.now ≡ held_in c
            → IsOpenedFor c (app_keys c.apps net aid) f.now upper.now (option_map opening_of result) }
    {
        if f.dst.is_virtual() {
            self.open_labelled(net, aid, f, upper)
        } else {
            self.open_plain(net, aid, f, upper)
        }
    }

    // With the device key where DST is unicast, and else with none.
    fn open_own(&self, f: &UpperFields, upper: &[u8]) -> Option<Opened>
        requires { length upper.now ≤ 384 }
        ensures value { (c : Config) → self.now ≡ held_in c
            → IsOpenedFor c (if is_unicast f.now.dst then Device c.dev_key ∷ [] else []) f.now upper.now
            (option_map opening_of result) }
    {
        if f.dst.is_unicast() {
            self.open_device(f, upper)
        } else {
            None
        }
    }

    /// What the octets of an upper transport access PDU, at most 384, open to: with AKF under the first of the application keys of the
    /// network key heard that have this AID, and else under the device key where DST is unicast. Where DST is virtual, with the first of the
    /// labels of this address, too. `name` is the message's, with SeqAuth. None exactly where nothing opens it.
    pub fn open(
        &self,
        r: &NetReading,
        name: &Name,
        sealed: &SealedBy,
        upper: &[u8],
    ) -> Option<Opened>
        requires { length upper.now ≤ 384 }
        ensures value { (c : Config) → self.now ≡ held_in c
            → IsOpenedFor c (keys_tried c (reading_of r.now) sealed.now.akf sealed.now.aid)
            (fields_heard (reading_of r.now) name.now sealed.now.long_mic) upper.now
            (option_map opening_of result) }
    {
        let f = UpperFields {
            pair: name.pair,
            src: r.fields.src,
            dst: r.fields.dst,
            long_mic: sealed.long_mic,
            label: None,
        };
        if sealed.akf {
            self.open_app(r.by.index, sealed.aid, &f, upper)
        } else {
            self.open_own(&f, upper)
        }
    }
}
