//! Network keys kept with what is derived of them for beacons, so that nothing is derived for a beacon that is heard.
#![tactic(auto)]

ghost use Rattle.std.specs.Prelude.{◌≡◌, ◌+◌, ◌≤◌, ◌↔◌, [], ◌∷◌, ◌++◌, length, IfSome, IsNone};
ghost use Rattle.std.specs.List.{find};
ghost use Rattle.std.specs.Option.{option_copied};
ghost use Rattle.arrayvec.specs.ArrayVec.{array_vec_len};
ghost use Rattle.cipher_definitions.specs.Kdf.{beacon_key, network_id};
ghost use Rattle.net_beacon.specs.Kept.{is_value, values_of};

use aes_block::Schedule;
use arrayvec::ArrayVec;
use mesh_base::keys::NetKeyRow;
use mesh_kdf::{k1, k3, s1};
use node_limits::{HEARD_NETWORK_KEYS, NETWORK_KEYS};
use std::marker::Model;
use std::mem;

/// The Network ID of a network key (section 3.8.6.3.2).
#[tactic(auto, unfolding(cipher_definitions::specs::Kdf::network_id))]
fn network_id(key: &[u8; 16]) -> [u8; 8]
    ensures value { result ≡ network_id key.now }
    ensures length { length result ≡ 8 }
{
    k3(key)
}

/// The key that authenticates the beacons of a network key (section 3.8.6.3.4).
#[tactic(auto, unfolding(cipher_definitions::specs::Kdf::beacon_key))]
fn beacon_key(key: &[u8; 16]) -> [u8; 16]
    ensures value { result ≡ beacon_key key.now }
    ensures length { length result ≡ 16 }
{
    k1(key, &s1(b"nkbk"), b"id128\x01")
}

/// A network key with its Network ID, and with the schedule of its BeaconKey. A clause sees it as the network key.
#[derive(Drop)]
pub struct BeaconKey {
    key: [u8; 16],
    pub(crate) id: [u8; 8],
    pub(crate) schedule: Schedule,
}

impl Model for BeaconKey {
    ghost use Rattle.std.specs.Prelude.{◌≡◌, List, ℕ};
    ghost use Rattle.cipher_definitions.specs.Kdf.{beacon_key, network_id};

    ghost Value = { List ℕ };

    ghost view = { λ k. k.key };

    ghost invariant = { λ k. (k.id ≡ network_id k.key) × (k.schedule ≡ beacon_key k.key) };
}

impl BeaconKey {
    /// This key with what is derived of it.
    pub fn new(key: &[u8; 16]) -> BeaconKey
        ensures value { result ≡ key.now }
    {
        BeaconKey {
            key: *key,
            id: network_id(key),
            schedule: Schedule::new(&beacon_key(key)),
        }
    }
}

// Whether this key is kept in a place.
fn is_in(place: &Option<BeaconKey>, key: &[u8; 16]) -> bool
    ensures { result ≡ is_value key.now place.now }
{
    match place {
        Some(kept) => kept.key.as_slice() == key.as_slice(),
        None => false,
    }
}

/// At most `HEARD_NETWORK_KEYS` network keys, each with its Network ID and the schedule of its BeaconKey. A clause sees it as the list of
/// these keys, each there.
#[derive(Drop)]
pub struct BeaconKeys {
    // None fills the unused places.
    kept: ArrayVec<Option<BeaconKey>, HEARD_NETWORK_KEYS>,
}

impl Model for BeaconKeys {
    ghost use Rattle.std.specs.Prelude.{List, Option, ℕ};

    ghost Value = { List (Option (List ℕ)) };

    ghost view = { λ k. k.kept.items };
}

// Puts the keys of a row behind the others, the old one before the new. What is kept already is taken.
fn add_keys(
    kept: &mut ArrayVec<Option<BeaconKey>, HEARD_NETWORK_KEYS>,
    before: &mut BeaconKeys,
    row: &NetKeyRow,
)
    requires room { array_vec_len kept.old + 2 ≤ HEARD_NETWORK_KEYS }
    ensures value { kept.new.items ≡ kept.old.items ++ values_of (row.now ∷ []) }
    ensures length { array_vec_len kept.new ≤ array_vec_len kept.old + 2 }
{
    kept.push(Some(before.take(&row.key)));
    if let Some(next) = &row.next {
        kept.push(Some(before.take(next)));
    }
}

impl BeaconKeys {
    /// The keys of these rows, at most `NETWORK_KEYS`, with what is derived of them here: the old key of a row before the new.
    pub fn derive(rows: &[NetKeyRow]) -> BeaconKeys
        requires room { length rows.now ≤ NETWORK_KEYS }
        ensures value { result ≡ values_of rows.now }
    {
        let none = BeaconKeys {
            kept: ArrayVec::new(),
        };
        none.renewed(rows)
    }

    // The keys of these rows, where these are those of before.
    fn renewed(mut self, rows: &[NetKeyRow]) -> BeaconKeys
        requires room { length rows.now ≤ NETWORK_KEYS }
        ensures value { result ≡ values_of rows.now }
    {
        let mut kept = ArrayVec::new();
        for row in rows {
            add_keys(&mut kept, &mut self, row);
        }
        BeaconKeys { kept }
    }

    /// The keys of these rows, at most `NETWORK_KEYS`, in place of those before. Nothing is derived of a key that stays.
    pub fn renew(&mut self, rows: &[NetKeyRow])
        requires room { length rows.now ≤ NETWORK_KEYS }
        ensures value { self.new ≡ values_of rows.now }
    {
        let before = BeaconKeys {
            kept: mem::replace(&mut self.kept, ArrayVec::new()),
        };
        *self = before.renewed(rows);
    }

    // What is kept of this key, which is taken out of its place, or else is derived.
    fn take(&mut self, key: &[u8; 16]) -> BeaconKey
        ensures value { result ≡ key.now }
    {
        for place in self.kept.as_mut_slice() {
            if is_in(place, key) {
                if let Some(kept) = place.take() {
                    return kept;
                }
            }
        }
        BeaconKey::new(key)
    }

    // The first place that has this key.
    fn place(&self, key: &[u8; 16]) -> Option<&Option<BeaconKey>>
        ensures { option_copied result ≡ find (is_value key.now) self.now }
    {
        self.kept.as_slice().iter().find(|place| is_in(place, key))
    }

    /// What is kept of this key. None exactly where it isn't among the keys.
    pub(crate) fn of(&self, key: &[u8; 16]) -> Option<&BeaconKey>
        ensures same { IfSome result (λ k. k.now ≡ key.now) }
        ensures none { IsNone result ↔ IsNone (find (is_value key.now) self.now) }
    {
        match self.place(key) {
            Some(place) => place.as_ref(),
            None => None,
        }
    }
}
