//! Which key has a beacon with given octets, and what the beacon says.
#![tactic(auto)]

ghost use Rattle.std.specs.Prelude.{◌≡◌, ℕ, ◌<◌, ◌^◌, ◌↔◌, bytes_eq, List, [], ◌∷◌, drop, length, take, IsErr, IsNone, IfOk, IfSome};
ghost use Rattle.mesh_base.specs.declared.keys.NetKeyRow.{NetKeyRow};
ghost use Rattle.layer_definitions.specs.Beacon.{beacon_text, ReadsBeacon, ReadsBeaconUnder};
ghost use Rattle.layer_definitions.specs.KeyRefresh.{beacon_keys, net_index};
ghost use Rattle.layer_definitions.specs.Order.{by_index, IsByIndex, put_row};
ghost use Rattle.net_beacon.specs.Reading.{IsAnswer, IsUnread};

use crate::kept::{BeaconKey, BeaconKeys};
use byteorder::{BigEndian, ByteOrder};
use mesh_base::beacon::Beacon;
use mesh_base::keys::NetKeyRow;
use thiserror::Error;

/// The octets are no beacon of any of the keys.
#[derive(Clone, Copy, Debug, PartialEq, Eq, Error)]
#[error("the octets are no beacon of any of the keys")]
pub struct Unread;

/// The flags and the IV Index in octets as long as a beacon.
fn fields_of(bytes: &[u8]) -> (u8, u32)
    requires { length bytes.now ≡ 22 }
    ensures { (key : List ℕ) (flags iv : ℕ) → ReadsBeaconUnder key bytes.now flags iv
        → (flags ≡ result.0) × (iv ≡ result.1) }
{
    (bytes[1], BigEndian::read_u32(&bytes[10..14]))
}

/// Whether octets as long as a beacon have this Network ID.
fn has_id(id: &[u8; 8], bytes: &[u8]) -> bool
    requires { length bytes.now ≡ 22 }
    ensures { result ≡ bytes_eq id.now (take 8 (drop 2 bytes.now)) }
{
    id.as_slice() == &bytes[2..10]
}

impl BeaconKey {
    /// The beacon of this key that has these octets, if there is one. Octets with another Network ID aren't authenticated. `index` and
    /// `fresh` say whose key it is.
    fn read(&self, index: u16, fresh: bool, bytes: &[u8]) -> Option<Beacon>
        ensures some { IfSome result (ReadsBeacon (record { index = index; fresh = fresh; key = self.now } ∷ []) bytes.now) }
        ensures none { IsNone result → IsUnread (record { index = index; fresh = fresh; key = self.now } ∷ []) bytes.now }
    {
        if bytes.len() != 22 {
            return None;
        }
        if !has_id(&self.id, bytes) {
            return None;
        }
        let (flags, iv) = fields_of(bytes);
        if self.write(flags, iv).as_slice() != bytes {
            return None;
        }
        Some(Beacon {
            index,
            fresh,
            refresh: flags % 2 == 1,
            update: flags / 2 % 2 == 1,
            iv,
        })
    }
}

impl BeaconKeys {
    /// The beacon of a key that has these octets, if there is one, by what is kept of the key.
    fn read_under(&self, index: u16, fresh: bool, key: &[u8; 16], bytes: &[u8]) -> Option<Beacon>
        ensures some { IfSome result (ReadsBeacon (record { index = index; fresh = fresh; key = key.now } ∷ []) bytes.now) }
        ensures none { IsNone result → IsUnread (record { index = index; fresh = fresh; key = key.now } ∷ []) bytes.now }
    {
        match self.of(key) {
            Some(kept) => kept.read(index, fresh, bytes),
            None => BeaconKey::new(key).read(index, fresh, bytes),
        }
    }

    /// The beacon of a key of this row that has these octets, if there is one: of the old key before the new one.
    fn read_row(&self, row: &NetKeyRow, bytes: &[u8]) -> Option<Beacon>
        ensures some { IfSome result (ReadsBeacon (beacon_keys (row.now ∷ [])) bytes.now) }
        ensures none { IsNone result → IsUnread (beacon_keys (row.now ∷ [])) bytes.now }
    {
        let old = self.read_under(row.index, false, &row.key, bytes);
        match (old, &row.next) {
            (None, Some(next)) => self.read_under(row.index, true, next, bytes),
            _ => old,
        }
    }

    /// The answer for some rows and for one behind them, from the answer for these rows.
    fn with_row(&self, answer: Option<Beacon>, row: &NetKeyRow, bytes: &[u8]) -> Option<Beacon>
        ensures { (rows : List NetKeyRow) → IsByIndex net_index rows → IsAnswer (beacon_keys rows) bytes.now answer
            → IsAnswer (beacon_keys (put_row net_index row.now rows)) bytes.now result }
    {
        match answer {
            Some(first) if first.index <= row.index => answer,
            _ => self.read_row(row, bytes).or(answer),
        }
    }

    /// The beacon of a key of these rows that has these octets, whatever bits 2 to 7 of its flags are. Of several keys the first
    /// by index of its row, of rows with one index by their order, and of a row the old key before the new one. `Unread` comes
    /// exactly where no key has a beacon with these octets. Nothing is derived of the keys that are kept.
    pub fn read(&self, rows: &[NetKeyRow], bytes: &[u8]) -> Result<Beacon, Unread>
        ensures ok { IfOk result (ReadsBeacon (beacon_keys (by_index net_index rows.now)) bytes.now) }
        ensures unread { IsErr result ↔ IsUnread (beacon_keys (by_index net_index rows.now)) bytes.now }
    {
        let mut answer = None;
        for row in rows {
            answer = self.with_row(answer, row, bytes);
        }
        answer.ok_or(Unread)
    }
}

/// What [`BeaconKeys::read`] says, where nothing is kept.
pub fn read(rows: &[NetKeyRow], bytes: &[u8]) -> Result<Beacon, Unread>
    ensures ok { IfOk result (ReadsBeacon (beacon_keys (by_index net_index rows.now)) bytes.now) }
    ensures unread { IsErr result ↔ IsUnread (beacon_keys (by_index net_index rows.now)) bytes.now }
{
    BeaconKeys::derive(&[]).read(rows, bytes)
}

/// The law of readings, for proofs: it does nothing. Octets have one reading under a key at most, the octets of a beacon read
/// as its fields, and rows that stand by index are read in the order in which they stand.
pub fn beacon_law()
    ensures one { (key octets : List ℕ) (f g iv other : ℕ) → ReadsBeaconUnder key octets f iv
        → ReadsBeaconUnder key octets g other → (f ≡ g) × (iv ≡ other) }
    ensures itself { (key : List ℕ) (flags iv : ℕ) → flags < 2 ^ 8 → iv < 2 ^ 32
        → ReadsBeaconUnder key (beacon_text key flags iv) flags iv }
    ensures order { (rows : List NetKeyRow) → IsByIndex net_index rows → by_index net_index rows ≡ rows }
{}
