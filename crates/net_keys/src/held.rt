//! The keys that are heard, with their schedules, in the order in which they are tried.
#![tactic(auto)]

ghost use Rattle.std.specs.Prelude.{◌≡◌, ℕ, ◌+◌, ◌*◌, ◌≤◌, ◌<◌, ◌==◌, ◌&&◌, [], ◌∷◌, ◌++◌, Bool, true, length, filter};
ghost use Rattle.std.specs.List.{find};
ghost use Rattle.std.specs.Option.{option_copied, option_map};
ghost use Rattle.arrayvec.specs.ArrayVec.{array_vec_len};
ghost use Rattle.mesh_base.specs.declared.fields.Heard.{Heard};
ghost use Rattle.layer_definitions.specs.KeyRefresh.{heard_key, heard_keys, keys_of, master_material, net_row, transmit_material};
ghost use Rattle.net_keys.specs.Held.{octets_of, sends_new, AreMaterials};

use crate::credentials::master;
use arrayvec::ArrayVec;
use kept_keys::HeardSchedules;
use mesh_base::fields::{Heard, NetMaterial};
use mesh_base::keys::{NetKeyRow, net_row};
use mesh_base::table::HeardList;
use node_limits::{HEARD_NETWORK_KEYS, NETWORK_KEYS};

// Puts the octets of the keys of a row behind the others, the old one before the new.
fn add_octets(octets: &mut ArrayVec<[u8; 16], HEARD_NETWORK_KEYS>, row: &NetKeyRow)
    requires room { array_vec_len octets.old + 2 ≤ HEARD_NETWORK_KEYS }
    ensures value { octets.new.items ≡ octets.old.items ++ keys_of (λ fresh key. key) row.now.key row.now.next }
    ensures length { array_vec_len octets.new ≤ array_vec_len octets.old + 2 }
{
    octets.push(row.key);
    if let Some(next) = &row.next {
        octets.push(*next);
    }
}

/// The octets of the keys of these rows, in the order in which they are heard.
pub(crate) fn octets_of(rows: &[NetKeyRow]) -> ArrayVec<[u8; 16], HEARD_NETWORK_KEYS>
    requires room { length rows.now ≤ NETWORK_KEYS }
    ensures value { result.items ≡ octets_of rows.now }
{
    let mut octets = ArrayVec::new();
    for row in rows {
        add_octets(&mut octets, row);
    }
    octets
}

// Whether two keys are the same.
fn are_same(one: &[u8; 16], other: &[u8; 16]) -> bool
    ensures { result ≡ true → one.now ≡ other.now }
{
    one.as_slice() == other.as_slice()
}

// The master credentials of a key: those of before, if it is among these, and else they are derived.
fn material_of(octets: &[[u8; 16]], before: &[HeardSchedules], key: &[u8; 16]) -> NetMaterial
    requires { AreMaterials octets.now before.now }
    ensures { result ≡ master_material key.now }
{
    for (place, kept) in octets.iter().enumerate() {
        if are_same(kept, key) {
            return before[place].heard().material;
        }
    }
    master(key)
}

/// The keys of before: their octets, and what is heard under them.
#[derive(Drop)]
pub(crate) struct Before<'a> {
    pub octets: &'a [[u8; 16]],
    pub heard: &'a [HeardSchedules],
}

// The master credentials of a key, with their schedules.
fn kept(before: &Before<'_>, index: u16, fresh: bool, key: &[u8; 16]) -> HeardSchedules
    requires { AreMaterials before.now.octets.now before.now.heard.now }
    ensures value { result ≡ heard_key index fresh key.now }
{
    HeardSchedules::new(&Heard {
        index,
        lpn: None,
        fresh,
        material: material_of(before.octets, before.heard, key),
    })
}

// Puts the keys of a row behind the others, the old one before the new.
fn add_keys(
    heard: &mut ArrayVec<HeardSchedules, HEARD_NETWORK_KEYS>,
    before: &Before<'_>,
    row: &NetKeyRow,
)
    requires before { AreMaterials before.now.octets.now before.now.heard.now }
    requires room { array_vec_len heard.old + 2 ≤ HEARD_NETWORK_KEYS }
    ensures value { heard.new.items ≡ heard.old.items ++ keys_of (heard_key row.now.index) row.now.key row.now.next }
    ensures length { array_vec_len heard.new ≤ array_vec_len heard.old + 2 }
{
    heard.push(kept(before, row.index, false, &row.key));
    if let Some(next) = &row.next {
        heard.push(kept(before, row.index, true, next));
    }
}

/// The keys of these rows. Nothing is derived of one that is among those of before.
pub(crate) fn keep(
    rows: &[NetKeyRow],
    before: &Before<'_>,
) -> ArrayVec<HeardSchedules, HEARD_NETWORK_KEYS>
    requires room { length rows.now ≤ NETWORK_KEYS }
    requires before { AreMaterials before.now.octets.now before.now.heard.now }
    ensures value { result.items ≡ heard_keys rows.now }
{
    let mut heard = ArrayVec::new();
    for row in rows {
        add_keys(&mut heard, before, row);
    }
    heard
}

/// Puts a key behind the others, if it has this NID.
pub(crate) fn add(list: &mut HeardList, nid: u8, heard: Heard)
    requires room { length list.old < 10 }
    ensures value { list.new ≡ list.old ++ filter (λ (h : Heard). h.material.nid == nid) (heard ∷ []) }
    ensures length { length list.new ≤ length list.old + 1 }
{
    if heard.material.nid == nid {
        let _ = list.push(heard);
    }
}

// Whether what is sent goes under the new key: in phase 2.
fn sends_new(row: &NetKeyRow) -> bool
    ensures { result ≡ sends_new row.now }
{
    row.phase == 2 && row.next.is_some()
}

// The first key of this index.
fn old_at(heard: &[HeardSchedules], index: u16) -> Option<&HeardSchedules>
    ensures { option_copied result ≡ find (λ (h : Heard). h.index == index) heard.now }
{
    heard.iter().find(|key| key.index() == index)
}

// The first new key of this index.
fn new_at(heard: &[HeardSchedules], index: u16) -> Option<&HeardSchedules>
    ensures { option_copied result ≡ find (λ (h : Heard). (h.index == index) && h.fresh) heard.now }
{
    heard
        .iter()
        .find(|key| key.index() == index && key.is_fresh())
}

/// The key that seals what is sent under a network key index: that of its row, the new one in phase 2.
pub(crate) fn sent_under<'a>(
    rows: &[NetKeyRow],
    heard: &'a [HeardSchedules],
    index: u16,
) -> Option<&'a HeardSchedules>
    requires { heard.now ≡ heard_keys rows.now }
    ensures value { option_map (λ (h : Heard). h.material) (option_copied result) ≡ transmit_material rows.now index }
{
    let row = net_row(rows, index)?;
    if sends_new(row) {
        new_at(heard, index)
    } else {
        old_at(heard, index)
    }
}
