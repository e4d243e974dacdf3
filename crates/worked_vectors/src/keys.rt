//! Rows of network keys, credentials and beacons. Network keys are given by their number, and each as INDEX PHASE KEY NEW, with `-` where
//! there is no new key.
#![tactic(auto)]

use crate::row::Row;
use mesh_base::address::Address;
use mesh_base::fields::NetMaterial;
use mesh_base::keys::NetKeyRow;
use mesh_base::table::Table;
use net_keys::NetKeys;

// The next key.
fn key_row(row: &mut Row<'_>) -> NetKeyRow {
    let index = row.number16();
    let phase = row.number8();
    let key = row.octets();
    let next = row.text();
    let mut new = [0; 16];
    if next.len() == 16 {
        new.copy_from_slice(next.as_slice());
    }
    NetKeyRow {
        index,
        phase,
        key,
        next: if next.len() == 16 { Some(new) } else { None },
    }
}

// The next keys, at most 4.
fn key_rows(row: &mut Row<'_>) -> Table<NetKeyRow, 4> {
    let mut rows = Table::new();
    for _ in 0..row.number8() {
        let _ = rows.push(key_row(row));
    }
    rows
}

fn put_material(row: &mut Row<'_>, material: &NetMaterial) {
    row.put_octets(&[material.nid]);
    row.put_octets(&material.encryption);
    row.put_octets(&material.privacy);
}

/// `friendship KEY LPN FRIEND LPN-COUNTER FRIEND-COUNTER`: NID, EncryptionKey and PrivacyKey.
pub fn friendship(row: &mut Row<'_>) {
    let key = row.octets();
    let lpn = Address(row.number16());
    let friend = Address(row.number16());
    let lpn_counter = row.number16();
    let friend_counter = row.number16();
    let made = net_keys::friendship(&key, lpn, friend, lpn_counter, friend_counter);
    put_material(row, &made);
}

/// `candidates NID KEYS`: of each key that is tried on a PDU with this NID its index, whether it is the new one, and its EncryptionKey.
pub fn candidates(row: &mut Row<'_>) {
    let nid = row.number8();
    let keys = NetKeys::derive(key_rows(row).as_slice());
    for key in keys.candidates(nid).as_slice() {
        row.put_octets(&key.index.to_be_bytes());
        row.put_flag(key.fresh);
        row.put_octets(&key.material.encryption);
    }
}

/// `transmit INDEX KEYS`: NID, EncryptionKey and PrivacyKey of what is sent under the network key of this index, or `none`.
pub fn transmit(row: &mut Row<'_>) {
    let index = row.number16();
    let keys = NetKeys::derive(key_rows(row).as_slice());
    match keys.transmit(index) {
        Some(material) => put_material(row, &material),
        None => row.put("none"),
    }
}

/// `beacon KEY FLAGS IV`: the octets of the beacon.
pub fn beacon(row: &mut Row<'_>) {
    let key = row.octets();
    let flags = row.number8();
    let iv = row.number32();
    row.put_octets(&net_beacon::write(&key, flags, iv));
}

/// `read BEACON KEYS`: of the key that the beacon is of its index and whether it is the new one, then the flags Key Refresh and IV Update,
/// and the IV Index; or `unread`.
pub fn read(row: &mut Row<'_>) {
    let beacon = row.text();
    let keys = key_rows(row);
    match net_beacon::read(keys.as_slice(), beacon.as_slice()) {
        Ok(read) => {
            row.put_octets(&read.index.to_be_bytes());
            row.put_flag(read.fresh);
            row.put_flag(read.refresh);
            row.put_flag(read.update);
            row.put_octets(&read.iv.to_be_bytes());
        }
        Err(_) => row.put("unread"),
    }
}
