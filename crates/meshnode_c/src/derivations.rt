//! The key derivations of a mesh network (Mesh Profile 1.0.1, section 3.8.2), and the virtual address of a label (section 3.4.2.3).
#![tactic(auto)]

ghost use Rattle.std.specs.Prelude.{◌≡◌, ◌≢◌, ◌↔◌, ◌≤◌, length};
ghost use Rattle.cipher_definitions.specs.Kdf.{k1, k2, k3, k4, s1, virtual_address};

use crate::arrays::{KEY, key_of};
use crate::credentials::MeshnodeCredentials;
use mesh_kdf::{K2, address, k1 as k1_of, k2 as k2_of, k3 as k3_of, k4 as k4_of, s1 as s1_of};
use node_handle::status::{LENGTH, OK};

/// Octets of what k3 derives.
const ID: usize = 8;

/// Octets of P of k2, at most.
const MOST_P: usize = 32;

/// s1: a salt of 16 octets from a text of any length.
#[unsafe(no_mangle)]
pub extern "C" fn meshnode_s1(message: &[u8], salt: &mut [u8]) -> u32
    ensures when { result ≡ 0 ↔ length salt.old ≡ 16 }
    ensures value { result ≡ 0 → salt.new ≡ s1 message.now }
    ensures refused { result ≢ 0 → (result ≡ 1) × (salt.new ≡ salt.old) }
{
    if salt.len() != KEY {
        return LENGTH;
    }
    salt.copy_from_slice(&s1_of(message));
    OK
}

/// k1: a key of 16 octets from key material, a salt of 16 octets and a text.
#[unsafe(no_mangle)]
pub extern "C" fn meshnode_k1(n: &[u8], salt: &[u8], p: &[u8], key: &mut [u8]) -> u32
    ensures when { result ≡ 0 ↔ (length salt.now ≡ 16) × (length key.old ≡ 16) }
    ensures value { result ≡ 0 → key.new ≡ k1 n.now salt.now p.now }
    ensures refused { result ≢ 0 → (result ≡ 1) × (key.new ≡ key.old) }
{
    if salt.len() != KEY || key.len() != KEY {
        return LENGTH;
    }
    key.copy_from_slice(&k1_of(n, &key_of(salt), p));
    OK
}

/// k2: credentials from a network key of 16 octets and P, 1 to 32 octets: 00 for the master credentials.
#[unsafe(no_mangle)]
pub extern "C" fn meshnode_k2(n: &[u8], p: &[u8], to: &mut MeshnodeCredentials) -> u32
    ensures when { result ≡ 0 ↔ (length n.now ≡ 16) × (1 ≤ length p.now) × (length p.now ≤ 32) }
    ensures nid { result ≡ 0 → to.new.nid ≡ (k2 n.now p.now).nid }
    ensures encryption { result ≡ 0 → to.new.encryption ≡ (k2 n.now p.now).encryption }
    ensures privacy { result ≡ 0 → to.new.privacy ≡ (k2 n.now p.now).privacy }
    ensures refused { result ≢ 0 → (result ≡ 1) × (to.new ≡ to.old) }
{
    if n.len() != KEY || p.is_empty() || p.len() > MOST_P {
        return LENGTH;
    }
    let K2 {
        nid,
        encryption,
        privacy,
    } = k2_of(&key_of(n), p);
    *to = MeshnodeCredentials {
        nid,
        encryption,
        privacy,
    };
    OK
}

/// k3: the Network ID, 8 octets, of a network key of 16.
#[unsafe(no_mangle)]
pub extern "C" fn meshnode_k3(n: &[u8], id: &mut [u8]) -> u32
    ensures when { result ≡ 0 ↔ (length n.now ≡ 16) × (length id.old ≡ 8) }
    ensures value { result ≡ 0 → id.new ≡ k3 n.now }
    ensures refused { result ≢ 0 → (result ≡ 1) × (id.new ≡ id.old) }
{
    if n.len() != KEY || id.len() != ID {
        return LENGTH;
    }
    id.copy_from_slice(&k3_of(&key_of(n)));
    OK
}

/// k4: the AID, 6 bits, of an application key of 16 octets.
#[unsafe(no_mangle)]
pub extern "C" fn meshnode_k4(n: &[u8], aid: &mut u8) -> u32
    ensures when { result ≡ 0 ↔ length n.now ≡ 16 }
    ensures value { result ≡ 0 → aid.new ≡ k4 n.now }
    ensures refused { result ≢ 0 → (result ≡ 1) × (aid.new ≡ aid.old) }
{
    if n.len() != KEY {
        return LENGTH;
    }
    *aid = k4_of(&key_of(n));
    OK
}

/// The virtual address, 8000 to bfff, of a label of 16 octets.
#[unsafe(no_mangle)]
pub extern "C" fn meshnode_virtual_address(label: &[u8], dst: &mut u16) -> u32
    ensures when { result ≡ 0 ↔ length label.now ≡ 16 }
    ensures value { result ≡ 0 → dst.new ≡ virtual_address label.now }
    ensures refused { result ≢ 0 → (result ≡ 1) × (dst.new ≡ dst.old) }
{
    if label.len() != KEY {
        return LENGTH;
    }
    *dst = address(&key_of(label));
    OK
}
