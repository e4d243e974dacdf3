//! The key derivation functions of the Mesh Profile 1.0.1, section 3.8.2.
#![tactic(auto)]

ghost use Rattle.std.specs.Prelude.{◌≡◌, ◌<◌, ◌≤◌, ◌+◌, ◌/◌, ◌%◌, ◌^◌, length, ℕ, [], ◌∷◌, ◌++◌, slice_index_or};
ghost use Rattle.cipher_definitions.specs.Octets.{number_of, octets_of};
ghost use Rattle.cipher_definitions.specs.Cmac.{cmac};
ghost use Rattle.cipher_definitions.specs.Kdf.{s1, k1, k2, k3, k4, virtual_address};

use crate::credentials::K2;
use crate::mac::cmac;
use arrayvec::ArrayVec;

/// s1: a salt from a text of any length (section 3.8.2.4).
#[tactic(auto, unfolding(cipher_definitions::specs::Kdf::s1))]
pub fn s1(m: &[u8]) -> [u8; 16]
    ensures value { result ≡ s1 m.now }
    ensures length { length result ≡ 16 }
{
    cmac(&[0; 16], m)
}

/// k1: a key from key material, a salt and a text (section 3.8.2.5).
#[tactic(auto, unfolding(cipher_definitions::specs::Kdf::k1))]
pub fn k1(n: &[u8], salt: &[u8; 16], p: &[u8]) -> [u8; 16]
    ensures value { result ≡ k1 n.now salt.now p.now }
    ensures length { length result ≡ 16 }
{
    cmac(&cmac(salt, n), p)
}

/// k2: NID, EncryptionKey and PrivacyKey from a network key and P, which is 00 for the master credentials and has 9 octets
/// for those of a friendship (section 3.8.2.6). P has 1 to 32 octets.
#[tactic(auto, unfolding(cipher_definitions::specs::Kdf::k2, cipher_definitions::specs::Kdf::k2_number, cipher_definitions::specs::Kdf::k2_first, cipher_definitions::specs::Kdf::k2_second, cipher_definitions::specs::Kdf::k2_third))]
pub fn k2(n: &[u8; 16], p: &[u8]) -> K2
    requires some { 1 ≤ length p.now }
    requires room { length p.now ≤ 32 }
    ensures nid { result.nid ≡ (k2 n.now p.now).nid }
    ensures encryption { result.encryption ≡ (k2 n.now p.now).encryption }
    ensures privacy { result.privacy ≡ (k2 n.now p.now).privacy }
    ensures width { result.nid < 128 }
{
    let t = derived_key(b"smk2", n);
    let first = numbered(&t, &[], p, 1);
    let second = numbered(&t, &first, p, 2);
    let third = numbered(&t, &second, p, 3);
    last_263_bits(&first, &second, &third)
}

/// k3: a public identifier of 8 octets from a network key (section 3.8.2.7).
#[tactic(auto, unfolding(cipher_definitions::specs::Kdf::k3))]
pub fn k3(n: &[u8; 16]) -> [u8; 8]
    ensures value { result ≡ k3 n.now }
    ensures length { length result ≡ 8 }
{
    last_64_bits(&cmac(&derived_key(b"smk3", n), b"id64\x01"))
}

/// k4: a public identifier of 6 bits from an application key (section 3.8.2.8).
#[tactic(auto, unfolding(cipher_definitions::specs::Kdf::k4))]
pub fn k4(n: &[u8; 16]) -> u8
    ensures value { result ≡ k4 n.now }
    ensures width { result < 64 }
{
    last_6_bits(&cmac(&derived_key(b"smk4", n), b"id6\x01"))
}

/// The virtual address of a label, 8000 to bfff (section 3.4.2.3).
#[tactic(auto, unfolding(cipher_definitions::specs::Kdf::virtual_address))]
pub fn address(label: &[u8; 16]) -> u16
    ensures value { result ≡ virtual_address label.now }
    ensures least { 2 ^ 15 ≤ result }
    ensures most { result < 2 ^ 15 + 2 ^ 14 }
{
    0x8000 + last_14_bits(&cmac(&s1(b"vtad"), label))
}

/// T of k2, k3 and k4: the key of their last steps, by the name of the function.
fn derived_key(name: &[u8; 4], n: &[u8; 16]) -> [u8; 16]
    ensures value { result ≡ cmac (s1 name.now) n.now }
    ensures length { length result ≡ 16 }
{
    cmac(&s1(name), n)
}

/// AES-CMAC under T of what came before, of P and of a number.
fn numbered(t: &[u8; 16], before: &[u8], p: &[u8], number: u8) -> [u8; 16]
    requires before { length before.now ≤ 16 }
    requires room { length p.now ≤ 32 }
    ensures value { result ≡ cmac t.now (before.now ++ p.now ++ number ∷ []) }
    ensures length { length result ≡ 16 }
{
    let mut message = ArrayVec::<u8, 49>::new();
    let _ = message.try_extend_from_slice(before);
    let _ = message.try_extend_from_slice(p);
    message.push(number);
    cmac(t, message.as_slice())
}

/// The last 263 of the 384 bits of three blocks: NID of 7 bits, and two keys.
fn last_263_bits(first: &[u8; 16], second: &[u8; 16], third: &[u8; 16]) -> K2
    ensures nid { result.nid ≡ number_of (first.now ++ second.now ++ third.now) % 2 ^ 263 / 2 ^ 256 }
    ensures encryption { result.encryption
        ≡ octets_of 16 (number_of (first.now ++ second.now ++ third.now) % 2 ^ 263 / 2 ^ 128) }
    ensures privacy { result.privacy ≡ octets_of 16 (number_of (first.now ++ second.now ++ third.now) % 2 ^ 263) }
    ensures width { result.nid < 128 }
{
    are_octets(first);
    are_octets(second);
    are_octets(third);
    K2 {
        nid: first[15] % 128,
        encryption: *second,
        privacy: *third,
    }
}

/// The last 64 bits of a block.
fn last_64_bits(block: &[u8; 16]) -> [u8; 8]
    ensures value { result ≡ octets_of 8 (number_of block.now % 2 ^ 64) }
    ensures length { length result ≡ 8 }
{
    let mut low = [0; 8];
    low.copy_from_slice(&block[8..16]);
    low
}

/// The last 6 bits of a block.
fn last_6_bits(block: &[u8; 16]) -> u8
    ensures value { result ≡ number_of block.now % 2 ^ 6 }
    ensures width { result < 64 }
{
    block[15] % 64
}

/// The last 14 bits of a block.
fn last_14_bits(block: &[u8; 16]) -> u16
    ensures value { result ≡ number_of block.now % 2 ^ 14 }
    ensures width { result < 2 ^ 14 }
{
    u16::from_be_bytes([block[14], block[15]]) % 0x4000
}

/// What the type of a slice says of its items, as a clause that a proof can cite.
fn are_octets(octets: &[u8])
    ensures { (i : ℕ) → slice_index_or octets.now i 0 < 256 }
{}
