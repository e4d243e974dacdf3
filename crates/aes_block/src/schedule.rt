//! The key schedule of AES-128 (FIPS 197, 5.2) and the cipher over it (5.1).
#![tactic(auto)]

ghost use Rattle.std.specs.Prelude.{◌≡◌, ◌<◌, ◌∷◌, List, ℕ, length, map, slice_index};
ghost use Rattle.std.specs.Int.{to_be_bytes, w32};
ghost use Rattle.cipher_definitions.specs.Octets.{xor_lists};
ghost use Rattle.cipher_definitions.specs.Aes.{times_x, turned_word, next_key, round_keys, aes};
ghost use Rattle.aes_block.specs.Columns.{octets, round_key};

use crate::state::{after_last_round, after_round, columns_of, octets_of, sum};
use crate::sums::add_to;
use crate::tables::substitute;
use std::marker::Model;

/// A key of AES-128 with its round keys. Contracts see it as the key, a list of 16 octets.
#[derive(Drop)]
pub struct Schedule {
    // Column c of each of the eleven round keys. A round key in one piece would make a vector of the state, and the block a half slower.
    columns: [[u32; 11]; 4],
}

impl Model for Schedule {
    ghost use Rattle.std.specs.Prelude.{◌≡◌, ◌+◌, ◌<◌, List, [], ℕ, slice_index_or};
    ghost use Rattle.cipher_definitions.specs.Aes.{round_keys};
    ghost use Rattle.aes_block.specs.Columns.{round_key};

    ghost Value = { List ℕ };

    ghost view = { λ s. round_key s.columns 0 };

    ghost invariant = { λ s. (i : ℕ) → i < 10
        → round_key s.columns (i + 1) ≡ slice_index_or (round_keys (round_key s.columns 0)) i [] };
}

// A round constant times x, without the carry out of eight bits (FIPS 197, 4.2.1).
#[tactic(auto, unfolding(cipher_definitions::specs::Aes::times_x))]
fn next_constant(constant: u8) -> u8
    ensures { result ≡ times_x constant }
{
    if constant < 128 {
        2 * constant
    } else {
        (2 * (constant - 128)) ^ 27
    }
}

// SubWord of RotWord of a word, with the round constant added to its first octet (FIPS 197, 5.2).
#[tactic(auto, unfolding(cipher_definitions::specs::Aes::turned_word))]
fn turned_word(constant: u8, word: u32) -> u32
    ensures { to_be_bytes w32 result ≡ turned_word constant (to_be_bytes w32 word) }
{
    let octets = word.to_be_bytes();
    u32::from_be_bytes([
        substitute(octets[1]) ^ constant,
        substitute(octets[2]),
        substitute(octets[3]),
        substitute(octets[0]),
    ])
}

// The round key after `key`, where `constant` is the round constant (FIPS 197, 5.2).
fn key_after(constant: u8, key: &[u32; 4]) -> [u32; 4]
    ensures { octets result ≡ next_key constant (octets key.now) }
{
    let first = key[0] ^ turned_word(constant, key[3]);
    let second = key[1] ^ first;
    let third = key[2] ^ second;
    [first, second, third, key[3] ^ third]
}

// The round keys of rounds 1 to 10 (FIPS 197, 5.2).
fn keys_after(key: &[u32; 4]) -> [[u32; 4]; 10]
    ensures { map octets result ≡ round_keys (octets key.now) }
{
    let mut keys = [[0; 4]; 10];
    let mut last = *key;
    let mut constant = 1;
    for slot in keys.iter_mut() {
        last = key_after(constant, &last);
        *slot = last;
        constant = next_constant(constant);
    }
    keys
}

// The column at `place` of the key and of each round key after it.
fn column(key: &[u32; 4], rest: &[[u32; 4]; 10], place: usize) -> [u32; 11]
    requires { place < 4 }
    ensures { result ≡ slice_index key.now place ∷ map (λ k. slice_index k place) rest.now }
{
    let mut words = [0; 11];
    words[0] = key[place];
    for i in 0..10 {
        words[i + 1] = rest[i][place];
    }
    words
}

// Round key `i`.
fn round_key(columns: &[[u32; 11]; 4], i: usize) -> [u32; 4]
    requires { i < 11 }
    ensures { octets result ≡ round_key columns.now i }
{
    [columns[0][i], columns[1][i], columns[2][i], columns[3][i]]
}

impl Schedule {
    /// The schedule of `key` (FIPS 197, 5.2).
    pub fn new(key: &[u8; 16]) -> Schedule
        ensures value { result ≡ key.now }
        ensures length { length result ≡ 16 }
    {
        let first = columns_of(key);
        let rest = keys_after(&first);
        Schedule {
            columns: [
                column(&first, &rest, 0),
                column(&first, &rest, 1),
                column(&first, &rest, 2),
                column(&first, &rest, 3),
            ],
        }
    }

    /// AES-128 of `block` under the key (FIPS 197, 5.1).
    pub fn encrypt(&self, block: [u8; 16]) -> [u8; 16]
        ensures value { result ≡ aes self.now block }
        ensures length { length result ≡ 16 }
        ensures key_length { length self.now ≡ 16 }
    {
        let mut state = sum(&columns_of(&block), &round_key(&self.columns, 0));
        for i in 1..10 {
            state = after_round(&state, &round_key(&self.columns, i));
        }
        octets_of(&after_last_round(&state, &round_key(&self.columns, 10)))
    }
    /// One block more of a chaining (cipher block chaining, as AES-CCM and AES-CMAC do it): AES-128 of the sum of `last`, what came out
    /// before, and `block`, which has 16 octets.
    pub fn chained(&self, last: &[u8; 16], block: &[u8]) -> [u8; 16]
        requires { length block.now ≡ 16 }
        ensures value { result ≡ aes self.now (xor_lists last.now block.now) }
        ensures length { length result ≡ 16 }
    {
        let mut sum = *last;
        add_to(&mut sum, block);
        self.encrypt(sum)
    }
}
