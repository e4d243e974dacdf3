//! AES-CMAC (RFC 4493, section 2.4).
#![tactic(auto)]

ghost use Rattle.std.specs.Prelude.{◌≡◌, ◌<◌, ◌≤◌, ◌+◌, length, replicate, [], ◌∷◌, ◌++◌, drop};
ghost use Rattle.cipher_definitions.specs.Octets.{xor_lists, blocks};
ghost use Rattle.cipher_definitions.specs.Aes.{aes, chained};
ghost use Rattle.cipher_definitions.specs.Cmac.{cmac, last_block, blocks_before_last};

use crate::subkeys::{doubled, filled_block};
use aes_block::{Schedule, add_to};

/// AES-CMAC of a message of any length under a key.
pub fn cmac(key: &[u8; 16], m: &[u8]) -> [u8; 16]
    ensures value { result ≡ cmac key.now m.now }
    ensures length { length result ≡ 16 }
{
    cmac_kept(&Schedule::new(key), m)
}

/// The same under a key whose schedule is kept.
pub fn cmac_kept(schedule: &Schedule, m: &[u8]) -> [u8; 16]
    ensures value { result ≡ cmac schedule.now m.now }
    ensures length { length result ≡ 16 }
{
    let mut sum = [0; 16];
    let mut rest = m;
    while rest.len() > 16 {
        let (front, back) = rest.split_at(16);
        sum = schedule.chained(&sum, front);
        rest = back;
    }
    let last = last_block(schedule, rest);
    schedule.chained(&sum, &last)
}

/// The last block of a message with the subkey for it, from the octets behind the blocks before it.
fn last_block(schedule: &Schedule, rest: &[u8]) -> [u8; 16]
    requires { length rest.now ≤ 16 }
    ensures value { result ≡ last_block schedule.now rest.now }
    ensures length { length result ≡ 16 }
{
    let first = doubled(&schedule.encrypt([0; 16]));
    if rest.len() == 16 {
        with_subkey(rest, &first)
    } else {
        with_subkey(&filled_block(rest), &doubled(&first))
    }
}

/// The sum of a block and a subkey.
fn with_subkey(block: &[u8], subkey: &[u8; 16]) -> [u8; 16]
    requires { length block.now ≡ 16 }
    ensures value { result ≡ xor_lists block.now subkey.now }
    ensures length { length result ≡ 16 }
{
    let mut sum = [0; 16];
    sum.copy_from_slice(block);
    add_to(&mut sum, subkey);
    sum
}
