//! The key stream (RFC 3610, 2.3), and blocks that hold a nonce.
#![tactic(auto)]

ghost use Rattle.std.specs.Prelude.{◌≡◌, ◌+◌, ◌<◌, ◌≤◌, ◌^◌, ◌++◌, ◌∷◌, length};
ghost use Rattle.cipher_definitions.specs.Octets.{two_octets, xor_lists, block_count};
ghost use Rattle.cipher_definitions.specs.Ccm.{stream};

use aes_block::{Schedule, add_to};

/// The block of an octet of flags, a nonce, and a number of 16 bits: B_0 and A_i (RFC 3610, 2.2 and 2.3).
pub(crate) fn nonce_block(flags: u8, nonce: &[u8; 13], number: u16) -> [u8; 16]
    ensures value { result ≡ flags ∷ nonce.now ++ two_octets number }
    ensures length { length result ≡ 16 }
{
    let [high, low] = number.to_be_bytes();
    [
        flags, nonce[0], nonce[1], nonce[2], nonce[3], nonce[4], nonce[5], nonce[6], nonce[7],
        nonce[8], nonce[9], nonce[10], nonce[11], nonce[12], high, low,
    ]
}

/// Adds the key stream from block 1 on to `text`, which encrypts it, or decrypts it (RFC 3610, 2.3).
pub(crate) fn add_stream(schedule: &Schedule, nonce: &[u8; 13], text: &mut [u8])
    requires { length text.old < 2 ^ 16 }
    ensures { text.new ≡ xor_lists text.old (stream schedule.now nonce.now 1 (block_count (length text.old))) }
{
    let mut number = 1;
    let mut done = 0;
    while done < text.len() {
        let end = (done + 16).min(text.len());
        let block = schedule.encrypt(nonce_block(1, nonce, number));
        add_to(&mut text[done..end], &block);
        number += 1;
        done = end;
    }
}
