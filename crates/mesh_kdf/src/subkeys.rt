//! What AES-CMAC adds to the last block of a message (RFC 4493, sections 2.3 and 2.4).
#![tactic(auto)]

ghost use Rattle.std.specs.Prelude.{◌≡◌, ◌<◌, ◌≤◌, ◌+◌, length};
ghost use Rattle.cipher_definitions.specs.Cmac.{doubled_number, doubled, filled_block};

/// The product with x in GF(2^128), of a number whose highest bit is its highest coefficient.
fn doubled_number(n: u128) -> u128
    ensures value { result ≡ doubled_number n }
{
    if n < 1 << 127 {
        2 * n
    } else {
        (2 * (n - (1 << 127))) ^ 0x87
    }
}

/// The same of a block, high octet first.
#[tactic(auto, unfolding(cipher_definitions::specs::Cmac::doubled))]
pub fn doubled(block: &[u8; 16]) -> [u8; 16]
    ensures value { result ≡ doubled block.now }
    ensures length { length result ≡ 16 }
{
    doubled_number(u128::from_be_bytes(*block)).to_be_bytes()
}

/// A last block that isn't complete, with a bit 1 behind it and then bits 0.
#[tactic(auto, unfolding(cipher_definitions::specs::Cmac::filled_block))]
pub fn filled_block(octets: &[u8]) -> [u8; 16]
    requires { length octets.now < 16 }
    ensures value { result ≡ filled_block octets.now }
    ensures length { length result ≡ 16 }
{
    let mut block = [0; 16];
    let (front, back) = block.split_at_mut(octets.len());
    front.copy_from_slice(octets);
    back[0] = 128;
    block
}
