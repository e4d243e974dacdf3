//! Obfuscation of the header and its undoing, which are the same sum (Mesh Profile 1.0.1, section 3.8.7.3).
#![tactic(auto)]

ghost use Rattle.std.specs.Prelude.{◌≡◌, ◌≤◌, length};
ghost use Rattle.cipher_definitions.specs.Octets.{xor_lists};
ghost use Rattle.layer_definitions.specs.Network.{privacy_block};

use aes_block::add_to;
use byteorder::{BigEndian, ByteOrder};
use kept_keys::NetSchedules;

/// PECB, from the IV Index and what is sealed.
#[tactic(auto, unfolding(layer_definitions::specs::Network::privacy_block))]
pub(crate) fn mask(m: &NetSchedules, iv: u32, sealed: &[u8]) -> [u8; 16]
    requires { 7 ≤ length sealed.now }
    ensures value { result ≡ privacy_block m.now iv sealed.now }
    ensures length { length result ≡ 16 }
{
    let mut block = [0; 16];
    BigEndian::write_u32(&mut block[5..], iv);
    block[9..].copy_from_slice(&sealed[..7]);
    m.privacy().encrypt(block)
}

/// Six octets with the front of a mask added, bit by bit.
pub(crate) fn masked(octets: &[u8], mask: &[u8]) -> [u8; 6]
    requires octets { length octets.now ≡ 6 }
    requires mask { length mask.now ≡ 6 }
    ensures value { result ≡ xor_lists octets.now mask.now }
    ensures length { length result ≡ 6 }
{
    let mut sum = [0; 6];
    sum.copy_from_slice(octets);
    add_to(&mut sum, mask);
    sum
}
