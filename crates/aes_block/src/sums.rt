//! The sum of two lists of octets, bit by bit.
#![tactic(auto)]

ghost use Rattle.std.specs.Prelude.{◌≡◌, ◌≤◌, length};
ghost use Rattle.cipher_definitions.specs.Octets.{xor_lists};

/// Adds the first octets of `other` to the octets of `part`, bit by bit. `other` has at least as many octets as `part`.
pub fn add_to(part: &mut [u8], other: &[u8])
    requires { length part.old ≤ length other.now }
    ensures value { part.new ≡ xor_lists part.old other.now }
{
    for i in 0..part.len() {
        part[i] ^= other[i];
    }
}
