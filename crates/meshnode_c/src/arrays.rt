//! Octets of a slice as an array.
#![tactic(auto)]

ghost use Rattle.std.specs.Prelude.{◌≡◌, length};

/// Octets of a key.
pub const KEY: usize = 16;

/// Octets of a nonce.
pub const NONCE: usize = 13;

/// The octets of a key, a salt or a label.
pub fn key_of(octets: &[u8]) -> [u8; 16]
    requires size { length octets.now ≡ 16 }
    ensures value { result ≡ octets.now }
{
    let mut key = [0; 16];
    key.copy_from_slice(octets);
    key
}

/// The octets of a nonce.
pub fn nonce_of(octets: &[u8]) -> [u8; 13]
    requires size { length octets.now ≡ 13 }
    ensures value { result ≡ octets.now }
{
    let mut nonce = [0; 13];
    nonce.copy_from_slice(octets);
    nonce
}
