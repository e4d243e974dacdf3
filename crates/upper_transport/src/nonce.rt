//! What an access message is sealed with besides its payload (Mesh Profile 1.0.1, sections 3.6.2.2, 3.8.5.2, 3.8.5.3 and 3.8.7.1).
#![tactic(auto)]

ghost use Rattle.std.specs.Prelude.{◌≡◌, ◌≤◌, ◌^◌, ◌⊎◌, if◌then◌else◌, length};
ghost use Rattle.layer_definitions.specs.Upper.{label_octets, nonce_type as type_of, trans_mic_length, upper_nonce};

use byteorder::{BigEndian, ByteOrder};
use mesh_base::keys::UpperKey;
use mesh_base::upper::UpperFields;

/// How many numbers SEQ counts in a nonce: it has 24 bits.
const COUNT: u32 = 0x100_0000;

/// The label of a virtual destination, or no octets.
pub(crate) fn label_of(f: &UpperFields) -> &[u8]
    ensures value { result.now ≡ label_octets f.now }
    ensures length { length result.now ≤ 16 }
{
    match &f.label {
        Some(label) => label,
        None => &[],
    }
}

/// How many octets TransMIC has.
pub(crate) fn mic_length(long_mic: bool) -> usize
    ensures value { result ≡ trans_mic_length long_mic }
    ensures either { (result ≡ 4) ⊎ (result ≡ 8) }
{
    if long_mic { 8 } else { 4 }
}

// The type of the nonce.
fn nonce_type(key: &UpperKey) -> u8
    ensures { result ≡ type_of key.now }
{
    match key {
        UpperKey::Device(_) => 0x02,
        UpperKey::App { .. } => 0x01,
    }
}

// ASZMIC in bit 7, and padding.
fn mic_octet(long_mic: bool) -> u8
    ensures { result ≡ (if long_mic then 2 ^ 7 else 0) }
{
    if long_mic { 0x80 } else { 0 }
}

/// The application nonce or the device nonce: its type, ASZMIC, and SEQ, SRC, DST and the IV Index.
pub(crate) fn nonce(key: &UpperKey, f: &UpperFields) -> [u8; 13]
    ensures value { result ≡ upper_nonce key.now f.now }
    ensures length { length result ≡ 13 }
{
    let mut octets = [0; 13];
    octets[0] = nonce_type(key);
    octets[1] = mic_octet(f.long_mic);
    BigEndian::write_u24(&mut octets[2..], f.pair.seq % COUNT);
    BigEndian::write_u16(&mut octets[5..], f.src.0);
    BigEndian::write_u16(&mut octets[7..], f.dst.0);
    BigEndian::write_u32(&mut octets[9..], f.pair.iv);
    octets
}
