//! The fixed fields of a network PDU as octets, and octets as fields (Mesh Profile 1.0.1, sections 3.4.4 and 3.8.5.1).
#![tactic(auto)]

ghost use Rattle.std.specs.Prelude.{◌≡◌, ◌+◌, ◌<◌, ◌≤◌, ◌^◌, ◌⊎◌, ◌∷◌, ◌++◌, length};
ghost use Rattle.cipher_definitions.specs.Octets.{four_octets};
ghost use Rattle.layer_definitions.specs.Network.{HasPdu, IsInWidths, control_and_ttl, net_mic_length, network_header, network_nonce, network_plaintext};
ghost use Rattle.network_layer.specs.Opening.{has_control_bit, most_of};

use arrayvec::ArrayVec;
use byteorder::{BigEndian, ByteOrder};
use mesh_base::address::Address;
use mesh_base::fields::NetFields;
use mesh_base::octets::Octets;

// CTL and TTL in one octet.
fn control_octet(f: &NetFields) -> u8
    requires { f.now.ttl < 2 ^ 7 }
    ensures { result ≡ control_and_ttl f.now }
{
    if f.ctl { 0x80 + f.ttl } else { f.ttl }
}

/// What is obfuscated: CTL and TTL, SEQ, SRC.
pub(crate) fn header(f: &NetFields) -> [u8; 6]
    requires { HasPdu f.now }
    ensures value { result ≡ network_header f.now }
    ensures length { length result ≡ 6 }
{
    let mut octets = [0; 6];
    octets[0] = control_octet(f);
    BigEndian::write_u24(&mut octets[1..], f.seq);
    BigEndian::write_u16(&mut octets[4..], f.src.0);
    octets
}

/// The network nonce: its type 00, the header, two octets of padding, and the IV Index.
pub(crate) fn nonce(header: &[u8; 6], iv: u32) -> [u8; 13]
    ensures value { result ≡ 0 ∷ header.now ++ 0 ∷ 0 ∷ four_octets iv }
    ensures length { length result ≡ 13 }
{
    let mut octets = [0; 13];
    octets[1..7].copy_from_slice(header);
    BigEndian::write_u32(&mut octets[9..], iv);
    octets
}

/// What is encrypted: DST and the transport PDU.
pub(crate) fn plaintext(f: &NetFields) -> ArrayVec<u8, 18>
    ensures value { result.items ≡ network_plaintext f.now }
{
    let mut octets = ArrayVec::new();
    let _ = octets.try_extend_from_slice(&f.dst.0.to_be_bytes());
    let _ = octets.try_extend_from_slice(f.tpdu.as_slice());
    octets
}

/// How many octets NetMIC has.
pub(crate) fn mic_length(ctl: bool) -> usize
    ensures value { result ≡ net_mic_length ctl }
    ensures either { (result ≡ 4) ⊎ (result ≡ 8) }
{
    if ctl { 8 } else { 4 }
}

/// CTL, as the header has it.
pub(crate) fn control_bit(header: &[u8; 6]) -> bool
    ensures { result ≡ has_control_bit header.now }
{
    header[0] >= 0x80
}

/// The fields with this IV Index, this header and this text of DST and transport PDU.
pub(crate) fn fields_of(iv: u32, header: &[u8; 6], text: &[u8]) -> NetFields
    requires least { 3 ≤ length text.now }
    requires most { length text.now ≤ most_of (has_control_bit header.now) }
    ensures iv { result.iv ≡ iv }
    ensures has_pdu { HasPdu result }
    ensures in_widths { IsInWidths result }
    ensures header { network_header result ≡ header.now }
    ensures text { network_plaintext result ≡ text.now }
{
    let mut tpdu = Octets::new();
    tpdu.extend(&text[2..]);
    NetFields {
        iv,
        ctl: control_bit(header),
        ttl: header[0] % 0x80,
        seq: BigEndian::read_u24(&header[1..]),
        src: Address(BigEndian::read_u16(&header[4..])),
        dst: Address(BigEndian::read_u16(text)),
        tpdu,
    }
}
