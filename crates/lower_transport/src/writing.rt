//! From a lower transport PDU to octets.
#![tactic(auto)]

ghost use Rattle.std.specs.Prelude.{◌≡◌, ◌+◌, ◌^◌, ◌<◌, ◌∷◌};
ghost use Rattle.layer_definitions.specs.Lower.{akf_and_aid, Fits, lower_text, segmentation};

use byteorder::{BigEndian, ByteOrder};
use mesh_base::lower::Lower;
use mesh_base::octets::Octets;

/// AKF and AID in the low bits of a first octet.
fn key_octet(akf: bool, aid: u8) -> u8
    requires { aid < 2 ^ 6 }
    ensures bound { result < 2 ^ 7 }
    ensures value { result ≡ akf_and_aid akf aid }
{
    if akf { 0x40 + aid } else { aid }
}

/// The first four octets of a segment: SEG over the low bits of the first one, and the fields behind it.
fn segment_start(low: u8, szmic: bool, seq_zero: u16, seg_o: u8, seg_n: u8) -> [u8; 4]
    requires low { low < 2 ^ 7 }
    requires seq_zero { seq_zero < 2 ^ 13 }
    requires seg_o { seg_o < 2 ^ 5 }
    requires seg_n { seg_n < 2 ^ 5 }
    ensures value { result ≡ (2 ^ 7 + low) ∷ segmentation szmic seq_zero seg_o seg_n }
{
    let szmic = if szmic { 1u32 << 23 } else { 0 };
    let bits = szmic + (u32::from(seq_zero) << 10) + (u32::from(seg_o) << 5) + u32::from(seg_n);
    let mut octets = [0; 3];
    BigEndian::write_u24(&mut octets, bits);
    let [a, b, c] = octets;
    [0x80 + low, a, b, c]
}

/// The octets of a lower transport PDU, with 0 in the reserved bits.
///
/// The fields of `l` are within their widths and ranges (section 3.5.2), as those of each PDU that was read are.
#[tactic(auto, unfolding(layer_definitions::specs::Lower::lower_text))]
pub fn write(l: &Lower) -> Octets<16>
    requires { Fits l.now }
    ensures value { result ≡ lower_text l.now }
{
    let mut out = Octets::new();
    match l {
        Lower::Access { akf, aid, upper } => {
            out.extend(&[key_octet(*akf, *aid)]);
            out.extend(upper.as_slice());
        }
        Lower::Control { opcode, params } => {
            out.extend(&[*opcode]);
            out.extend(params.as_slice());
        }
        Lower::AccessPart {
            akf,
            aid,
            szmic,
            seq_zero,
            seg_o,
            seg_n,
            piece,
        } => {
            out.extend(&segment_start(key_octet(*akf, *aid), *szmic, *seq_zero, *seg_o, *seg_n));
            out.extend(piece.as_slice());
        }
        Lower::ControlPart {
            opcode,
            seq_zero,
            seg_o,
            seg_n,
            piece,
        } => {
            out.extend(&segment_start(*opcode, false, *seq_zero, *seg_o, *seg_n));
            out.extend(piece.as_slice());
        }
    }
    out
}
