//! From octets to a lower transport PDU.
#![tactic(auto)]

ghost use Rattle.std.specs.Prelude.{◌≡◌, ℕ, ◌+◌, ◌*◌, ◌/◌, ◌%◌, ◌^◌, ◌<◌, ◌≤◌, ◌==◌, if◌then◌else◌, Bool, false, true, List, ◌∷◌, ◌++◌, length, IfOk, IsFalse, OnErr};
ghost use Rattle.mesh_base.specs.declared.lower.Lower.{Lower};
ghost use Rattle.layer_definitions.specs.Lower.{akf_and_aid, IsPiece, ReadsLower, segmentation};

use byteorder::{BigEndian, ByteOrder};
use mesh_base::lower::Lower;
use mesh_base::octets::Octets;
use thiserror::Error;

/// The octets are not those of a lower transport PDU.
#[derive(Clone, Copy, Debug, PartialEq, Eq, Error)]
#[error("no lower transport PDU has these octets")]
pub struct Malformed;

/// The fields of a segment before its octets. Of a control message's segment the first bit is reserved, and not read.
#[derive(Clone, Copy)]
struct Header {
    szmic: bool,
    seq_zero: u16,
    seg_o: u8,
    seg_n: u8,
}

/// AKF and AID of a first octet. AID isn't read with the device key.
fn key_of(first: u8) -> (bool, u8)
    ensures aid { result.1 < 2 ^ 6 }
    ensures device { IsFalse result.0 → result.1 ≡ 0 }
    ensures bits { akf_and_aid result.0 result.1 ≡ (if (first / 2 ^ 6 % 2) == 0 then 0 else first % 2 ^ 7) }
{
    if (first >> 6) & 1 == 1 {
        (true, first & 0x3f)
    } else {
        (false, 0)
    }
}

/// The fields in the three octets of a segment's header.
fn header_of(octets: &[u8]) -> Header
    requires { length octets.now ≡ 3 }
    ensures seq_zero { result.seq_zero < 2 ^ 13 }
    ensures seg_o { result.seg_o < 2 ^ 5 }
    ensures seg_n { result.seg_n < 2 ^ 5 }
    ensures octets { segmentation result.szmic result.seq_zero result.seg_o result.seg_n ≡ octets.now }
{
    let bits = BigEndian::read_u24(octets);
    Header {
        szmic: bits >> 23 == 1,
        seq_zero: ((bits >> 10) & 0x1fff) as u16,
        seg_o: ((bits >> 5) & 0x1f) as u8,
        seg_n: (bits & 0x1f) as u8,
    }
}

/// The header and the octets of a segment, of which there are N, but in the last one 1 to N.
fn segment_of<const N: usize>(rest: &[u8]) -> Result<(Header, Octets<N>), Malformed>
    ensures ok { IfOk result (λ s.
        (rest.now ≡ segmentation s.0.szmic s.0.seq_zero s.0.seg_o s.0.seg_n ++ s.1)
        × (s.0.seq_zero < 2 ^ 13) × (s.0.seg_n < 2 ^ 5) × IsPiece N s.0.seg_o s.0.seg_n s.1) }
    ensures err { OnErr result ((szmic : Bool) (seq_zero seg_o seg_n : ℕ) (piece : List ℕ)
        → rest.now ≡ segmentation szmic seq_zero seg_o seg_n ++ piece
        → seq_zero < 2 ^ 13 → seg_n < 2 ^ 5 → IsPiece N seg_o seg_n piece → ⊥) }
{
    if rest.len() < 3 {
        return Err(Malformed);
    }
    let (front, back) = rest.split_at(3);
    let header = header_of(front);
    let is_last = header.seg_o == header.seg_n;
    if header.seg_o > header.seg_n || back.len() == 0 || (back.len() < N && !is_last) {
        return Err(Malformed);
    }
    match Octets::of(back) {
        Ok(piece) => Ok((header, piece)),
        Err(_) => Err(Malformed),
    }
}

/// An unsegmented access message: an upper transport PDU of 5 to 15 octets.
#[tactic(auto, unfolding(layer_definitions::specs::Lower::lower_text))]
fn read_access(first: u8, rest: &[u8]) -> Result<Lower, Malformed>
    requires { first < 2 ^ 7 }
    ensures ok { IfOk result (ReadsLower false (first ∷ rest.now)) }
    ensures err { OnErr result ((l : Lower) → ReadsLower false (first ∷ rest.now) l → ⊥) }
{
    if rest.len() < 5 {
        return Err(Malformed);
    }
    let (akf, aid) = key_of(first);
    match Octets::of(rest) {
        Ok(upper) => Ok(Lower::Access { akf, aid, upper }),
        Err(_) => Err(Malformed),
    }
}

/// An unsegmented control message: up to 11 octets of parameters.
#[tactic(auto, unfolding(layer_definitions::specs::Lower::lower_text))]
fn read_control(opcode: u8, rest: &[u8]) -> Result<Lower, Malformed>
    requires { opcode < 2 ^ 7 }
    ensures ok { IfOk result (ReadsLower true (opcode ∷ rest.now)) }
    ensures err { OnErr result ((l : Lower) → ReadsLower true (opcode ∷ rest.now) l → ⊥) }
{
    match Octets::of(rest) {
        Ok(params) => Ok(Lower::Control { opcode, params }),
        Err(_) => Err(Malformed),
    }
}

/// A segment of an access message.
#[tactic(auto, unfolding(layer_definitions::specs::Lower::lower_text))]
fn read_access_part(first: u8, rest: &[u8]) -> Result<Lower, Malformed>
    requires { 2 ^ 7 ≤ first }
    ensures ok { IfOk result (ReadsLower false (first ∷ rest.now)) }
    ensures err { OnErr result ((l : Lower) → ReadsLower false (first ∷ rest.now) l → ⊥) }
{
    let (akf, aid) = key_of(first);
    match segment_of(rest) {
        Ok((header, piece)) => {
            let Header {
                szmic,
                seq_zero,
                seg_o,
                seg_n,
            } = header;
            Ok(Lower::AccessPart {
                akf,
                aid,
                szmic,
                seq_zero,
                seg_o,
                seg_n,
                piece,
            })
        }
        Err(_) => Err(Malformed),
    }
}

/// A segment of a control message. The bit before SeqZero is reserved.
#[tactic(auto, unfolding(layer_definitions::specs::Lower::lower_text))]
fn read_control_part(first: u8, rest: &[u8]) -> Result<Lower, Malformed>
    requires { 2 ^ 7 ≤ first }
    ensures ok { IfOk result (ReadsLower true (first ∷ rest.now)) }
    ensures err { OnErr result ((l : Lower) → ReadsLower true (first ∷ rest.now) l → ⊥) }
{
    match segment_of(rest) {
        Ok((header, piece)) => {
            let Header {
                szmic: _,
                seq_zero,
                seg_o,
                seg_n,
            } = header;
            Ok(Lower::ControlPart {
                opcode: first & 0x7f,
                seq_zero,
                seg_o,
                seg_n,
                piece,
            })
        }
        Err(_) => Err(Malformed),
    }
}

/// The lower transport PDU in the transport PDU of a network PDU with this CTL. `Malformed` exactly where no PDU has
/// these octets: reserved bits, and AID with the device key, are read as anything.
#[tactic(auto, unfolding(layer_definitions::specs::Lower::lower_text))]
pub fn read(ctl: bool, tpdu: &[u8]) -> Result<Lower, Malformed>
    ensures ok { IfOk result (ReadsLower ctl tpdu.now) }
    ensures err { OnErr result ((l : Lower) → ReadsLower ctl tpdu.now l → ⊥) }
{
    let [first, rest @ ..] = tpdu else {
        return Err(Malformed)
    };
    let segmented = *first >= 0x80;
    match (ctl, segmented) {
        (false, false) => read_access(*first, rest),
        (false, true) => read_access_part(*first, rest),
        (true, false) => read_control(*first, rest),
        (true, true) => read_control_part(*first, rest),
    }
}
