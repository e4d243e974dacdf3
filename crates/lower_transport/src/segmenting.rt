//! The segments of an access message's upper transport PDU (Mesh Profile 1.0.1, sections 3.5.2.2 and 3.5.3).
#![tactic(auto)]

ghost use Rattle.std.specs.Prelude.{◌≡◌, ◌*◌, ◌<◌, ◌≤◌, ◌^◌, IsFalse, length, take, drop};
ghost use Rattle.layer_definitions.specs.Lower.{Fits, last_segment as last_segment_in, segment as segment_in};

use mesh_base::lower::Lower;
use mesh_base::octets::Octets;

/// The octets of an upper transport PDU in each segment but the last.
const PIECE: usize = 12;

/// How many numbers SeqZero counts: it has 13 bits.
const SEQ_ZEROS: u32 = 0x2000;

/// SegN, 5 bits: the number of the last segment of an upper transport PDU of at most 384 octets.
pub fn last_segment(upper: &[u8]) -> u8
    requires most { length upper.now ≤ 384 }
    ensures value { result ≡ last_segment_in upper.now }
    ensures width { result < 2 ^ 5 }
{
    (upper.len().saturating_sub(1) / PIECE) as u8
}

/// The octets of a segment.
fn piece_of(upper: &[u8], seg_o: u8) -> Octets<12>
    requires place { 12 * seg_o < length upper.now }
    ensures value { result ≡ take 12 (drop (12 * seg_o) upper.now) }
{
    let rest = &upper[usize::from(seg_o) * PIECE..];
    let mut octets = Octets::new();
    octets.extend(&rest[..rest.len().min(PIECE)]);
    octets
}

/// The segment with number `seg_o`, from 0 on, of an upper transport PDU of 1 to 384 octets that was sealed with a TransMIC of 4 octets.
/// `akf` and `aid`, 6 bits, tell the key; `auth` is the SEQ of SeqAuth.
pub fn segment(akf: bool, aid: u8, auth: u32, upper: &[u8], seg_o: u8) -> Lower
    requires aid { aid < 2 ^ 6 }
    requires device { IsFalse akf → aid ≡ 0 }
    requires least { 1 ≤ length upper.now }
    requires most { length upper.now ≤ 384 }
    requires place { seg_o ≤ last_segment_in upper.now }
    ensures value { result ≡ segment_in akf aid auth upper.now seg_o }
    ensures fits { Fits result }
{
    Lower::AccessPart {
        akf,
        aid,
        szmic: false,
        seq_zero: (auth % SEQ_ZEROS) as u16,
        seg_o,
        seg_n: last_segment(upper),
        piece: piece_of(upper, seg_o),
    }
}
