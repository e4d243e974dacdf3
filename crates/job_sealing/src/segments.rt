//! Segments of an own message.
#![tactic(auto)]

ghost use Rattle.std.specs.Prelude.{◌≡◌, ◌+◌, ◌^◌, ◌<◌, ◌≤◌, length, if◌then◌else◌};
ghost use Rattle.mesh_types.specs.declared.lines.Outcome.TheVariants as O;
ghost use Rattle.run_definitions.specs.Lines.{is_late, segment_outcome};

use crate::kept::KeptSeals;
use mesh_base::fields::NetFields;
use mesh_base::pair::Pair;
use mesh_types::jobs::Segment;
use mesh_types::lines::Outcome;

/// How far above SeqAuth the SEQ of a segment may be.
const SPAN: u32 = 8191;

/// Whether the pair of a segment is under another IV Index than SeqAuth, or too far above it.
fn is_late(auth: Pair, pair: Pair) -> bool
    requires auth { auth.seq < 2 ^ 24 }
    ensures value { result ≡ is_late auth pair }
{
    pair.iv != auth.iv || auth.seq + SPAN < pair.seq
}

/// The line of a segment that goes out under this pair.
pub fn segment_line(kept: &mut KeptSeals, segment: &Segment, pair: Pair) -> Outcome
    requires nid { segment.now.material.nid < 2 ^ 7 }
    requires ttl { segment.now.ttl < 2 ^ 7 }
    requires pair { pair.seq < 2 ^ 24 }
    requires least { 1 ≤ length segment.now.tpdu }
    requires most { length segment.now.tpdu ≤ 16 }
    ensures value { result ≡ segment_outcome segment.now pair }
{
    let fields = NetFields {
        iv: pair.iv,
        ctl: false,
        ttl: segment.ttl,
        seq: pair.seq,
        src: segment.name.src,
        dst: segment.dst,
        tpdu: segment.tpdu.copied(),
    };
    Outcome::Seg {
        pair,
        ttl: segment.ttl,
        src: segment.name.src,
        dst: segment.dst,
        seg_o: segment.seg_o,
        seg_n: segment.seg_n,
        auth: segment.name.pair.seq,
        pdu: kept.seal(&segment.material, &fields),
    }
}

/// The line of a segment that is not the first of its message, under the pair drawn for it. It doesn't go out where it is too late.
pub fn later_segment(kept: &mut KeptSeals, segment: &Segment, pair: Pair) -> Outcome
    requires nid { segment.now.material.nid < 2 ^ 7 }
    requires ttl { segment.now.ttl < 2 ^ 7 }
    requires auth { segment.now.name.pair.seq < 2 ^ 24 }
    requires pair { pair.seq < 2 ^ 24 }
    requires least { 1 ≤ length segment.now.tpdu }
    requires most { length segment.now.tpdu ≤ 16 }
    ensures value { result
        ≡ (if is_late segment.now.name.pair pair then O.Late pair else segment_outcome segment.now pair) }
{
    if is_late(segment.name.pair, pair) {
        Outcome::Late { pair }
    } else {
        segment_line(kept, segment, pair)
    }
}
