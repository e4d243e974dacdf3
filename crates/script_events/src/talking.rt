//! The transport PDUs of an outside node's access message (Mesh Profile 1.0.1, sections 3.5.2 and 3.6.2).
#![tactic(auto)]

ghost use Rattle.std.specs.Prelude.{◌≡◌, ◌+◌, ◌*◌, ◌<◌, ◌≤◌, length};
ghost use Rattle.layer_definitions.specs.Lower.{Fits, last_segment as last_segment_in, lower_text, segment as segment_in};
ghost use Rattle.mesh_base.specs.declared.lower.Lower.TheVariants.{Access};
ghost use Rattle.script_definitions.specs.Events as Said;
ghost use Rattle.script_definitions.specs.Ranges.{IsPayload, IsTalk};

use crate::kept::KeptKey;
use lower_transport::{segment, write};
use mesh_base::address::Address;
use mesh_base::lower::Lower;
use mesh_base::octets::Octets;
use mesh_base::pair::Pair;
use mesh_base::upper::UpperFields;
use script_definitions::line::{TalkDst, TalkLine, TalkPdu, TalkPiece};
use upper_transport::seal_kept;

/// The label that the seal adds, if there is one.
fn label_of(dst: &TalkDst) -> Option<[u8; 16]>
    ensures value { result ≡ Said.label_of dst.now }
{
    match dst {
        TalkDst::Address(_) => None,
        TalkDst::Label(label) => Some(*label),
    }
}

/// What seals the message besides its key.
fn upper_fields(pdu: &TalkPdu, dst: Address) -> UpperFields
    requires dst { dst ≡ Said.dst_of pdu.now.dst }
    ensures value { result ≡ Said.talk_upper_fields pdu.now }
{
    UpperFields {
        pair: Pair {
            iv: pdu.iv,
            seq: pdu.auth,
        },
        src: pdu.src,
        dst,
        long_mic: false,
        label: label_of(&pdu.dst),
    }
}

/// The upper transport PDU of the message.
fn upper_of(key: &KeptKey, dst: Address, talk: &TalkLine) -> Octets<384>
    requires key { key.now ≡ talk.now.key }
    requires dst { dst ≡ Said.dst_of talk.now.pdu.dst }
    requires payload { IsPayload talk.now.payload }
    ensures value { result ≡ Said.talk_upper talk.now }
    ensures length { length result ≡ length talk.now.payload + 4 }
{
    seal_kept(
        key.schedule(),
        &upper_fields(&talk.pdu, dst),
        talk.payload.as_slice(),
    )
}

/// The unsegmented PDU of an upper transport PDU of 5 to 15 octets.
fn whole(key: &KeptKey, upper: &[u8]) -> Lower
    requires least { 5 ≤ length upper.now }
    requires most { length upper.now ≤ 15 }
    ensures value { result ≡ Access (Said.is_app key.now) (Said.aid_of key.now) upper.now }
    ensures fits { Fits result }
{
    let (akf, aid) = key.bits();
    let mut octets = Octets::new();
    octets.extend(upper);
    Lower::Access {
        akf,
        aid,
        upper: octets,
    }
}

/// The segment with number `seg_o`, for SeqAuth with the SEQ `auth`.
fn part(key: &KeptKey, auth: u32, upper: &[u8], seg_o: u8) -> Lower
    requires least { 1 ≤ length upper.now }
    requires most { length upper.now ≤ 384 }
    requires place { seg_o ≤ last_segment_in upper.now }
    ensures value { result ≡ segment_in (Said.is_app key.now) (Said.aid_of key.now) auth upper.now seg_o }
    ensures fits { Fits result }
{
    let (akf, aid) = key.bits();
    segment(akf, aid, auth, upper, seg_o)
}

/// The lower transport PDU of the line, under its key and to its destination: the whole message, or one of its segments.
pub(crate) fn lower_of(key: &KeptKey, dst: Address, talk: &TalkLine) -> Lower
    requires ranges { IsTalk talk.now }
    requires key { key.now ≡ talk.now.key }
    requires dst { dst ≡ Said.dst_of talk.now.pdu.dst }
    ensures value { result
        ≡ Said.lower_of talk.now.pdu.piece talk.now.key talk.now.pdu.auth (Said.talk_upper talk.now) }
    ensures fits { Fits result }
{
    let upper = upper_of(key, dst, talk);
    match talk.pdu.piece {
        TalkPiece::Whole => whole(key, upper.as_slice()),
        TalkPiece::Segment(seg_o) => part(key, talk.pdu.auth, upper.as_slice(), seg_o),
    }
}

/// The octets of a lower transport PDU, of which there are some.
#[tactic(auto, unfolding(layer_definitions::specs::Lower::lower_text))]
pub(crate) fn tpdu_of(lower: &Lower) -> Octets<16>
    requires fits { Fits lower.now }
    ensures value { result ≡ lower_text lower.now }
    ensures least { 1 ≤ length result }
{
    write(lower)
}
