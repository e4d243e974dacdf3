//! The lines by which the node hears an outside node.
#![tactic(auto)]

ghost use Rattle.std.specs.Prelude.{◌≡◌, ◌^◌, ◌<◌, ◌≤◌, length, map, IfOk, IfSome};
ghost use Rattle.layer_definitions.specs.Network.{HasPdu};
ghost use Rattle.script_definitions.specs.Lines.{heard_line, peer_fields, peer_line, piece_fits, talk_pdu, talk_with, talk_line, beacon_line};
ghost use Rattle.script_definitions.specs.Ranges.{IsHeard, IsTalk, IsTalkPdu, IsPayload, IsBeaconLine};

use crate::digits::{key, number, octets, payload};
use crate::forms::{address, bit, flags, flags_fit, net, piece, talk_dst, talk_key, tpdu, ttl};
use crate::words::word;
use mesh_base::fields::NetFields;
use mesh_base::octets::Octets;
use script_definitions::line::{BeaconLine, PeerLine, TalkLine, TalkPdu, TalkPiece};
use script_definitions::payload::Payload;
use std::alloc::{AllocError, Global};

/// `bK net HEX` and `bK bcn HEX`.
#[tactic(auto, unfolding(script_definitions::specs::Lines::heard_line))]
pub fn heard_line(words: &[&[u8]]) -> Option<Octets<40>>
    requires { length words.now ≡ 3 }
    ensures value { result ≡ heard_line (map (λ w. w.now) words.now) }
    ensures ranges { IfSome result IsHeard }
{
    octets(word(words, 2), 40)
}

/// The fields of `bK peer NET IV CTL TTL SEQ SRC DST TPDU` behind NET.
#[tactic(auto, unfolding(script_definitions::specs::Lines::peer_fields))]
fn peer_fields(words: &[&[u8]]) -> Option<NetFields>
    requires { length words.now ≡ 10 }
    ensures value { result ≡ peer_fields (map (λ w. w.now) words.now) }
    ensures ranges { IfSome result HasPdu }
{
    let iv = number(word(words, 3), 8)?;
    let ctl = bit(word(words, 4))?;
    let ttl = ttl(word(words, 5))?;
    let seq = number(word(words, 6), 6)?;
    let src = address(word(words, 7))?;
    let dst = address(word(words, 8))?;
    let tpdu = tpdu(word(words, 9), ctl)?;
    Some(NetFields {
        iv,
        ctl,
        ttl,
        seq,
        src,
        dst,
        tpdu,
    })
}

/// `bK peer NET IV CTL TTL SEQ SRC DST TPDU`.
#[tactic(auto, unfolding(script_definitions::specs::Lines::peer_line))]
pub fn peer_line(words: &[&[u8]]) -> Option<PeerLine>
    requires { length words.now ≡ 10 }
    ensures value { result ≡ peer_line (map (λ w. w.now) words.now) }
    ensures ranges { IfSome result (λ peer. HasPdu peer.fields) }
{
    let net = net(word(words, 2))?;
    let fields = peer_fields(words)?;
    Some(PeerLine { net, fields })
}

/// Whether a message of so many octets has such a PDU with such a SEQ.
fn piece_fits(piece: TalkPiece, auth: u32, seq: u32, octets: usize) -> bool
    requires auth { auth < 2 ^ 24 }
    requires octets { octets ≤ 380 }
    ensures value { result ≡ piece_fits piece auth seq octets }
{
    match piece {
        TalkPiece::Whole => octets <= 11 && auth == seq,
        TalkPiece::Segment(seg_o) => {
            (seg_o as usize) < (octets + 15) / 12 && auth <= seq && seq <= auth + 8191
        }
    }
}

/// The PDU of `bK talk NET UKEY IV TTL AUTH SEQ SRC DST PIECE PAYLOAD`.
#[tactic(auto, unfolding(script_definitions::specs::Lines::talk_pdu))]
fn talk_pdu(words: &[&[u8]]) -> Option<TalkPdu>
    requires { length words.now ≡ 12 }
    ensures value { result ≡ talk_pdu (map (λ w. w.now) words.now) }
    ensures ranges { IfSome result IsTalkPdu }
{
    let iv = number(word(words, 4), 8)?;
    let ttl = ttl(word(words, 5))?;
    let auth = number(word(words, 6), 6)?;
    let seq = number(word(words, 7), 6)?;
    let src = address(word(words, 8))?;
    let dst = talk_dst(word(words, 9))?;
    let piece = piece(word(words, 10))?;
    Some(TalkPdu {
        iv,
        ttl,
        auth,
        seq,
        src,
        dst,
        piece,
    })
}

/// The same line with this payload.
#[tactic(auto, unfolding(script_definitions::specs::Lines::talk_with))]
fn talk_with(words: &[&[u8]], payload: Payload) -> Option<TalkLine>
    requires words { length words.now ≡ 12 }
    requires payload { IsPayload payload }
    ensures value { result ≡ talk_with (map (λ w. w.now) words.now) payload }
    ensures ranges { IfSome result IsTalk }
{
    let net = net(word(words, 2))?;
    let key = talk_key(word(words, 3))?;
    let pdu = talk_pdu(words)?;
    let octets = payload.as_slice().len();
    if piece_fits(pdu.piece, pdu.auth, pdu.seq, octets) {
        Some(TalkLine {
            net,
            key,
            pdu,
            payload,
        })
    } else {
        None
    }
}

/// `bK talk NET UKEY IV TTL AUTH SEQ SRC DST PIECE PAYLOAD`.
#[tactic(auto, unfolding(script_definitions::specs::Lines::talk_line))]
pub fn talk_line(alloc: Global, words: &[&[u8]]) -> Result<Option<TalkLine>, AllocError>
    requires { length words.now ≡ 12 }
    ensures value { IfOk result (λ t. t ≡ talk_line (map (λ w. w.now) words.now)) }
    ensures ranges { IfOk result (λ t. IfSome t IsTalk) }
{
    match payload(alloc, word(words, 11))? {
        Some(payload) => Ok(talk_with(words, payload)),
        None => Ok(None),
    }
}

/// `bK beacon NETKEY FLAGS IV`.
#[tactic(auto, unfolding(script_definitions::specs::Lines::beacon_line))]
pub fn beacon_line(words: &[&[u8]]) -> Option<BeaconLine>
    requires { length words.now ≡ 5 }
    ensures value { result ≡ beacon_line (map (λ w. w.now) words.now) }
    ensures ranges { IfSome result IsBeaconLine }
{
    let net_key = key(word(words, 2))?;
    let flags = flags(word(words, 3))?;
    let iv = number(word(words, 4), 8)?;
    if flags_fit(flags, iv) {
        Some(BeaconLine { net_key, flags, iv })
    } else {
        None
    }
}
