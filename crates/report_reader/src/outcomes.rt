//! What became of a job, by the fields of its line. The word of the result is field 4.
#![tactic(auto)]

ghost use Rattle.std.specs.Prelude.{◌≡◌, length, map, IfSome};
ghost use Rattle.hex.specs.Hex.{IsBytes};
ghost use Rattle.report_reader.specs.Outcomes.{ctl, msg, long, seg, relay, rep, beacon_word, outcome_of};
ghost use Rattle.report_reader.specs.ReportLine.{IsToldOutcome};

use crate::forms::{field, key_name, name, octets, pair, route, small_count};
use hex::FromHex;
use mesh_types::lines::Outcome;
use script_reader::digits::number;
use script_reader::forms::bit;

/// `ctl IV SEQ TTL SRC DST TPDU` and the PDU.
#[tactic(auto, unfolding(crate::specs::Outcomes::ctl))]
fn ctl(fields: &[&[u8]]) -> Option<Outcome>
    ensures value { result ≡ ctl (map (λ w. w.now) fields.now) }
    ensures ranges { IfSome result IsToldOutcome }
{
    let pair = pair(fields, 5)?;
    let (ttl, src, dst) = route(fields, 7)?;
    let tpdu = octets(field(fields, 10))?;
    let pdu = octets(field(fields, 11))?;
    Some(Outcome::Ctl {
        pair,
        ttl,
        src,
        dst,
        tpdu,
        pdu,
    })
}

/// `msg IV SEQ TTL SRC DST KEY PAYLOAD` and the PDU.
#[tactic(auto, unfolding(crate::specs::Outcomes::msg))]
fn msg(fields: &[&[u8]]) -> Option<Outcome>
    ensures value { result ≡ msg (map (λ w. w.now) fields.now) }
    ensures ranges { IfSome result IsToldOutcome }
{
    let pair = pair(fields, 5)?;
    let (ttl, src, dst) = route(fields, 7)?;
    let key = key_name(field(fields, 10))?;
    let payload = octets(field(fields, 11))?;
    let pdu = octets(field(fields, 12))?;
    Some(Outcome::Msg {
        pair,
        ttl,
        src,
        dst,
        key,
        payload,
        pdu,
    })
}

/// `long IV SEQ TTL SRC DST KEY PAYLOAD`.
#[tactic(auto, unfolding(crate::specs::Outcomes::long))]
fn long(fields: &[&[u8]]) -> Option<Outcome>
    ensures value { result ≡ long (map (λ w. w.now) fields.now) }
    ensures ranges { IfSome result IsToldOutcome }
{
    let pair = pair(fields, 5)?;
    let (ttl, src, dst) = route(fields, 7)?;
    let key = key_name(field(fields, 10))?;
    let payload = octets(field(fields, 11))?;
    Some(Outcome::Long {
        pair,
        ttl,
        src,
        dst,
        key,
        payload,
    })
}

/// `seg IV SEQ TTL SRC DST O N AUTH` and the PDU.
#[tactic(auto, unfolding(crate::specs::Outcomes::seg))]
fn seg(fields: &[&[u8]]) -> Option<Outcome>
    ensures value { result ≡ seg (map (λ w. w.now) fields.now) }
    ensures ranges { IfSome result IsToldOutcome }
{
    let pair = pair(fields, 5)?;
    let (ttl, src, dst) = route(fields, 7)?;
    let seg_o = small_count(field(fields, 10))?;
    let seg_n = small_count(field(fields, 11))?;
    let auth = number(field(fields, 12), 6)?;
    let pdu = octets(field(fields, 13))?;
    Some(Outcome::Seg {
        pair,
        ttl,
        src,
        dst,
        seg_o,
        seg_n,
        auth,
        pdu,
    })
}

/// `relay IV SEQ CTL TTL SRC DST TPDU` and the PDU.
#[tactic(auto, unfolding(crate::specs::Outcomes::relay))]
fn relay(fields: &[&[u8]]) -> Option<Outcome>
    ensures value { result ≡ relay (map (λ w. w.now) fields.now) }
    ensures ranges { IfSome result IsToldOutcome }
{
    let pair = pair(fields, 5)?;
    let ctl = bit(field(fields, 7))?;
    let (ttl, src, dst) = route(fields, 8)?;
    let tpdu = octets(field(fields, 11))?;
    let pdu = octets(field(fields, 12))?;
    Some(Outcome::Relay {
        pair,
        ctl,
        ttl,
        src,
        dst,
        tpdu,
        pdu,
    })
}

/// `rep SRC IV SEQ` and the PDU.
#[tactic(auto, unfolding(crate::specs::Outcomes::rep))]
fn rep(fields: &[&[u8]]) -> Option<Outcome>
    ensures value { result ≡ rep (map (λ w. w.now) fields.now) }
    ensures ranges { IfSome result IsToldOutcome }
{
    let name = name(fields, 5)?;
    let pdu = octets(field(fields, 8))?;
    Some(Outcome::Rep { name, pdu })
}

/// A beacon of 22 octets.
#[tactic(auto, unfolding(crate::specs::Outcomes::beacon_word))]
fn beacon(word: &[u8]) -> Option<[u8; 22]>
    ensures value { result ≡ beacon_word word.now }
    ensures ranges { IfSome result (λ o. (length o ≡ 22) × IsBytes o) }
{
    <[u8; 22]>::from_hex(word).ok()
}

/// What became of a job, as the fields of its line say.
#[tactic(auto, unfolding(crate::specs::Outcomes::outcome_of))]
pub fn outcome(fields: &[&[u8]]) -> Option<Outcome>
    ensures value { result ≡ outcome_of (map (λ w. w.now) fields.now) }
    ensures ranges { IfSome result IsToldOutcome }
{
    let word = field(fields, 4);
    if word == b"ctl".as_slice() {
        ctl(fields)
    } else if word == b"msg".as_slice() {
        msg(fields)
    } else if word == b"long".as_slice() {
        long(fields)
    } else if word == b"seg".as_slice() {
        seg(fields)
    } else if word == b"relay".as_slice() {
        relay(fields)
    } else if word == b"rep".as_slice() {
        rep(fields)
    } else if word == b"bcn".as_slice() {
        beacon(field(fields, 5)).map(Outcome::Bcn)
    } else if word == b"spent".as_slice() {
        number(field(fields, 5), 8).map(|iv| Outcome::Spent { iv })
    } else if word == b"late".as_slice() {
        pair(fields, 5).map(|pair| Outcome::Late { pair })
    } else {
        None
    }
}
