//! The lines of what the node itself does on a bearer, and any line of a bearer.
#![tactic(auto)]

ghost use Rattle.std.specs.Prelude.{◌≡◌, ◌≤◌, ◌<◌, length, map, IfOk, IfSome};
ghost use Rattle.script_definitions.specs.Kinds.{bearer_count, event_line, event_words};
ghost use Rattle.script_definitions.specs.Lines.{is_send_dst, send_with, send_line, raw_line, tick_line, list_line};
ghost use Rattle.script_definitions.specs.Ranges.{IsLine, IsOn, IsPayload, IsRaw, IsSend};

use crate::digits::{decimal, payload};
use crate::forms::{address, send_key, tpdu, ttl};
use crate::outside_lines::{beacon_line, heard_line, peer_line, talk_line};
use crate::words::word;
use mesh_base::address::Address;
use script_definitions::kind::{EventKind, Grammar};
use script_definitions::line::{RawLine, ScriptLine, SendLine};
use script_definitions::payload::Payload;
use std::alloc::{AllocError, Global};

/// Whether an address is neither unassigned nor virtual.
fn is_send_dst(dst: u16) -> bool
    ensures value { result ≡ is_send_dst dst }
{
    (dst >= 1 && dst < 0x8000) || dst >= 0xc000
}

/// `bK send ELEMENT DST TTL KEY PAYLOAD` with this payload, where the node has so many elements.
#[tactic(auto, unfolding(script_definitions::specs::Lines::send_with))]
fn send_with(elements: u8, words: &[&[u8]], payload: Payload) -> Option<SendLine>
    requires words { length words.now ≡ 7 }
    requires payload { IsPayload payload }
    ensures value { result ≡ send_with elements (map (λ w. w.now) words.now) payload }
    ensures ranges { IfSome result (IsSend elements) }
{
    let element = decimal(word(words, 2), 1)? as u8;
    let dst = address(word(words, 3))?;
    let ttl = ttl(word(words, 4))?;
    let key = send_key(word(words, 5))?;
    if element < elements && is_send_dst(dst.0) {
        Some(SendLine {
            element,
            dst,
            ttl,
            key,
            payload,
        })
    } else {
        None
    }
}

/// `bK send ELEMENT DST TTL KEY PAYLOAD`, where the node has so many elements.
#[tactic(auto, unfolding(script_definitions::specs::Lines::send_line))]
fn send_line(alloc: Global, elements: u8, words: &[&[u8]]) -> Result<Option<SendLine>, AllocError>
    requires { length words.now ≡ 7 }
    ensures value { IfOk result (λ s. s ≡ send_line elements (map (λ w. w.now) words.now)) }
    ensures ranges { IfOk result (λ s. IfSome s (IsSend elements)) }
{
    match payload(alloc, word(words, 6))? {
        Some(payload) => Ok(send_with(elements, words, payload)),
        None => Ok(None),
    }
}

/// `bK raw DST TTL TPDU`.
#[tactic(auto, unfolding(script_definitions::specs::Lines::raw_line))]
fn raw_line(words: &[&[u8]]) -> Option<RawLine>
    requires { length words.now ≡ 5 }
    ensures value { result ≡ raw_line (map (λ w. w.now) words.now) }
    ensures ranges { IfSome result IsRaw }
{
    let dst = address(word(words, 2))?;
    let ttl = ttl(word(words, 3))?;
    let tpdu = tpdu(word(words, 4), true)?;
    if dst.0 >= 1 {
        Some(RawLine { dst, ttl, tpdu })
    } else {
        None
    }
}

/// `bK tick N`.
#[tactic(auto, unfolding(script_definitions::specs::Lines::tick_line))]
fn tick_line(words: &[&[u8]]) -> Option<u32>
    requires { length words.now ≡ 3 }
    ensures value { result ≡ tick_line (map (λ w. w.now) words.now) }
    ensures ranges { IfSome result (λ n. (1 ≤ n) × (n ≤ 100000000)) }
{
    let ticks = decimal(word(words, 2), 9)?;
    if ticks >= 1 && ticks <= 100_000_000 {
        Some(ticks)
    } else {
        None
    }
}

/// `b0 list ADDR`.
#[tactic(auto, unfolding(script_definitions::specs::Lines::list_line))]
fn list_line(words: &[&[u8]]) -> Option<Address>
    requires { length words.now ≡ 3 }
    ensures value { result ≡ list_line (map (λ w. w.now) words.now) }
    ensures ranges { IfSome result (λ a. (0xc000 ≤ a.0) × (a.0 ≤ 0xfeff)) }
{
    let address = address(word(words, 2))?;
    if address.0 >= 0xc000 && address.0 <= 0xfeff {
        Some(address)
    } else {
        None
    }
}

/// A line of a bearer of the grammar, by what happens there; the node has so many elements.
pub fn event_line(
    alloc: Global,
    grammar: Grammar,
    elements: u8,
    bearer: u8,
    event: EventKind,
    words: &[&[u8]],
) -> Result<Option<ScriptLine>, AllocError>
    requires on { IsOn grammar bearer event }
    requires count { length words.now ≡ event_words event }
    ensures value { IfOk result (λ l. l ≡ event_line elements bearer event (map (λ w. w.now) words.now)) }
    ensures ranges { IfOk result (λ l. IfSome l (IsLine grammar elements)) }
{
    match event {
        EventKind::Net => Ok(heard_line(words).map(|octets| ScriptLine::Net { bearer, octets })),
        EventKind::Bcn => Ok(heard_line(words).map(|octets| ScriptLine::Bcn { bearer, octets })),
        EventKind::Peer => Ok(peer_line(words).map(|peer| ScriptLine::Peer { bearer, peer })),
        EventKind::Talk => {
            Ok(talk_line(alloc, words)?.map(|talk| ScriptLine::Talk { bearer, talk }))
        }
        EventKind::Beacon => {
            Ok(beacon_line(words).map(|beacon| ScriptLine::Beacon { bearer, beacon }))
        }
        EventKind::Send => {
            Ok(send_line(alloc, elements, words)?.map(|send| ScriptLine::Send { bearer, send }))
        }
        EventKind::Raw => Ok(raw_line(words).map(|raw| ScriptLine::Raw { bearer, raw })),
        EventKind::Tick => Ok(tick_line(words).map(|ticks| ScriptLine::Tick { bearer, ticks })),
        EventKind::Seek => Ok(Some(ScriptLine::Seek { bearer })),
        EventKind::Poll => Ok(Some(ScriptLine::Poll { bearer })),
        EventKind::List => Ok(list_line(words).map(|address| ScriptLine::List { bearer, address })),
    }
}
