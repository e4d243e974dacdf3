//! What a counted line says: its kind by its first words, the number of its words, and what they stand for.
#![tactic(auto)]

ghost use Rattle.std.specs.Prelude.{◌≡◌, ◌≤◌, ◌<◌, length, map, IfOk, IfSome};
ghost use Rattle.script_definitions.specs.Kinds.{bearer_count, bearer_word, event_word, has_event, is_sync, line_kind, bearer_kind, word_count, fields_of};
ghost use Rattle.script_definitions.specs.Reading.{line_of_kind, counted_line};
ghost use Rattle.script_definitions.specs.Ranges.{IsCounted, IsKind};

use crate::event_lines::event_line;
use crate::node_lines::{arm_line, provision_line};
use crate::words::{first_word, word};
use script_definitions::kind::{EventKind, Grammar, LineKind};
use script_definitions::line::{CountedLine, ScriptLine};
use std::alloc::{AllocError, Global};

/// A line failed by one of the rules, counted from 1.
pub type Rule = u8;

/// How many bearers a grammar has.
fn bearer_count(grammar: Grammar) -> u8
    ensures value { result ≡ bearer_count grammar }
    ensures bound { result ≤ 8 }
{
    match grammar {
        Grammar::Node => 8,
        Grammar::LowPower => 1,
    }
}

/// K of a word `bK`, below the number of bearers of the grammar; None where the word is no such word.
#[tactic(auto, unfolding(script_definitions::specs::Kinds::bearer_word))]
pub fn bearer(grammar: Grammar, word: &[u8]) -> Option<u8>
    ensures value { result ≡ bearer_word grammar word.now }
    ensures bound { IfSome result (λ k. k < bearer_count grammar) }
{
    if word.len() == 2
        && word[0] == b'b'
        && word[1] >= b'0'
        && word[1] < b'0' + bearer_count(grammar)
    {
        Some(word[1] - b'0')
    } else {
        None
    }
}

/// What happens on a bearer, by the second word of its line; None where there is no such word.
#[tactic(auto, unfolding(script_definitions::specs::Kinds::event_word))]
pub fn event(word: &[u8]) -> Option<EventKind>
    ensures value { result ≡ event_word word.now }
{
    if word == b"net".as_slice() {
        Some(EventKind::Net)
    } else if word == b"bcn".as_slice() {
        Some(EventKind::Bcn)
    } else if word == b"peer".as_slice() {
        Some(EventKind::Peer)
    } else if word == b"talk".as_slice() {
        Some(EventKind::Talk)
    } else if word == b"beacon".as_slice() {
        Some(EventKind::Beacon)
    } else if word == b"send".as_slice() {
        Some(EventKind::Send)
    } else if word == b"raw".as_slice() {
        Some(EventKind::Raw)
    } else if word == b"tick".as_slice() {
        Some(EventKind::Tick)
    } else if word == b"seek".as_slice() {
        Some(EventKind::Seek)
    } else if word == b"poll".as_slice() {
        Some(EventKind::Poll)
    } else if word == b"list".as_slice() {
        Some(EventKind::List)
    } else {
        None
    }
}

/// Whether a grammar has such lines of a bearer.
fn has_event(grammar: Grammar, event: EventKind) -> bool
    ensures value { result ≡ has_event grammar event }
{
    match (grammar, event) {
        (Grammar::Node, EventKind::Seek | EventKind::Poll | EventKind::List) => false,
        (Grammar::Node, _) => true,
        (
            Grammar::LowPower,
            EventKind::Net | EventKind::Peer | EventKind::Seek | EventKind::Poll | EventKind::List,
        ) => true,
        (Grammar::LowPower, _) => false,
    }
}

/// Whether the word is `sync`, of a grammar that has such lines.
fn is_sync(grammar: Grammar, word: &[u8]) -> bool
    ensures value { result ≡ is_sync grammar word.now }
{
    match grammar {
        Grammar::Node => word == b"sync".as_slice(),
        Grammar::LowPower => false,
    }
}

/// The kind of a line of this bearer, by its second word.
fn bearer_kind(grammar: Grammar, words: &[&[u8]], bearer: Option<u8>) -> Result<LineKind, Rule>
    requires { IfSome bearer (λ k. k < bearer_count grammar) }
    ensures value { result ≡ bearer_kind grammar (map (λ w. w.now) words.now) bearer }
    ensures ranges { IfOk result (IsKind grammar) }
{
    match bearer {
        None => Err(3),
        Some(bearer) => {
            if words.len() < 2 {
                return Err(4);
            }
            match event(word(words, 1)) {
                Some(event) if has_event(grammar, event) => Ok(LineKind::Bearer { bearer, event }),
                _ => Err(3),
            }
        }
    }
}

/// The kind of a line, by its first words, or the rule that fails: 3, or 4 where the word of a bearer stands alone.
#[tactic(auto, unfolding(script_definitions::specs::Kinds::line_kind))]
fn line_kind(grammar: Grammar, words: &[&[u8]]) -> Result<LineKind, Rule>
    ensures value { result ≡ line_kind grammar (map (λ w. w.now) words.now) }
    ensures ranges { IfOk result (IsKind grammar) }
{
    let name = first_word(words);
    if name == b"provision".as_slice() {
        Ok(LineKind::Provision)
    } else if name == b"life".as_slice() {
        Ok(LineKind::Life)
    } else if name == b"arm".as_slice() {
        Ok(LineKind::Arm)
    } else if is_sync(grammar, name) {
        Ok(LineKind::Sync)
    } else {
        bearer_kind(grammar, words, bearer(grammar, name))
    }
}

/// How many words a line of a kind has.
fn word_count(kind: LineKind) -> usize
    ensures value { result ≡ word_count kind }
{
    match kind {
        LineKind::Provision => 8,
        LineKind::Life | LineKind::Sync => 1,
        LineKind::Arm => 3,
        LineKind::Bearer { event, .. } => match event {
            EventKind::Net | EventKind::Bcn | EventKind::Tick | EventKind::List => 3,
            EventKind::Peer => 10,
            EventKind::Talk => 12,
            EventKind::Beacon | EventKind::Raw => 5,
            EventKind::Send => 7,
            EventKind::Seek | EventKind::Poll => 2,
        },
    }
}

/// What the words of a line of a kind of the grammar stand for; None where one isn't of its form or range.
fn fields_of(
    alloc: Global,
    grammar: Grammar,
    elements: u8,
    kind: LineKind,
    words: &[&[u8]],
) -> Result<Option<CountedLine>, AllocError>
    requires kind { IsKind grammar kind }
    requires count { length words.now ≡ word_count kind }
    ensures value { IfOk result (λ l. l ≡ fields_of elements kind (map (λ w. w.now) words.now)) }
    ensures ranges { IfOk result (λ l. IfSome l (IsCounted grammar elements)) }
{
    match kind {
        LineKind::Provision => Ok(provision_line(words).map(CountedLine::Provision)),
        LineKind::Life => Ok(Some(CountedLine::Life)),
        LineKind::Sync => Ok(Some(CountedLine::Line(ScriptLine::Sync))),
        LineKind::Arm => Ok(arm_line(words).map(|arm| CountedLine::Line(ScriptLine::Arm(arm)))),
        LineKind::Bearer { bearer, event } => {
            Ok(event_line(alloc, grammar, elements, bearer, event, words)?.map(CountedLine::Line))
        }
    }
}

/// What the words of a line of a kind of the grammar stand for, or the rule that fails: 4 or 5.
#[tactic(auto, unfolding(script_definitions::specs::Reading::line_of_kind))]
fn line_of_kind(
    alloc: Global,
    grammar: Grammar,
    elements: u8,
    kind: LineKind,
    words: &[&[u8]],
) -> Result<Result<CountedLine, Rule>, AllocError>
    requires { IsKind grammar kind }
    ensures value { IfOk result (λ l. l ≡ line_of_kind elements kind (map (λ w. w.now) words.now)) }
    ensures ranges { IfOk result (λ l. IfOk l (IsCounted grammar elements)) }
{
    if words.len() == word_count(kind) {
        match fields_of(alloc, grammar, elements, kind, words)? {
            Some(line) => Ok(Ok(line)),
            None => Ok(Err(5)),
        }
    } else {
        Ok(Err(4))
    }
}

/// What the words of a counted line say, where the node has so many elements, or the rule that fails: 3, 4 or 5.
#[tactic(auto, unfolding(script_definitions::specs::Reading::counted_line))]
pub fn counted_line(
    alloc: Global,
    grammar: Grammar,
    elements: u8,
    words: &[&[u8]],
) -> Result<Result<CountedLine, Rule>, AllocError>
    ensures value { IfOk result (λ l. l ≡ counted_line grammar elements (map (λ w. w.now) words.now)) }
    ensures ranges { IfOk result (λ l. IfOk l (IsCounted grammar elements)) }
{
    match line_kind(grammar, words) {
        Ok(kind) => line_of_kind(alloc, grammar, elements, kind, words),
        Err(rule) => Ok(Err(rule)),
    }
}
