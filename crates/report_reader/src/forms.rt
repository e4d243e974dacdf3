//! The fields of a line, and what they stand for; None where they are of another form.
#![tactic(auto)]

ghost use Rattle.std.specs.Prelude.{◌≡◌, ◌+◌, ◌^◌, ◌<◌, ◌≤◌, length, map, IfOk, IfSome};
ghost use Rattle.mesh_base.specs.Pairs.{IsPair};
ghost use Rattle.script_definitions.specs.Words.{word_at};
ghost use Rattle.report_reader.specs.Forms.{is_gap, fields_of, next_digit, decimal_from, below_word, pair_at, name_at, route_at, key_name_word, octets_word};
ghost use Rattle.report_reader.specs.ReportLine.{IsAddress, IsName, IsKeyName, IsRoute, IsOctets};

use mesh_base::address::Address;
use mesh_base::octets::Octets;
use mesh_base::pair::{Name, Pair};
use mesh_types::answers::KeyName;
use script_reader::digits::number;
use script_reader::forms::address;
use std::alloc::{AllocError, Global};

/// Whether an octet parts two fields: a space, a dot, a slash or LF.
fn is_gap(b: u8) -> bool
    ensures value { result ≡ is_gap b }
{
    b == b' ' || b == b'.' || b == b'/' || b == b'\n'
}

/// The fields of a text.
pub fn fields_of(alloc: Global, text: &[u8]) -> Result<Vec<&[u8]>, AllocError>
    ensures value { IfOk result (λ v. map (λ w. w.now) v.items ≡ fields_of text.now) }
{
    text.split(|b| is_gap(*b)).collect(alloc)
}

/// The field at a place, counted from 0; the empty one past the end.
pub fn field<'a>(fields: &[&'a [u8]], at: usize) -> &'a [u8]
    ensures value { result.now ≡ word_at (map (λ w. w.now) fields.now) at }
{
    if at < fields.len() { fields[at] } else { b"" }
}

/// The number with one more decimal digit, as long as it has 64 bits.
fn with_digit(n: u64, c: u8) -> Option<u64>
    ensures value { result ≡ next_digit n c }
{
    if c >= b'0' && c <= b'9' {
        n.checked_mul(10)?.checked_add(u64::from(c - b'0'))
    } else {
        None
    }
}

/// The number of decimal digits, as long as it has 64 bits.
pub fn decimal(word: &[u8]) -> Option<u64>
    ensures value { result ≡ decimal_from 0 word.now }
{
    let mut n: u64 = 0;
    for c in word {
        match with_digit(n, *c) {
            Some(more) => n = more,
            None => return None,
        }
    }
    Some(n)
}

/// A decimal number of 32 bits.
#[tactic(auto, unfolding(crate::specs::Forms::below_word))]
pub fn count(word: &[u8]) -> Option<u32>
    ensures value { result ≡ below_word (2 ^ 32) word.now }
{
    let n = decimal(word)?;
    if n < 1 << 32 { Some(n as u32) } else { None }
}

/// A decimal number of 8 bits.
#[tactic(auto, unfolding(crate::specs::Forms::below_word))]
pub fn small_count(word: &[u8]) -> Option<u8>
    ensures value { result ≡ below_word (2 ^ 8) word.now }
{
    let n = decimal(word)?;
    if n < 1 << 8 { Some(n as u8) } else { None }
}

/// An IV Index and a SEQ in two fields.
#[tactic(auto, unfolding(crate::specs::Forms::pair_at))]
pub fn pair(fields: &[&[u8]], at: usize) -> Option<Pair>
    requires { at < 64 }
    ensures value { result ≡ pair_at (map (λ w. w.now) fields.now) at }
    ensures ranges { IfSome result IsPair }
{
    let iv = number(field(fields, at), 8)?;
    let seq = number(field(fields, at + 1), 6)?;
    Some(Pair { iv, seq })
}

/// A name in three fields.
#[tactic(auto, unfolding(crate::specs::Forms::name_at))]
pub fn name(fields: &[&[u8]], at: usize) -> Option<Name>
    requires { at < 32 }
    ensures value { result ≡ name_at (map (λ w. w.now) fields.now) at }
    ensures ranges { IfSome result IsName }
{
    let src = address(field(fields, at))?;
    let pair = pair(fields, at + 1)?;
    Some(Name { src, pair })
}

/// TTL, SRC and DST in three fields.
#[tactic(auto, unfolding(crate::specs::Forms::route_at))]
pub fn route(fields: &[&[u8]], at: usize) -> Option<(u8, Address, Address)>
    requires { at < 32 }
    ensures value { result ≡ route_at (map (λ w. w.now) fields.now) at }
    ensures ranges { IfSome result (λ r. IsRoute r.0 r.1 r.2) }
{
    let ttl = number(field(fields, at), 2)? as u8;
    let src = address(field(fields, at + 1))?;
    let dst = address(field(fields, at + 2))?;
    Some((ttl, src, dst))
}

/// A key by its name: `dev`, or `app:` and the three digits of an index.
#[tactic(auto, unfolding(crate::specs::Forms::key_name_word))]
pub fn key_name(word: &[u8]) -> Option<KeyName>
    ensures value { result ≡ key_name_word word.now }
    ensures ranges { IfSome result IsKeyName }
{
    if word == b"dev".as_slice() {
        return Some(KeyName::Dev);
    }
    if word.len() < 4 {
        return None;
    }
    let (kind, digits) = word.split_at(4);
    if kind == b"app:".as_slice() {
        number(digits, 3).map(|index| KeyName::App(index as u16))
    } else {
        None
    }
}

/// At most so many octets, two digits each.
#[tactic(auto, unfolding(crate::specs::Forms::octets_word))]
pub fn octets<const N: usize>(word: &[u8]) -> Option<Octets<N>>
    requires { N ≤ 380 }
    ensures value { result ≡ octets_word N word.now }
    ensures ranges { IfSome result (IsOctets N) }
{
    if word.len() > 2 * N {
        return None;
    }
    let mut octets = [0u8; 380];
    let octets = &mut octets[..word.len() / 2];
    match hex::decode_to_slice(word, octets) {
        Ok(()) => Octets::of(octets).ok(),
        Err(_) => None,
    }
}
