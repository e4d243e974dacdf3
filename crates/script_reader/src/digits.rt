//! Numbers, keys and octets that are written in digits. Hexadecimal digits are read in either case.
#![tactic(auto)]

ghost use Rattle.std.specs.Prelude.{◌≡◌, ◌^◌, ◌<◌, ◌≤◌, length, IfOk, IfSome};
ghost use Rattle.hex.specs.Hex.{hex_digit_value};
ghost use Rattle.script_definitions.specs.Digits.{number_word, decimal_value, decimal_from, decimal_word, plain_decimal_word, key_word, octets_word};

use hex::{FromHex, FromHexError};
use mesh_base::octets::Octets;
use script_definitions::payload::Payload;
use std::alloc::{AllocError, Global};

/// The value of one hexadecimal digit.
fn digit(c: u8) -> Option<u8>
    ensures value { result ≡ hex_digit_value c }
    ensures bound { IfSome result (λ d. d < 16) }
{
    match c {
        b'0'..=b'9' => Some(c - b'0'),
        b'A'..=b'F' => Some(c - b'A' + 10),
        b'a'..=b'f' => Some(c - b'a' + 10),
        _ => None,
    }
}

/// The number that a word of exactly so many hexadecimal digits stands for; None where the word is no such number.
#[tactic(auto, unfolding(script_definitions::specs::Digits::number_word))]
pub fn number(word: &[u8], digits: usize) -> Option<u32>
    requires { digits ≤ 8 }
    ensures value { result ≡ number_word digits word.now }
    ensures bound { IfSome result (λ n. n < 16 ^ digits) }
{
    if word.len() != digits {
        return None;
    }
    let mut n: u32 = 0;
    for c in word {
        match digit(*c) {
            Some(d) => n = 16 * n + d as u32,
            None => return None,
        }
    }
    Some(n)
}

/// The value of one decimal digit.
fn decimal_digit(c: u8) -> Option<u8>
    ensures value { result ≡ decimal_value c }
    ensures bound { IfSome result (λ d. d < 10) }
{
    match c {
        b'0'..=b'9' => Some(c - b'0'),
        _ => None,
    }
}

/// The number of at most nine decimal digits; None where one of the octets is no digit.
fn decimal_digits(word: &[u8]) -> Option<u32>
    requires { length word.now ≤ 9 }
    ensures value { result ≡ decimal_from 0 word.now }
    ensures bound { IfSome result (λ n. n < 10 ^ length word.now) }
{
    let mut n: u32 = 0;
    for c in word {
        match decimal_digit(*c) {
            Some(d) => n = 10 * n + d as u32,
            None => return None,
        }
    }
    Some(n)
}

/// The number that a word of at least one decimal digit and at most so many stands for, leading zeros allowed; None where the
/// word is no such number.
#[tactic(auto, unfolding(script_definitions::specs::Digits::decimal_word))]
pub fn decimal(word: &[u8], most: usize) -> Option<u32>
    requires { most ≤ 9 }
    ensures value { result ≡ decimal_word most word.now }
    ensures bound { IfSome result (λ n. n < 10 ^ most) }
{
    if word.len() >= 1 && word.len() <= most {
        decimal_digits(word)
    } else {
        None
    }
}

/// The same for a number in which no zero leads.
#[tactic(auto, unfolding(script_definitions::specs::Digits::plain_decimal_word))]
pub fn plain_decimal(word: &[u8], most: usize) -> Option<u32>
    requires { most ≤ 9 }
    ensures value { result ≡ plain_decimal_word most word.now }
    ensures bound { IfSome result (λ n. n < 10 ^ most) }
{
    if word.len() == 1 || word.first() != Some(&b'0') {
        decimal(word, most)
    } else {
        None
    }
}

/// The key that a word of 32 digits stands for; None where the word is no key.
#[tactic(auto, unfolding(script_definitions::specs::Digits::key_word))]
pub fn key(word: &[u8]) -> Option<[u8; 16]>
    ensures value { result ≡ key_word word.now }
{
    <[u8; 16]>::from_hex(word).ok()
}

/// The octets of a word, 1 to `most`, two digits each; None where the word is of another form.
#[tactic(auto, unfolding(script_definitions::specs::Digits::octets_word))]
pub fn octets<const N: usize>(word: &[u8], most: usize) -> Option<Octets<N>>
    requires room { most ≤ N }
    requires longest { most ≤ 40 }
    ensures value { result ≡ octets_word most word.now }
    ensures bound { IfSome result (λ o. (1 ≤ length o) × (length o ≤ most)) }
{
    if word.len() < 2 || word.len() > 2 * most {
        return None;
    }
    let mut octets = [0u8; 40];
    let octets = &mut octets[..word.len() / 2];
    match hex::decode_to_slice(word, octets) {
        Ok(()) => Octets::of(octets).ok(),
        Err(_) => None,
    }
}

/// The octets of a payload, 1 to 380, two digits each; None where the word is of another form. They take as much memory as they
/// need.
#[tactic(auto, unfolding(script_definitions::specs::Digits::octets_word))]
pub fn payload(alloc: Global, word: &[u8]) -> Result<Option<Payload>, AllocError>
    ensures value { IfOk result (λ p. p ≡ octets_word 380 word.now) }
    ensures bound { IfOk result (λ p. IfSome p (λ octets. (1 ≤ length octets) × (length octets ≤ 380))) }
{
    if word.len() >= 2 && word.len() <= 760 {
        match hex::decode(alloc, word) {
            Ok(octets) => Ok(Some(Payload::of(octets))),
            Err(FromHexError::OutOfMemory) => Err(AllocError),
            Err(_) => Ok(None),
        }
    } else {
        Ok(None)
    }
}
