//! What one word of a line stands for; None where it is of another form.
#![tactic(auto)]

ghost use Rattle.std.specs.Prelude.{◌≡◌, ◌+◌, ◌^◌, ◌<◌, ◌≤◌, length, take, codes, IfSome, if◌then◌else◌};
ghost use Rattle.std.specs.Bool.{OnTrue};
ghost use Rattle.std.specs.Str.{bytes_eq};
ghost use Rattle.script_definitions.specs.Forms.{address_word, ttl_word, bit_word, flags_word, flags_fit, tpdu_word, slashed, friendship_word, net_word, talk_key_word, talk_dst_word, piece_word, send_key_word};
ghost use Rattle.script_definitions.specs.Ranges.{IsSendKey};

use crate::digits::{key, number, octets, plain_decimal};
use mesh_base::address::Address;
use mesh_base::octets::Octets;
use mesh_types::events::SendKey;
use script_definitions::line::{ScriptNet, TalkDst, TalkKey, TalkPiece};

/// An address of any kind: four digits.
#[tactic(auto, unfolding(script_definitions::specs::Forms::address_word))]
pub fn address(word: &[u8]) -> Option<Address>
    ensures value { result ≡ address_word word.now }
{
    let n = number(word, 4)?;
    Some(Address(n as u16))
}

/// TTL: two digits, at most 7f.
#[tactic(auto, unfolding(script_definitions::specs::Forms::ttl_word))]
pub fn ttl(word: &[u8]) -> Option<u8>
    ensures value { result ≡ ttl_word word.now }
    ensures bound { IfSome result (λ n. n < 2 ^ 7) }
{
    let n = number(word, 2)?;
    if n < 0x80 { Some(n as u8) } else { None }
}

/// CTL: 0 or 1.
#[tactic(auto, unfolding(script_definitions::specs::Forms::bit_word))]
pub fn bit(word: &[u8]) -> Option<bool>
    ensures value { result ≡ bit_word word.now }
{
    if word == b"0".as_slice() {
        Some(false)
    } else if word == b"1".as_slice() {
        Some(true)
    } else {
        None
    }
}

/// FLAGS: two digits, 00 to 03.
#[tactic(auto, unfolding(script_definitions::specs::Forms::flags_word))]
pub fn flags(word: &[u8]) -> Option<u8>
    ensures value { result ≡ flags_word word.now }
    ensures bound { IfSome result (λ n. n < 4) }
{
    let n = number(word, 2)?;
    if n < 4 { Some(n as u8) } else { None }
}

/// Whether the IV Index is at least 1, as bit 1 of the flags asks.
pub fn flags_fit(flags: u8, iv: u32) -> bool
    ensures value { result ≡ flags_fit flags iv }
{
    flags < 2 || iv >= 1
}

/// A transport PDU: 1 to 16 octets, or 1 to 12 of a control message.
#[tactic(auto, unfolding(script_definitions::specs::Forms::tpdu_word))]
pub fn tpdu(word: &[u8], ctl: bool) -> Option<Octets<16>>
    ensures value { result ≡ tpdu_word ctl word.now }
    ensures bound { IfSome result (λ o. (1 ≤ length o) × (length o ≤ (if ctl then 12 else 16))) }
{
    if ctl {
        octets(word, 12)
    } else {
        octets(word, 16)
    }
}

/// A slash and four digits, at this place of a word.
#[tactic(auto, unfolding(script_definitions::specs::Forms::slashed))]
fn slashed(word: &[u8], at: usize) -> Option<u16>
    requires { at + 5 ≤ length word.now }
    ensures value { result ≡ slashed word.now at }
{
    if word[at] == b'/' {
        let n = number(&word[at + 1..at + 5], 4)?;
        Some(n as u16)
    } else {
        None
    }
}

/// The credentials of a friendship: `KEY/LPN/FRIEND/LPNCOUNTER/FRIENDCOUNTER`.
#[tactic(auto, unfolding(script_definitions::specs::Forms::friendship_word))]
fn friendship(word: &[u8]) -> Option<ScriptNet>
    requires { length word.now ≡ 52 }
    ensures value { result ≡ friendship_word word.now }
{
    let (digits, _) = word.split_at(32);
    let key = key(digits)?;
    let lpn = slashed(word, 32)?;
    let friend = slashed(word, 37)?;
    let lpn_counter = slashed(word, 42)?;
    let friend_counter = slashed(word, 47)?;
    Some(ScriptNet::Friendship {
        key,
        lpn: Address(lpn),
        friend: Address(friend),
        lpn_counter,
        friend_counter,
    })
}

/// NET: a network key, or the credentials of a friendship.
#[tactic(auto, unfolding(script_definitions::specs::Forms::net_word))]
pub fn net(word: &[u8]) -> Option<ScriptNet>
    ensures value { result ≡ net_word word.now }
{
    if word.len() == 52 {
        friendship(word)
    } else {
        key(word).map(ScriptNet::Master)
    }
}

/// UKEY: `dev:KEY` or `app:KEY`.
#[tactic(auto, unfolding(script_definitions::specs::Forms::talk_key_word))]
pub fn talk_key(word: &[u8]) -> Option<TalkKey>
    ensures value { result ≡ talk_key_word word.now }
{
    if word.len() < 4 {
        return None;
    }
    let (kind, digits) = word.split_at(4);
    if kind == b"dev:".as_slice() {
        key(digits).map(TalkKey::Device)
    } else if kind == b"app:".as_slice() {
        key(digits).map(TalkKey::App)
    } else {
        None
    }
}

/// Whether a word begins with `v:`.
fn is_label(word: &[u8]) -> bool
    ensures value { result ≡ bytes_eq (take 2 word.now) (codes "v:") }
    ensures length { OnTrue result (2 ≤ length word.now) }
{
    word.len() >= 2 && &word[..2] == b"v:".as_slice()
}

/// DST of `talk`: `v:` and the 32 digits of a label, or an address.
#[tactic(auto, unfolding(script_definitions::specs::Forms::talk_dst_word))]
pub fn talk_dst(word: &[u8]) -> Option<TalkDst>
    ensures value { result ≡ talk_dst_word word.now }
{
    if is_label(word) {
        key(&word[2..]).map(TalkDst::Label)
    } else {
        address(word).map(TalkDst::Address)
    }
}

/// PIECE: `u`, or SegO in decimal.
#[tactic(auto, unfolding(script_definitions::specs::Forms::piece_word))]
pub fn piece(word: &[u8]) -> Option<TalkPiece>
    ensures value { result ≡ piece_word word.now }
{
    if word == b"u".as_slice() {
        Some(TalkPiece::Whole)
    } else {
        plain_decimal(word, 2).map(|o| TalkPiece::Segment(o as u8))
    }
}

/// KEY of `send`: `dev`, `dev:KEY`, or `app:` and the three digits of an index.
#[tactic(auto, unfolding(script_definitions::specs::Forms::send_key_word))]
pub fn send_key(word: &[u8]) -> Option<SendKey>
    ensures value { result ≡ send_key_word word.now }
    ensures ranges { IfSome result IsSendKey }
{
    if word == b"dev".as_slice() {
        return Some(SendKey::Own);
    }
    if word.len() < 4 {
        return None;
    }
    let (kind, digits) = word.split_at(4);
    if kind == b"dev:".as_slice() {
        key(digits).map(SendKey::Other)
    } else if kind == b"app:".as_slice() {
        number(digits, 3).map(|index| SendKey::App(index as u16))
    } else {
        None
    }
}
