//! The keys of a new node. They are read from a text, and never from a word of the command, which others on the machine can read.
#![tactic(auto)]

ghost use Rattle.std.specs.Prelude.{◌≡◌, ◌==◌, ◌++◌, ◌∷◌, [], not, length, map, IfOk, OnOk, if◌then◌else◌};
ghost use Rattle.std.specs.List.{slice_split};
ghost use Rattle.daemon_words.specs.Keys.{is_blank, keys_in, keys_of, words_of};

use script_reader::digits::key;
use std::alloc::{AllocError, Global};

/// The keys of a new node. There is no `Debug` of it, since it holds keys.
#[derive(Clone, Copy, PartialEq, Eq)]
pub struct NodeKeys {
    /// The network key.
    pub net_key: [u8; 16],
    /// The device key.
    pub dev_key: [u8; 16],
}

/// Whether an octet parts words: a space, a LF or a CR.
fn is_blank(octet: u8) -> bool
    ensures value { result ≡ is_blank octet }
{
    octet == b' ' || octet == b'\n' || octet == b'\r'
}

/// The pieces of a text that its blanks part.
fn pieces(alloc: Global, text: &[u8]) -> Result<Vec<&[u8]>, AllocError>
    ensures value { IfOk result (λ v. map (λ p. p.now) v.items ≡ slice_split is_blank text.now) }
{
    text.split(|b| is_blank(*b)).collect(alloc)
}

/// Puts a piece behind the words, unless it is empty.
fn push_word<'a>(words: &mut Vec<&'a [u8]>, piece: &'a [u8]) -> Result<(), AllocError>
    ensures ok { OnOk result
        (map (λ w. w.now) words.new.items
        ≡ map (λ w. w.now) words.old.items ++ (if not (length piece.now == 0) then piece.now ∷ [] else [])) }
{
    if piece.len() != 0 {
        words.push(piece)?;
    }
    Ok(())
}

/// The words of a text: its pieces but the empty ones.
fn words_of(alloc: Global, text: &[u8]) -> Result<Vec<&[u8]>, AllocError>
    ensures value { IfOk result (λ v. map (λ w. w.now) v.items ≡ words_of text.now) }
{
    let pieces = pieces(alloc, text)?;
    let mut words = Vec::new(alloc);
    for piece in &pieces {
        push_word(&mut words, *piece)?;
    }
    Ok(words)
}

/// The keys that two words are.
fn keys_in(words: &[&[u8]]) -> Option<NodeKeys>
    ensures value { result ≡ keys_in (map (λ w. w.now) words.now) }
{
    if words.len() != 2 {
        return None;
    }
    let net_key = key(words[0])?;
    let dev_key = key(words[1])?;
    Some(NodeKeys { net_key, dev_key })
}

/// The two keys that a text is: the network key and the device key, each a word of 32 hexadecimal digits in either case. Spaces and line breaks
/// part words, and may stand before and behind them. None where it is anything else.
pub fn keys_of(alloc: Global, text: &[u8]) -> Result<Option<NodeKeys>, AllocError>
    ensures value { IfOk result (λ keys. keys ≡ keys_of text.now) }
{
    let words = words_of(alloc, text)?;
    Ok(keys_in(words.as_slice()))
}
