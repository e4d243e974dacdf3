//! A text cut into lines, and a line into words.
#![tactic(auto)]

ghost use Rattle.std.specs.Prelude.{◌≡◌, ◌<◌, ◌≤◌, ◌==◌, not, [], ◌∷◌, ◌++◌, length, map, IfOk, IfSome, OnOk, if◌then◌else◌};
ghost use Rattle.std.specs.Bool.{OnTrue};
ghost use Rattle.std.specs.Option.{option_map_or};
ghost use Rattle.script_definitions.specs.Words.{lines_of, without_cr, begins_with, ends_with, pieces, whole_words, words_of, word_at};

use memchr::memchr;
use std::alloc::{AllocError, Global};

/// What stands before an LF, without a CR directly before it.
pub fn without_cr(piece: &[u8]) -> &[u8]
    ensures value { result.now ≡ without_cr piece.now }
{
    if ends_with(piece, b'\r') {
        &piece[..piece.len() - 1]
    } else {
        piece
    }
}

/// The first line of a text, and the text behind it; None where it is the last line.
pub fn cut_line(text: &[u8]) -> (&[u8], Option<&[u8]>)
    ensures value { lines_of text.now ≡ result.0.now ∷ option_map_or (λ more. lines_of more.now) result.1 [] }
    ensures shorter { IfSome result.1 (λ more. length more.now < length text.now) }
{
    match memchr(b'\n', text) {
        Some(at) => (without_cr(&text[..at]), Some(&text[at + 1..])),
        None => (text, None),
    }
}

/// The first piece of a line that its spaces part, and the line behind that space; None where it is the last piece.
fn cut_piece(line: &[u8]) -> (&[u8], Option<&[u8]>)
    ensures value { pieces 32 line.now ≡ result.0.now ∷ option_map_or (λ more. pieces 32 more.now) result.1 [] }
    ensures shorter { IfSome result.1 (λ more. length more.now < length line.now) }
{
    match memchr(b' ', line) {
        Some(at) => (&line[..at], Some(&line[at + 1..])),
        None => (line, None),
    }
}

/// Puts a piece behind the words, unless it is empty.
fn push_word<'a>(words: &mut Vec<&'a [u8]>, piece: &'a [u8]) -> Result<(), AllocError>
    ensures ok { OnOk result
        (map (λ w. w.now) words.new.items
        ≡ map (λ w. w.now) words.old.items ++ (if not (length piece.now == 0) then piece.now ∷ [] else [])) }
{
    if piece.len() != 0 {
        words.push(piece)?;
    }
    Ok(())
}

/// Puts the pieces of a line behind the words, but the empty ones.
fn push_whole_words<'a>(words: &mut Vec<&'a [u8]>, line: &'a [u8]) -> Result<(), AllocError>
    ensures ok { OnOk result
        (map (λ w. w.now) words.new.items ≡ map (λ w. w.now) words.old.items ++ whole_words line.now) }
{
    let mut rest = Some(line);
    while let Some(text) = rest {
        let (piece, more) = cut_piece(text);
        push_word(words, piece)?;
        rest = more;
    }
    Ok(())
}

/// Puts an empty word behind the others, where it is wanted.
fn push_empty<'a>(words: &mut Vec<&'a [u8]>, wanted: bool) -> Result<(), AllocError>
    ensures ok { OnOk result
        (map (λ w. w.now) words.new.items ≡ map (λ w. w.now) words.old.items ++ (if wanted then [] ∷ [] else [])) }
{
    if wanted {
        words.push(b"".as_slice())?;
    }
    Ok(())
}

/// Whether a text begins with an octet that isn't 0.
pub fn begins_with(text: &[u8], c: u8) -> bool
    requires { 0 < c }
    ensures value { result ≡ begins_with c text.now }
{
    text.len() > 0 && text[0] == c
}

/// Whether a text ends with an octet that isn't 0.
fn ends_with(text: &[u8], c: u8) -> bool
    requires { 0 < c }
    ensures value { result ≡ ends_with c text.now }
{
    text.len() > 0 && text[text.len() - 1] == c
}

/// Makes these the words of a line, in place of those of the line before: one or more spaces part two; spaces before the first word or behind the
/// last make an empty word there, and a line of spaces alone is one empty word.
#[tactic(auto, unfolding(script_definitions::specs::Words::words_of))]
pub fn read_words<'a>(words: &mut Vec<&'a [u8]>, line: &'a [u8]) -> Result<(), AllocError>
    ensures ok { OnOk result (map (λ w. w.now) words.new.items ≡ words_of line.now) }
{
    words.clear();
    push_empty(words, begins_with(line, b' '))?;
    let before = words.len();
    push_whole_words(words, line)?;
    let open = ends_with(line, b' ') && words.len() != before;
    push_empty(words, open)
}

/// The words of a line, in a list of its own.
pub fn words_of(alloc: Global, line: &[u8]) -> Result<Vec<&[u8]>, AllocError>
    ensures value { IfOk result (λ v. map (λ w. w.now) v.items ≡ words_of line.now) }
{
    let mut words = Vec::new(alloc);
    read_words(&mut words, line)?;
    Ok(words)
}

/// The word at a place, counted from 0.
pub fn word<'a>(words: &[&'a [u8]], i: usize) -> &'a [u8]
    requires { i < length words.now }
    ensures value { result.now ≡ word_at (map (λ w. w.now) words.now) i }
{
    words[i]
}

/// The first word; the empty one where there is none.
pub fn first_word<'a>(words: &[&'a [u8]]) -> &'a [u8]
    ensures value { result.now ≡ word_at (map (λ w. w.now) words.now) 0 }
{
    if words.len() > 0 { words[0] } else { b"" }
}
