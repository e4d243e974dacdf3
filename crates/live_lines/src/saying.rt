//! What a line says to a node.
#![tactic(auto)]

ghost use Rattle.std.specs.Prelude.{◌≡◌, map, IfOk};
ghost use Rattle.script_definitions.specs.Kinds.{bearer_word, event_word};
ghost use Rattle.script_definitions.specs.declared.kind.Grammar.TheVariants as G;
ghost use Rattle.live_lines.specs.Saying.{IsSaid, full_words, is_left_out, is_own, line_says, words_say};

use script_definitions::kind::Grammar;
use script_definitions::line::{CountedLine, ScriptLine};
use script_reader::counted::{Rule, bearer, counted_line, event};
use script_reader::reading::{has_form, is_counted};
use script_reader::words::{first_word, words_of};
use std::alloc::{AllocError, Global};

/// What a line says to a node.
#[derive(Drop)]
pub enum Saying {
    /// Nothing: it is empty, or a comment.
    Nothing,
    /// This happens on a bearer that the node has.
    Happens(ScriptLine),
    /// It is wrong, and fails by this rule first: 1, 3, 4 or 5.
    Wrong(Rule),
}

/// Whether a word is that of a bearer, of so many.
fn is_own(bearers: u8, word: &[u8]) -> bool
    ensures value { result ≡ is_own bearers (bearer_word G.Node word.now) }
{
    match bearer(Grammar::Node, word) {
        Some(k) => k < bearers,
        None => false,
    }
}

/// Whether a line that begins with this word leaves out that of the one bearer.
fn is_left_out(bearers: u8, word: &[u8]) -> bool
    ensures value { result ≡ is_left_out bearers (event_word word.now) }
{
    match event(word) {
        Some(_) => bearers == 1,
        None => false,
    }
}

/// The words of a line with that of its bearer, where it was left out.
fn full_words<'a>(bearers: u8, mut words: Vec<&'a [u8]>) -> Result<Vec<&'a [u8]>, AllocError>
    ensures value { IfOk result
        (λ v. map (λ w. w.now) v.items ≡ full_words bearers (map (λ w. w.now) words.entry.items)) }
{
    if is_left_out(bearers, first_word(words.as_slice())) {
        words.insert(0, b"b0".as_slice())?;
    }
    Ok(words)
}

/// What these words say, of which the first is that of a bearer.
fn words_say(
    alloc: Global,
    bearers: u8,
    elements: u8,
    words: &[&[u8]],
) -> Result<Saying, AllocError>
    ensures value { IfOk result (λ s. s ≡ words_say bearers elements (map (λ w. w.now) words.now)) }
    ensures ranges { IfOk result (IsSaid elements) }
{
    if !is_own(bearers, first_word(words)) {
        return Ok(Saying::Wrong(3));
    }
    match counted_line(alloc, Grammar::Node, elements, words)? {
        Ok(CountedLine::Line(line)) => Ok(Saying::Happens(line)),
        Ok(_) => Ok(Saying::Wrong(3)),
        Err(rule) => Ok(Saying::Wrong(rule)),
    }
}

/// What a line says to a node with so many bearers and elements: a line of a bearer as a script has it (`read_script` of `script_reader`),
/// or nothing, or it is wrong by one of these rules:
///
/// 1. the line has more than 1,200 octets, or one outside 20 to 7e
/// 3. an unknown word of a line, or a bearer that the node hasn't
/// 4. a wrong number of words
/// 5. a word that isn't of its form or range
///
/// Where the node has one bearer alone, its word `b0` may be left out.
#[tactic(auto, unfolding(crate::specs::Saying::line_says))]
pub fn line_says(
    alloc: Global,
    bearers: u8,
    elements: u8,
    line: &[u8],
) -> Result<Saying, AllocError>
    ensures value { IfOk result (λ s. s ≡ line_says bearers elements line.now) }
    ensures ranges { IfOk result (IsSaid elements) }
{
    if !has_form(line) {
        return Ok(Saying::Wrong(1));
    }
    if !is_counted(line) {
        return Ok(Saying::Nothing);
    }
    let words = full_words(bearers, words_of(alloc, line)?)?;
    words_say(alloc, bearers, elements, words.as_slice())
}
