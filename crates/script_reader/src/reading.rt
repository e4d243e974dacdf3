//! The reading of a text, line by line.
#![tactic(auto)]

ghost use Rattle.std.specs.Prelude.{◌≡◌, ◌≤◌, ◌&&◌, nat_le, length, map, IfOk, IfErr, IfSome, Some, None};
ghost use Rattle.std.specs.List.{list_all};
ghost use Rattle.script_definitions.specs.Reading.{has_form, is_counted, words_read, line_read, reading};
ghost use Rattle.script_definitions.specs.Reading.Reading.{IsScript, Fails};
ghost use Rattle.script_definitions.specs.Ranges.{IsScriptOf};
ghost use Rattle.script_definitions.specs.declared.kind.Grammar.TheVariants as G;
ghost use Rattle.script_reader.specs.Stops.{IsFault};

use crate::counted::{Rule, counted_line};
use crate::draft::Draft;
use crate::words::{begins_with, cut_line, first_word, read_words};
use node_limits::{LINE_OCTETS, SCRIPT_OCTETS};
use script_definitions::kind::Grammar;
use script_definitions::line::CountedLine;
use script_definitions::script::Script;
use std::alloc::{AllocError, Global};
use thiserror::Error;

/// The longest script, in octets.
pub const LONGEST_SCRIPT: usize = SCRIPT_OCTETS;

/// Why there is no script.
#[derive(Clone, Copy, Debug, PartialEq, Eq, Error)]
pub enum ScriptStop {
    /// The text isn't a script.
    #[error("line {line} fails by rule {rule}")]
    Fault {
        /// The first failing line, counted from 1.
        line: u32,
        /// The rule by which it fails first, 1 to 7.
        rule: u8,
    },
    /// There was no memory.
    #[error("out of memory")]
    Memory,
}

/// Whether each octet of a line is of 20 to 7e. It looks at all of them, so that several are tested at once.
fn is_printable(line: &[u8]) -> bool
    ensures value { result ≡ list_all (λ b. nat_le 32 b && nat_le b 126) line.now }
{
    let mut so_far = true;
    for b in line {
        so_far = so_far & ((*b >= 0x20) & (*b <= 0x7e));
    }
    so_far
}

/// Whether a line has at most 1,200 octets, each of 20 to 7e.
#[tactic(auto, unfolding(script_definitions::specs::Reading::has_form))]
pub fn has_form(line: &[u8]) -> bool
    ensures value { result ≡ has_form line.now }
{
    line.len() <= LINE_OCTETS && is_printable(line)
}

/// Whether a line is neither empty nor a comment.
#[tactic(auto, unfolding(script_definitions::specs::Reading::is_counted))]
pub fn is_counted(line: &[u8]) -> bool
    ensures value { result ≡ is_counted line.now }
{
    line.len() >= 1 && !begins_with(line, b'#')
}

/// What the first counted line says, or the rule that fails.
#[tactic(auto, unfolding(script_definitions::specs::Reading::words_read))]
fn first_line(
    alloc: Global,
    grammar: Grammar,
    words: &[&[u8]],
) -> Result<Result<Draft, Rule>, AllocError>
    ensures value { IfOk result (λ r. r ≡ words_read grammar None (map (λ w. w.now) words.now)) }
    ensures ranges { IfOk result (λ r. IfOk r (IsScriptOf grammar)) }
{
    if first_word(words) == b"provision".as_slice() {
        match counted_line(alloc, grammar, 0, words)? {
            Ok(CountedLine::Provision(provision)) => Ok(Ok(Draft::new(alloc, provision))),
            Ok(_) => Ok(Err(2)),
            Err(rule) => Ok(Err(rule)),
        }
    } else {
        Ok(Err(2))
    }
}

/// What a counted line makes of the script that the lines above it are, or the rule that fails.
#[tactic(auto, unfolding(script_definitions::specs::Reading::words_read))]
fn next_line(
    alloc: Global,
    grammar: Grammar,
    above: Draft,
    words: &[&[u8]],
) -> Result<Result<Draft, Rule>, AllocError>
    requires { IsScriptOf grammar above }
    ensures value { IfOk result (λ r. r ≡ words_read grammar (Some above) (map (λ w. w.now) words.now)) }
    ensures ranges { IfOk result (λ r. IfOk r (IsScriptOf grammar)) }
{
    match counted_line(alloc, grammar, above.elements(), words)? {
        Ok(line) => above.with_counted(alloc, line),
        Err(rule) => Ok(Err(rule)),
    }
}

/// What the words of a counted line make of the script that the lines above it are, or the rule that fails.
fn words_read(
    alloc: Global,
    grammar: Grammar,
    above: Option<Draft>,
    words: &[&[u8]],
) -> Result<Result<Draft, Rule>, AllocError>
    requires { IfSome above (IsScriptOf grammar) }
    ensures value { IfOk result (λ r. r ≡ words_read grammar above (map (λ w. w.now) words.now)) }
    ensures ranges { IfOk result (λ r. IfOk r (IsScriptOf grammar)) }
{
    match above {
        None => first_line(alloc, grammar, words),
        Some(above) => next_line(alloc, grammar, above, words),
    }
}

/// What a line makes of the script that the lines above it are, or the rule that fails. There is none as long as no line counts.
/// The words that it had before are let go.
#[tactic(auto, unfolding(script_definitions::specs::Reading::line_read))]
fn line_read<'a>(
    alloc: Global,
    grammar: Grammar,
    above: Option<Draft>,
    words: &mut Vec<&'a [u8]>,
    line: &'a [u8],
) -> Result<Result<Option<Draft>, Rule>, AllocError>
    requires { IfSome above (IsScriptOf grammar) }
    ensures value { IfOk result (λ r. r ≡ line_read grammar above line.now) }
    ensures ranges { IfOk result (λ r. IfOk r (λ s. IfSome s (IsScriptOf grammar))) }
{
    if !has_form(line) {
        return Ok(Err(1));
    }
    if !is_counted(line) {
        return Ok(Ok(above));
    }
    read_words(words, line)?;
    match words_read(alloc, grammar, above, words.as_slice())? {
        Ok(draft) => Ok(Ok(Some(draft))),
        Err(rule) => Ok(Err(rule)),
    }
}

/// What a text says by a grammar.
fn read(alloc: Global, grammar: Grammar, bytes: &[u8]) -> Result<Script, ScriptStop>
    requires { length bytes.now ≤ LONGEST_SCRIPT }
    ensures ok { IfOk result (λ s. reading grammar bytes.now ≡ IsScript s) }
    ensures cause { IfErr result (IsFault (reading grammar bytes.now)) }
    ensures ranges { IfOk result (IsScriptOf grammar) }
{
    let mut rest = Some(bytes);
    let mut words = Vec::new(alloc);
    let mut above = None;
    let mut number: u32 = 0;
    while let Some(text) = rest {
        let (line, more) = cut_line(text);
        number += 1;
        above = match line_read(alloc, grammar, above, &mut words, line) {
            Ok(Ok(next)) => next,
            Ok(Err(rule)) => return Err(ScriptStop::Fault { line: number, rule }),
            Err(_) => return Err(ScriptStop::Memory),
        };
        rest = more;
    }
    match above {
        Some(script) => Ok(script.into_script()),
        None => Err(ScriptStop::Fault {
            line: number,
            rule: 2,
        }),
    }
}

/// Reads the script of a node. The text has at most 4,194,304 octets.
///
/// Words are separated by spaces, lines by LF or CR LF, and hexadecimal digits have either case. Empty lines and lines that begin
/// with `#` count for nothing. The first other line is `provision`; each `life` begins a life, and the lines behind it are its own:
///
/// ```text
/// provision UNICAST ELEMENTS IV FLAGS NETIDX NETKEY DEVKEY
/// life
/// sync
/// arm CALLS MASK
/// bK net HEX
/// bK bcn HEX
/// bK peer NET IV CTL TTL SEQ SRC DST TPDU
/// bK talk NET UKEY IV TTL AUTH SEQ SRC DST PIECE PAYLOAD
/// bK beacon NETKEY FLAGS IV
/// bK send ELEMENT DST TTL KEY PAYLOAD
/// bK raw DST TTL TPDU
/// bK tick N
/// ```
///
/// # Errors
///
/// `Fault` exactly where the text isn't a script, with its first failing line and the rule by which that line fails first:
///
/// 1. the line has more than 1,200 octets, or one outside 20 to 7e
/// 2. the first counted line isn't `provision`; where no line counts, the last line fails
/// 3. an unknown word of a line, or an unknown bearer
/// 4. a wrong number of words
/// 5. a word that isn't of its form or range
/// 6. a second `provision`, a line before the first `life`, or a second `arm` in a life
/// 7. the 65th life, or the 4,097th line of bearers in a life
///
/// `Memory` where there is no memory.
pub fn read_script(alloc: Global, bytes: &[u8]) -> Result<Script, ScriptStop>
    requires { length bytes.now ≤ 4194304 }
    ensures ok { IfOk result (λ s. reading G.Node bytes.now ≡ IsScript s) }
    ensures cause { IfErr result (IsFault (reading G.Node bytes.now)) }
    ensures ranges { IfOk result (IsScriptOf G.Node) }
{
    read(alloc, Grammar::Node, bytes)
}

/// Reads the script of a Low Power node. Its forms and rules are those of `read_script`, and its lines these alone:
///
/// ```text
/// provision UNICAST ELEMENTS IV FLAGS NETIDX NETKEY DEVKEY
/// life
/// arm CALLS MASK
/// b0 net HEX
/// b0 peer NET IV CTL TTL SEQ SRC DST TPDU
/// b0 seek
/// b0 poll
/// b0 list ADDR
/// ```
pub fn read_low_power_script(alloc: Global, bytes: &[u8]) -> Result<Script, ScriptStop>
    requires { length bytes.now ≤ 4194304 }
    ensures ok { IfOk result (λ s. reading G.LowPower bytes.now ≡ IsScript s) }
    ensures cause { IfErr result (IsFault (reading G.LowPower bytes.now)) }
    ensures ranges { IfOk result (IsScriptOf G.LowPower) }
{
    read(alloc, Grammar::LowPower, bytes)
}
