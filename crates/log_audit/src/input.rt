//! The reading of an input, line by line.
#![tactic(auto)]

ghost use Rattle.std.specs.Prelude.{◌≡◌, ◌+◌, ◌<◌, ◌≤◌, ◌^◌, ◌||◌, ◌∷◌, ℕ, List, length, IfOk, IfErr, IfSome, IfNone, OnOk};
ghost use Rattle.std.specs.BTreeSet.{contains};
ghost use Rattle.std.specs.Ordering.{nat_cmp};
ghost use Rattle.audit_definitions.specs.Input.{lines_of, IsKeyLine, IsInput};
ghost use Rattle.mesh_types.specs.declared.report.ReportLine.{ReportLine as Line};
ghost use Rattle.script_definitions.specs.declared.line.ScriptNet.{ScriptNet as Net};
ghost use Rattle.log_audit.specs.Facts.{is_own_source};
ghost use Rattle.log_audit.specs.Reading.{HasKeys, IsRead, IsReportStop, IsStop};
ghost use Rattle.log_audit.specs.declared.input.AuditStop.TheVariants.{Memory};

use crate::facts::note_source;
use mesh_types::report::ReportLine;
use report_reader::{LineStop, read_line};
use script_definitions::line::ScriptNet;
use script_reader::forms::net;
use std::alloc::{AllocError, Global};
use std::collections::BTreeSet;
use thiserror::Error;

/// Why there is no verdict.
#[derive(Clone, Copy, Debug, PartialEq, Eq, Error)]
pub enum AuditStop {
    /// This line, counted from 1, is the first one that is neither a key in its place nor a line of a report.
    #[error("line {line} is no line of a report")]
    NotReport {
        /// The line.
        line: u32,
    },
    /// There was no memory.
    #[error("out of memory")]
    Memory,
}

/// The most keys of an input.
const MOST_KEYS: usize = 16;

/// The first line of a text, with its LF, which the last line may lack, and the text behind it.
pub fn cut_line(text: &[u8]) -> (&[u8], &[u8])
    requires { 1 ≤ length text.now }
    ensures value { lines_of text.now ≡ result.0.now ∷ lines_of result.1.now }
    ensures shorter { length result.1.now < length text.now }
{
    for (at, b) in text.iter().enumerate() {
        if *b == b'\n' {
            return (&text[..at + 1], &text[at + 1..]);
        }
    }
    (text, b"")
}

/// The key of a line `key NET`.
fn key_line(line: &[u8]) -> Option<ScriptNet>
    ensures some { IfSome result (IsKeyLine line.now) }
    ensures none { IfNone result ((n : Net) → IsKeyLine line.now n → ⊥) }
{
    if line.len() >= 5 && &line[..4] == b"key ".as_slice() && line[line.len() - 1] == b'\n' {
        net(&line[4..line.len() - 1])
    } else {
        None
    }
}

/// The keys that an input begins with, at most 16, and the text behind them.
pub fn read_keys(alloc: Global, bytes: &[u8]) -> Result<(Vec<ScriptNet>, &[u8]), AllocError>
    ensures value { IfOk result (λ r. HasKeys bytes.now r.0.items r.1.now) }
{
    let mut keys = Vec::new(alloc);
    let mut rest = bytes;
    while rest.len() > 0 && keys.len() < MOST_KEYS {
        let (line, more) = cut_line(rest);
        match key_line(line) {
            Some(key) => keys.push(key)?,
            None => return Ok((keys, rest)),
        }
        rest = more;
    }
    Ok((keys, rest))
}

/// The own sources of the report lines of a text, before which so many lines stand.
pub fn own_sources(alloc: Global, bytes: &[u8], before: u32) -> Result<BTreeSet<u16>, AuditStop>
    requires { before + length bytes.now < 2 ^ 32 }
    ensures ok { IfOk result (λ own. (lines : List Line) × IsRead (λ a. contains nat_cmp own a) bytes.now lines) }
    ensures cause { IfErr result (IsReportStop bytes.now before) }
{
    let mut own = BTreeSet::new(alloc);
    let mut rest = bytes;
    let mut number = before;
    while rest.len() > 0 {
        let (text, more) = cut_line(rest);
        number += 1;
        match read_line(alloc, text) {
            Ok(line) => keep_source(&mut own, &line)?,
            Err(LineStop::NotLine) => return Err(AuditStop::NotReport { line: number }),
            Err(LineStop::Memory) => return Err(AuditStop::Memory),
        }
        rest = more;
    }
    Ok(own)
}

/// Puts the own source of a line, if it has one, into the set.
fn keep_source(own: &mut BTreeSet<u16>, line: &ReportLine) -> Result<(), AuditStop>
    ensures noted { OnOk result
        ((a : ℕ) → contains nat_cmp own.new a ≡ (contains nat_cmp own.old a || is_own_source a line.now)) }
    ensures cause { IfErr result (λ e. e ≡ Memory) }
{
    match note_source(own, line) {
        Ok(()) => Ok(()),
        Err(_) => Err(AuditStop::Memory),
    }
}

/// An input that was read. Its report lines aren't kept: where they are judged they are read once more.
#[derive(Drop)]
pub struct Input<'a> {
    /// The keys, at most 16.
    pub keys: Vec<ScriptNet>,
    /// The text of the report lines behind them.
    pub report: &'a [u8],
    /// SRC of what the node sent of its own, by these lines.
    pub own: BTreeSet<u16>,
}

/// The keys that an input begins with, and the text behind them.
fn keys_of(alloc: Global, bytes: &[u8]) -> Result<(Vec<ScriptNet>, &[u8]), AuditStop>
    ensures ok { IfOk result (λ r. HasKeys bytes.now r.0.items r.1.now) }
    ensures cause { IfErr result (λ e. e ≡ Memory) }
{
    match read_keys(alloc, bytes) {
        Ok(keys) => Ok(keys),
        Err(_) => Err(AuditStop::Memory),
    }
}

/// Reads an input: at most 16 lines `key NET`, and then lines of a report, as `run --hex` writes them. NET is written as in a script: a
/// network key, or `KEY/LPN/FRIEND/LPNCOUNTER/FRIENDCOUNTER`. The input has at most 4,194,304 octets.
///
/// # Errors
///
/// `NotReport` exactly where the text is no input, with its first line that isn't of the form; `Memory` where there is no memory.
pub fn read_input(alloc: Global, bytes: &[u8]) -> Result<Input, AuditStop>
    requires { length bytes.now ≤ 4194304 }
    ensures ok { IfOk result
        (λ i. (lines : List Line)
        × IsInput bytes.now i.keys.items lines
        × IsRead (λ a. contains nat_cmp i.own a) i.report.now lines) }
    ensures count { IfOk result (λ i. (length i.keys.items ≤ 16) × (length i.report.now ≤ length bytes.now)) }
    ensures cause { IfErr result (IsStop bytes.now) }
{
    let (keys, report) = keys_of(alloc, bytes)?;
    match own_sources(alloc, report, keys.len() as u32) {
        Ok(own) => Ok(Input { keys, report, own }),
        Err(stop) => Err(stop),
    }
}
