//! The first thing that is wrong with a report.
#![tactic(auto)]

ghost use Rattle.std.specs.Prelude.{◌≡◌, ◌+◌, ◌<◌, ◌^◌, ℕ, Some, length, List, map, IfOk};
ghost use Rattle.std.specs.Bool.{OnTrue, OnFalse};
ghost use Rattle.std.specs.BTreeSet.{contains};
ghost use Rattle.std.specs.List.{slice_get};
ghost use Rattle.std.specs.Ordering.{nat_cmp};
ghost use Rattle.audit_definitions.specs.Verdicts.{IsVerdictOf};
ghost use Rattle.mesh_base.specs.declared.fields.NetMaterial.{NetMaterial as Material};
ghost use Rattle.script_definitions.specs.Events.{material_of};
ghost use Rattle.script_definitions.specs.declared.line.ScriptNet.{ScriptNet as Net};
ghost use Rattle.mesh_types.specs.declared.report.ReportLine.{ReportLine as Line};
ghost use Rattle.log_audit.specs.Reading.{IsRead};
ghost use Rattle.log_audit.specs.Wrong.{differing, least, wrong_at, IsBadUnder};

use crate::facts::{accepted_fact, message_fact, pdu_fact, seen};
use crate::input::cut_line;
use crate::seals::{is_sealed, shown};
use audit_definitions::Verdict;
use kept_keys::NetSchedules;
use mesh_types::report::ReportLine;
use report_reader::read_line;
use std::alloc::{AllocError, Global};
use std::collections::{BTreeMap, BTreeSet};

/// The first line with a key, where it used something else.
fn differing(known: Option<(u32, bool)>) -> Option<u32>
    ensures value { result ≡ differing known }
{
    match known {
        Some((line, false)) => Some(line),
        _ => None,
    }
}

/// The lesser of two numbers, where there are both.
fn least(a: Option<u32>, b: Option<u32>) -> Option<u32>
    ensures value { result ≡ least a b }
{
    match (a, b) {
        (Some(a), Some(b)) => Some(a.min(b)),
        (Some(a), None) => Some(a),
        (None, b) => b,
    }
}

/// What is wrong at the line with this number.
fn wrong_at(
    reuse: Option<u32>,
    name: Option<(u32, bool)>,
    bad: bool,
    number: u32,
) -> Option<Verdict>
    ensures value { result ≡ wrong_at reuse name bad number }
{
    match (reuse, name) {
        (Some(a), _) => Some(Verdict::Reuse { a, b: number }),
        (None, Some((a, _))) => Some(Verdict::Twice { a, b: number }),
        (None, None) => {
            if bad {
                Some(Verdict::Bad { line: number })
            } else {
                None
            }
        }
    }
}

/// Whether the octets of a line aren't those of the PDU that it tells, under any of these keys.
fn is_bad(keys: &[NetSchedules], line: &ReportLine) -> bool
    requires nids { (k : ℕ) (m : Material) → slice_get keys.now k ≡ Some m → m.nid < 2 ^ 7 }
    ensures some { OnTrue result (IsBadUnder keys.now line.now) }
    ensures none { OnFalse result (IsBadUnder keys.now line.now → ⊥) }
{
    match line {
        ReportLine::Sent { outcome, .. } => match shown(outcome) {
            Some((name, pdu)) => !is_sealed(keys, outcome, name.pair.iv, pdu.as_slice()),
            None => false,
        },
        _ => false,
    }
}

/// The verdict of a report under these keys, where so many lines stand before it and these are its own sources.
///
/// Each line was read before, so where it can't be read now only memory is wanting.
pub fn verdict(
    alloc: Global,
    keys: &[NetSchedules],
    before: u32,
    own: &BTreeSet<u16>,
    report: &[u8],
) -> Result<Verdict, AllocError>
    requires nids { (k : ℕ) (m : Material) → slice_get keys.now k ≡ Some m → m.nid < 2 ^ 7 }
    requires count { before + length report.now < 2 ^ 32 }
    ensures value { IfOk result
        (λ v. (nets : List Net) (lines : List Line) → map material_of nets ≡ keys.now → length nets ≡ before
        → IsRead (λ a. contains nat_cmp own.now a) report.now lines → IsVerdictOf nets lines v) }
{
    let mut pdus = BTreeMap::new(alloc);
    let mut messages = BTreeMap::new(alloc);
    let mut names = BTreeMap::new(alloc);
    let mut rest = report;
    let mut number = before;
    while rest.len() > 0 {
        let (text, more) = cut_line(rest);
        let line = match read_line(alloc, text) {
            Ok(line) => line,
            Err(_) => return Err(AllocError),
        };
        number += 1;
        let pdu = seen(alloc, &mut pdus, pdu_fact(own, &line), number)?;
        let message = seen(alloc, &mut messages, message_fact(&line), number)?;
        let name = seen(alloc, &mut names, accepted_fact(&line), number)?;
        let reuse = least(differing(pdu), differing(message));
        if let Some(verdict) = wrong_at(reuse, name, is_bad(keys, &line), number) {
            return Ok(verdict);
        }
        rest = more;
    }
    Ok(Verdict::Sound { lines: number })
}
