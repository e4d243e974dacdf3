//! The facts of a line that the lines behind it are compared with.
#![tactic(auto)]

ghost use Rattle.std.specs.Prelude.{◌≡◌, ◌||◌, nat_eq, ℕ, List, None, IfOk, OnOk};
ghost use Rattle.std.specs.BTreeMap.{get};
ghost use Rattle.std.specs.BTreeSet.{contains};
ghost use Rattle.std.specs.Option.{option_map};
ghost use Rattle.std.specs.Ordering.{nat_cmp};
ghost use Rattle.audit_definitions.specs.Seals.{own_by, own_source, message_by};
ghost use Rattle.log_audit.specs.Facts.{Key as KeyOf, key_cmp, same_key, is_own_source, known_of, pdu_fact, message_key, message_fact, accepted_fact};
ghost use Rattle.log_audit.specs.Uses.{or_else, pick};

use crate::seals::{name_of, shown};
use crate::seen::{Key, Uses, name_key, name_number, note};
use mesh_types::answers::Answer;
use mesh_types::lines::Outcome;
use mesh_types::report::ReportLine;
use std::alloc::{AllocError, Global};
use std::collections::BTreeSet;

/// A key, and what a line uses under it.
pub type Fact<'a> = (Key, &'a [u8]);

/// SRC of what the node sends of its own.
fn own_by(outcome: &Outcome) -> Option<u16>
    ensures value { result ≡ option_map (λ a. a.0) (own_by outcome.now) }
{
    match outcome {
        Outcome::Ctl { src, .. } => Some(src.0),
        Outcome::Msg { src, .. } => Some(src.0),
        Outcome::Long { src, .. } => Some(src.0),
        Outcome::Seg { src, .. } => Some(src.0),
        _ => None,
    }
}

/// The same of a line.
fn own_source(line: &ReportLine) -> Option<u16>
    ensures value { result ≡ option_map (λ a. a.0) (own_source line.now) }
{
    match line {
        ReportLine::Sent { outcome, .. } => own_by(outcome),
        _ => None,
    }
}

/// Puts the own source of a line, if it has one, into the set.
pub fn note_source(own: &mut BTreeSet<u16>, line: &ReportLine) -> Result<(), AllocError>
    ensures noted { OnOk result
        ((a : ℕ) → contains nat_cmp own.new a ≡ (contains nat_cmp own.old a || is_own_source a line.now)) }
{
    match own_source(line) {
        Some(src) => add(own, src),
        None => Ok(()),
    }
}

/// Puts a source into the set.
fn add(own: &mut BTreeSet<u16>, src: u16) -> Result<(), AllocError>
    ensures added { OnOk result ((a : ℕ) → contains nat_cmp own.new a ≡ (contains nat_cmp own.old a || nat_eq src a)) }
{
    match own.insert(src) {
        Ok(_) => Ok(()),
        Err(_) => Err(AllocError),
    }
}

/// The octets of a network PDU of an own source, under the fields of its nonce.
pub fn pdu_fact<'a>(own: &BTreeSet<u16>, line: &'a ReportLine) -> Option<Fact<'a>>
    ensures value { option_map {U = KeyOf × List ℕ} (λ f. (f.0, f.1.now)) result ≡ pdu_fact (λ a. contains nat_cmp own.now a) line.now }
{
    match line {
        ReportLine::Sent { outcome, .. } => match shown(outcome) {
            Some((name, pdu)) => {
                if own.contains(&name.src.0) {
                    Some((name_key(name, (0, 0)), pdu.as_slice()))
                } else {
                    None
                }
            }
            None => None,
        },
        _ => None,
    }
}

/// A payload, under the fields of its nonce and the name of its key.
fn message_by(outcome: &Outcome) -> Option<Fact>
    ensures value { option_map {U = KeyOf × List ℕ} (λ f. (f.0, f.1.now)) result
        ≡ option_map (λ m. (message_key m, m.payload)) (message_by outcome.now) }
{
    match outcome {
        Outcome::Msg {
            pair,
            src,
            dst,
            key,
            payload,
            ..
        } => Some((
            name_key(name_of(*src, *pair), (dst.0, name_number(*key))),
            payload.as_slice(),
        )),
        Outcome::Long {
            pair,
            src,
            dst,
            key,
            payload,
            ..
        } => Some((
            name_key(name_of(*src, *pair), (dst.0, name_number(*key))),
            payload.as_slice(),
        )),
        _ => None,
    }
}

/// The same of a line.
pub fn message_fact(line: &ReportLine) -> Option<Fact>
    ensures value { option_map {U = KeyOf × List ℕ} (λ f. (f.0, f.1.now)) result ≡ message_fact line.now }
{
    match line {
        ReportLine::Sent { outcome, .. } => message_by(outcome),
        _ => None,
    }
}

/// An accepted message, under its name.
pub fn accepted_fact(line: &ReportLine) -> Option<Fact>
    ensures value { option_map {U = KeyOf × List ℕ} (λ f. (f.0, f.1.now)) result ≡ accepted_fact line.now }
{
    match line {
        ReportLine::Entry { answer, .. } => match answer {
            Answer::Delivered { name, .. } => Some((name_key(*name, (0, 0)), b"".as_slice())),
            Answer::Control { name, .. } => Some((name_key(*name, (0, 0)), b"".as_slice())),
            _ => None,
        },
        _ => None,
    }
}

/// Notes the fact of the line with this number, unless its key is known. The answer is what was known of it.
pub fn seen(
    alloc: Global,
    uses: &mut Uses,
    fact: Option<Fact>,
    number: u32,
) -> Result<Option<(u32, bool)>, AllocError>
    ensures answer { IfOk result
        (λ r. r ≡ known_of (λ q. get key_cmp uses.old q) (option_map {U = KeyOf × List ℕ} (λ f. (f.0, f.1.now)) fact.entry)) }
    ensures noted { OnOk result
        ((q : KeyOf)
        → get key_cmp uses.new q
        ≡ or_else (get key_cmp uses.old q) (pick same_key (option_map {U = KeyOf × List ℕ} (λ f. (f.0, f.1.now)) fact.entry) q number None)) }
{
    match fact {
        Some((key, value)) => note(alloc, uses, key, value, number),
        None => Ok(None),
    }
}
