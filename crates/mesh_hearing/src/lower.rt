//! The answers of the lower transport layer (Mesh Profile 1.0.1, section 3.5.3).
#![tactic(auto)]

ghost use Rattle.std.specs.Prelude.{◌≡◌, ◌≤◌, ◌^◌, true, false, IsTrue, List, Some, fold, length, IfOk, IfErr, OnErr, IfSome, MatchResult};
ghost use Rattle.layer_definitions.specs.Lower.{Fits, is_control};
ghost use Rattle.layer_states.specs.Reassembly.{after, is_segment as is_segment_of};
ghost use Rattle.layer_states.specs.declared.reassembly.Taken.TheVariants as T;
ghost use Rattle.mesh_base.specs.declared.pair.Name.{Name as NameIn};
ghost use Rattle.mesh_hearing.specs.Again.{AreRecorded, newest_of};
ghost use Rattle.mesh_hearing.specs.Below.{known_answer, own_octets, taken_calls, IsNamedAs, IsTakenAs, StandsBelow};
ghost use Rattle.mesh_hearing.specs.Heard.{insight_of};
ghost use Rattle.message_answers.specs.Kinds.{is_known, is_late, is_of_part};
ghost use Rattle.mesh_reading.specs.Held.{held_in, reading_of};
ghost use Rattle.mesh_types.specs.declared.answers.Answer.TheVariants as A;
ghost use Rattle.node_layers.specs.Reassembly.{named_calls, part_heard as part_heard_in};
ghost use Rattle.node_layers.specs.Segments.{taken_answer};
ghost use Rattle.node_layers.specs.Steps.{segmented_name, segmented_names};
ghost use Rattle.node_records.specs.Tables.{config_in};
ghost use Rattle.event_definitions.specs.Answers.{accepted as accepted_in, is_again as is_again_in, is_entry as is_entry_in, message_name as message_name_in, message_pair as message_pair_in};
ghost use Rattle.event_definitions.specs.History.{Past};
ghost use Rattle.store_definitions.specs.Entries.{entry_of};

use crate::again::has_name;
use crate::hearing::Hearing;
use crate::whole::{WholeMessage, judge_whole};
use lower_transport::{Lower, seq_auth};
use mesh_base::fields::NetFields;
use mesh_base::octets::Octets;
use mesh_base::pair::{Name, Pair};
use mesh_reading::{Keys, NetReading};
use mesh_types::answers::Answer;
use message_answers::{Judged, replayed};
use node_records::Persist;
use segment_reassembly::{PartHeard, Parts, Taken};

// Whether a lower transport PDU is a segment.
fn is_segment(low: &Lower) -> bool
    ensures value { result ≡ is_segment_of low.now }
{
    matches!(low, Lower::AccessPart { .. } | Lower::ControlPart { .. })
}

// The pair that names a message, if there is one: that of its PDU, or SeqAuth.
fn message_pair(f: &NetFields, low: &Lower) -> Option<Pair>
    ensures { result ≡ message_pair_in f.now low.now }
{
    let pair = Pair {
        iv: f.iv,
        seq: f.seq,
    };
    match low {
        Lower::Access { .. } | Lower::Control { .. } => Some(pair),
        Lower::AccessPart { seq_zero, .. } | Lower::ControlPart { seq_zero, .. } => {
            seq_auth(pair, *seq_zero)
        }
    }
}

// The name of the message of a PDU, if it has one.
fn message_name(f: &NetFields, low: &Lower) -> Option<Name>
    ensures { result ≡ message_name_in f.now low.now }
{
    let pair = message_pair(f, low)?;
    Some(Name { src: f.src, pair })
}

// Whether a pair is the entry of its source.
fn is_entry(kept: Option<Pair>, pair: Pair) -> bool
    ensures { result ≡ is_entry_in kept pair }
{
    match kept {
        Some(kept) => pair.iv == kept.iv && pair.seq == kept.seq,
        None => false,
    }
}

// Whether a message of this name was accepted from segments: then its pair is the entry of its source.
fn is_again(again: &[Name], kept: Option<Pair>, name: &Name) -> bool
    ensures { (past : Past) → kept ≡ entry_of past.records name.now.src.0 → again.now ≡ newest_of (segmented_names past.told)
        → AreRecorded past → result ≡ is_again_in past name.now }
{
    is_entry(kept, name.pair) && has_name(again, name)
}

// The answer that goes by names alone, if there is one.
fn known_row(again: &[Name], kept: Option<Pair>, low: &Lower, name: &Name) -> Option<Answer>
    ensures value { (past : Past) → kept ≡ entry_of past.records name.now.src.0 → again.now ≡ newest_of (segmented_names past.told)
        → AreRecorded past → result ≡ known_answer past low.now name.now }
    ensures known { IfSome result (λ a. is_known a ≡ true) }
{
    if is_segment(low) && is_again(again, kept, name) {
        return Some(Answer::Again);
    }
    match replayed(kept, name.pair) {
        Some(kept) => Some(Answer::Replay { kept }),
        None => None,
    }
}

// A segment as it was heard.
fn part_heard(p: &Persist, r: &NetReading, name: &Name, low: &Lower) -> PartHeard
    ensures { result ≡ part_heard_in (config_in p.now) (reading_of r.now) name.now low.now }
{
    PartHeard {
        name: *name,
        dst: r.fields.dst,
        net: r.by.index,
        ttl: r.fields.ttl,
        part: low.clone().unwrap(),
        ack_ttl: p.reply_ttl(r.fields.ttl),
    }
}

// The octets of a message that came in one PDU.
fn octets_of(low: &Lower) -> Octets<384>
    ensures value { result ≡ own_octets low.now }
    ensures few { length result ≤ 15 }
{
    let mut octets = Octets::new();
    match low {
        Lower::Access { upper, .. } => octets.extend(upper.as_slice()),
        Lower::Control { params, .. } => octets.extend(params.as_slice()),
        Lower::AccessPart { .. } | Lower::ControlPart { .. } => {}
    }
    octets
}

// The octets of a message that is whole by a segment, or the answer.
fn outcome(taken: Taken) -> Result<Octets<384>, Answer>
    ensures value { MatchResult result (λ octets. taken ≡ T.Whole octets) (λ a. taken_answer taken ≡ Some a) }
    ensures part { IfErr result (λ a. is_of_part a ≡ true) }
{
    match taken {
        Taken::Whole(octets) => Ok(octets),
        Taken::Waiting { missing } => Err(Answer::Waiting { missing }),
        Taken::Conflict => Err(Answer::Conflict),
        Taken::NoRoom { held } => Err(Answer::NoRoom { held }),
    }
}

// The octets of a message that is no replay, where it is whole by this PDU, or the answer.
fn take_low(
    p: &Persist,
    parts: &mut Parts,
    now: u64,
    r: &NetReading,
    low: &Lower,
    name: &Name,
) -> Result<Octets<384>, Answer>
    requires fits { Fits low.now }
    requires time { now ≤ 2 ^ 48 }
    ensures value { (past : Past) (again : List NameIn) → StandsBelow past p.now parts.old again now
        → IsTakenAs past (reading_of r.now) low.now name.now result }
    ensures part { IfErr result (λ a. is_of_part a ≡ true) }
    ensures segment { OnErr result (IsTrue (is_segment_of low.now)) }
    ensures parts { parts.new
        ≡ fold after parts.old (taken_calls now (config_in p.now) (reading_of r.now) low.now name.now) }
    ensures control { IfOk result (λ octets. is_control low.now ≡ true → length octets ≤ 256) }
{
    if is_segment(low) {
        outcome(parts.take(now, &part_heard(p, r, name, low)))
    } else {
        Ok(octets_of(low))
    }
}

/// What a node goes by as it hears a PDU.
#[derive(Drop)]
pub(crate) struct Before<'a> {
    /// The keys that it holds.
    pub keys: &'a Keys,
    /// What its store says.
    pub p: &'a Persist,
    /// Of the names that it accepted from segments in this life the newest of each source.
    pub again: &'a [Name],
    /// The ticks of 10 ms of this life so far.
    pub ticks: u64,
}

// The answer to a message with this name, and what it opened to.
fn hear_named(
    before: &Before<'_>,
    parts: &mut Parts,
    r: &NetReading,
    low: &Lower,
    name: &Name,
) -> Judged
    requires fit { before.now.keys.now ≡ held_in (config_in before.now.p.now) }
    requires fits { Fits low.now }
    requires time { before.now.ticks ≤ 2 ^ 48 }
    ensures value { (past : Past) → StandsBelow past before.now.p.now parts.old before.now.again.now before.now.ticks
        → IsNamedAs past (reading_of r.now) low.now (Some name.now) result }
    ensures late { is_late result.answer ≡ true }
    ensures parts { parts.new
        ≡ fold after parts.old
        (named_calls before.now.ticks (config_in before.now.p.now) (reading_of r.now) low.now result.answer
        (Some name.now)) }
{
    let p = before.p;
    let kept = p.entry(name.src);
    match known_row(before.again, kept, low, name) {
        Some(answer) => return Judged::early(answer),
        None => {}
    }
    match take_low(p, parts, before.ticks, r, low, name) {
        Ok(octets) => {
            let message = WholeMessage {
                reading: r,
                name: *name,
                octets: octets.as_slice(),
            };
            let judged = judge_whole(before.keys, p, kept, &message, low);
            parts.release(name);
            judged
        }
        Err(answer) => Judged::early(answer),
    }
}

/// The answer to a lower transport PDU, and what it opened to.
pub(crate) fn hear_low(
    before: &Before<'_>,
    parts: &mut Parts,
    r: &NetReading,
    low: &Lower,
) -> Judged
    requires fit { before.now.keys.now ≡ held_in (config_in before.now.p.now) }
    requires fits { Fits low.now }
    requires time { before.now.ticks ≤ 2 ^ 48 }
    ensures value { (past : Past) → StandsBelow past before.now.p.now parts.old before.now.again.now before.now.ticks
        → IsNamedAs past (reading_of r.now) low.now (message_name_in r.now.fields low.now) result }
    ensures late { is_late result.answer ≡ true }
    ensures parts { parts.new ≡ fold after parts.old
        (named_calls before.now.ticks (config_in before.now.p.now) (reading_of r.now) low.now result.answer
        (message_name_in r.now.fields low.now)) }
{
    match message_name(&r.fields, low) {
        Some(name) => hear_named(before, parts, r, low, &name),
        None => Judged::early(Answer::Malformed),
    }
}

// The name of an accepted message.
fn accepted(answer: &Answer) -> Option<Name>
    ensures { result ≡ accepted_in answer.now }
{
    match answer {
        Answer::Delivered { name, .. } | Answer::Control { name, .. } => Some(*name),
        _ => None,
    }
}

/// The name of a message that was accepted from segments.
pub(crate) fn accepted_part(h: &Hearing) -> Option<Name>
    ensures { result ≡ segmented_name (insight_of h.now) h.now.answer }
{
    match h.pdu.low() {
        Some(low) if is_segment(low) => accepted(&h.answer),
        _ => None,
    }
}
