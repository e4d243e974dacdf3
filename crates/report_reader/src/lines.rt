//! The kinds of lines, by their fields.
#![tactic(auto)]

ghost use Rattle.std.specs.Prelude.{◌≡◌, ◌+◌, ◌*◌, ◌≤◌, ◌^◌, map, IfSome};
ghost use Rattle.mesh_base.specs.IvState.{transmit_of};
ghost use Rattle.report_reader.specs.Lines.{bearer_word, next_word, opened, life, entry, sent, line_of};
ghost use Rattle.report_reader.specs.ReportLine.{IsTold};

use crate::answers::{answer, kind};
use crate::forms::{count, field, small_count};
use crate::outcomes::outcome;
use mesh_base::iv_state::IvState;
use mesh_types::report::ReportLine;
use script_reader::digits::number;

/// K of `bK`.
#[tactic(auto, unfolding(crate::specs::Lines::bearer_word))]
fn bearer(word: &[u8]) -> Option<u8>
    ensures value { result ≡ bearer_word word.now }
{
    if word.len() >= 1 {
        small_count(&word[1..])
    } else {
        small_count(word)
    }
}

/// The next SEQ: six digits, and seven only where none is left.
#[tactic(auto, unfolding(crate::specs::Lines::next_word))]
fn next_seq(word: &[u8]) -> Option<u32>
    ensures value { result ≡ next_word word.now }
    ensures bound { IfSome result (λ n. n ≤ 2 ^ 24) }
{
    if word == b"1000000".as_slice() {
        Some(1 << 24)
    } else {
        number(word, 6)
    }
}

/// The mark of this SEQ under the transmit IV Index of a state.
#[tactic(auto, unfolding(mesh_base::specs::IvState::transmit_of))]
fn mark(state: IvState, next: u32) -> u64
    ensures value { result ≡ transmit_of state * 2 ^ 25 + next }
{
    let transmit = if state.progress {
        state.current.saturating_sub(1)
    } else {
        state.current
    };
    u64::from(transmit) * (1 << 25) + u64::from(next)
}

/// `life N CURRENT STATE TRANSMIT NEXT`.
#[tactic(auto, unfolding(crate::specs::Lines::opened))]
fn opened(life: u32, fields: &[&[u8]]) -> Option<ReportLine>
    ensures value { result ≡ opened life (map (λ w. w.now) fields.now) }
    ensures ranges { IfSome result IsTold }
{
    let current = number(field(fields, 2), 8)?;
    let next = next_seq(field(fields, 5))?;
    let state = IvState {
        current,
        progress: field(fields, 3) == b"p".as_slice(),
        hours: 0,
        since: 0,
    };
    Some(ReportLine::Opened {
        life,
        state,
        mark: mark(state, next),
    })
}

/// The first line of a life.
#[tactic(auto, unfolding(crate::specs::Lines::life))]
fn life(fields: &[&[u8]]) -> Option<ReportLine>
    ensures value { result ≡ life (map (λ w. w.now) fields.now) }
    ensures ranges { IfSome result IsTold }
{
    let life = count(field(fields, 1))?;
    let word = field(fields, 2);
    if word == b"wasreset".as_slice() {
        Some(ReportLine::WasReset { life })
    } else if word == b"cut".as_slice() {
        Some(ReportLine::CutAtStart { life })
    } else {
        opened(life, fields)
    }
}

/// `e I bK J KIND ANSWER`.
#[tactic(auto, unfolding(crate::specs::Lines::entry))]
fn entry(fields: &[&[u8]]) -> Option<ReportLine>
    ensures value { result ≡ entry (map (λ w. w.now) fields.now) }
    ensures ranges { IfSome result IsTold }
{
    let at = count(field(fields, 1))?;
    let bearer = bearer(field(fields, 2))?;
    let number = count(field(fields, 3))?;
    let kind = kind(field(fields, 4))?;
    let answer = answer(fields)?;
    Some(ReportLine::Entry {
        at,
        bearer,
        number,
        kind,
        answer,
    })
}

/// `s bK I.J RESULT`.
#[tactic(auto, unfolding(crate::specs::Lines::sent))]
fn sent(fields: &[&[u8]]) -> Option<ReportLine>
    ensures value { result ≡ sent (map (λ w. w.now) fields.now) }
    ensures ranges { IfSome result IsTold }
{
    let bearer = bearer(field(fields, 1))?;
    let entry = count(field(fields, 2))?;
    let job = small_count(field(fields, 3))?;
    let outcome = outcome(fields)?;
    Some(ReportLine::Sent {
        bearer,
        entry,
        job,
        outcome,
        hex: true,
    })
}

/// What the fields of a line say.
#[tactic(auto, unfolding(crate::specs::Lines::line_of))]
pub fn line_of(fields: &[&[u8]]) -> Option<ReportLine>
    ensures value { result ≡ line_of (map (λ w. w.now) fields.now) }
    ensures ranges { IfSome result IsTold }
{
    let word = field(fields, 0);
    if word == b"life".as_slice() {
        life(fields)
    } else if word == b"e".as_slice() {
        entry(fields)
    } else if word == b"s".as_slice() {
        sent(fields)
    } else if word == b"end".as_slice() {
        Some(ReportLine::End)
    } else if word == b"cut".as_slice() {
        count(field(fields, 1)).map(|calls| ReportLine::Cut { calls })
    } else {
        None
    }
}
