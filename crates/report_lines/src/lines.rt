//! The lines of the report, as `write_line` writes them.
#![tactic(auto, unfolding(report_definitions::specs::Report::words_text), using(std::proofs::Common::append_assoc))]

ghost use Rattle.std.specs.Prelude.{◌≡◌, ◌+◌, ◌<◌, ◌^◌, ◌++◌, IfOk, OnOk, codes};
ghost use Rattle.std.specs.Fmt.{decimal};
ghost use Rattle.mesh_types.specs.Kind.{kind_of};
ghost use Rattle.mesh_types.specs.declared.report.ReportLine.TheVariants as L;
ghost use Rattle.report_definitions.specs.Report.{line_text, words_text, state_text, next_text, kind_text};

use crate::answers::push_answer;
use crate::outcomes::push_outcome;
use crate::text::LineText;
use mesh_base::iv_state::IvState;
use mesh_types::answers::Answer;
use mesh_types::events::Kind;
use mesh_types::history::{Entry, Sent};
use mesh_types::lines::Outcome;
use mesh_types::report::ReportLine;
use std::alloc::{AllocError, Global};

/// The octets that are taken for a line: all lines but those with a long payload, or with eight names, have fewer.
const ROOM: usize = 192;

/// The text of a line of the report, with its LF.
pub fn write_line(alloc: Global, line: &ReportLine) -> Result<LineText, AllocError>
    ensures value { IfOk result (λ text. text ≡ line_text line.now) }
{
    let mut text = LineText::with_room(alloc, ROOM)?;
    push_line(&mut text, line)?;
    Ok(text)
}

/// Puts the text of a line of the report, with its LF, behind a text.
pub fn push_line(text: &mut LineText, line: &ReportLine) -> Result<(), AllocError>
    ensures ok { OnOk result (text.new ≡ text.old ++ line_text line.now) }
{
    push_words(text, line)?;
    text.push(b"\n")
}

/// Puts the line of an entry, with its LF, behind a text. The entry has this place in its life, from 1 on.
pub fn push_entry_line(text: &mut LineText, at: u32, entry: &Entry) -> Result<(), AllocError>
    ensures ok { OnOk result
        (text.new
        ≡ text.old ++ line_text (L.Entry at entry.now.bearer entry.now.number (kind_of entry.now.event) entry.now.answer)) }
{
    push_entry(
        text,
        at,
        entry.bearer,
        entry.number,
        entry.event.kind(),
        &entry.answer,
    )?;
    text.push(b"\n")
}

/// Puts the line of a job that this bearer did, with its LF, behind a text. It shows the places of entry and job counted from 1.
pub fn push_sent_line(
    text: &mut LineText,
    hex: bool,
    bearer: u8,
    sent: &Sent,
) -> Result<(), AllocError>
    requires entry { sent.now.entry + 1 < 2 ^ 32 }
    requires job { sent.now.job + 1 < 2 ^ 8 }
    ensures ok { OnOk result
        (text.new ≡ text.old ++ line_text (L.Sent bearer (sent.now.entry + 1) (sent.now.job + 1) sent.now.outcome hex)) }
{
    push_sent(
        text,
        bearer,
        sent.entry + 1,
        sent.job + 1,
        &sent.outcome,
        hex,
    )?;
    text.push(b"\n")
}

fn push_words(text: &mut LineText, line: &ReportLine) -> Result<(), AllocError>
    ensures ok { OnOk result (text.new ≡ text.old ++ words_text line.now) }
{
    match line {
        ReportLine::Opened { life, state, mark } => push_opened(text, *life, *state, *mark),
        ReportLine::WasReset { life } => push_life(text, *life, b" wasreset"),
        ReportLine::CutAtStart { life } => push_life(text, *life, b" cut"),
        ReportLine::Entry {
            at,
            bearer,
            number,
            kind,
            answer,
        } => push_entry(text, *at, *bearer, *number, *kind, answer),
        ReportLine::Sent {
            bearer,
            entry,
            job,
            outcome,
            hex,
        } => push_sent(text, *bearer, *entry, *job, outcome, *hex),
        ReportLine::End => text.push(b"end"),
        ReportLine::Cut { calls } => push_cut(text, *calls),
    }
}

/// The number of a life, and the word that tells how it opened.
fn push_life(text: &mut LineText, life: u32, word: &[u8]) -> Result<(), AllocError>
    ensures ok { OnOk result (text.new ≡ text.old ++ (codes "life " ++ decimal life ++ word.now)) }
{
    text.push(b"life ")?;
    text.push_decimal(u64::from(life))?;
    text.push(word)
}

/// The IV state: the known IV Index, its procedure, and the transmit IV Index.
#[tactic(auto, unfolding(mesh_base::specs::IvState::transmit_of), using(std::proofs::Common::append_assoc))]
fn push_state(text: &mut LineText, state: IvState) -> Result<(), AllocError>
    ensures ok { OnOk result (text.new ≡ text.old ++ state_text state) }
{
    text.push_field(8, state.current)?;
    if state.progress {
        text.push(b" p")?;
        text.push_field(8, state.current.saturating_sub(1))
    } else {
        text.push(b" n")?;
        text.push_field(8, state.current)
    }
}

/// The SEQ of a mark, with a seventh digit only where none is left under its IV Index.
fn push_next(text: &mut LineText, mark: u64) -> Result<(), AllocError>
    ensures ok { OnOk result (text.new ≡ text.old ++ next_text mark) }
{
    let seq = (mark % (1 << 25)) as u32;
    if seq == 1 << 24 {
        text.push_field(7, seq)
    } else {
        text.push_field(6, seq)
    }
}

fn push_opened(text: &mut LineText, life: u32, state: IvState, mark: u64) -> Result<(), AllocError>
    ensures ok { OnOk result (text.new ≡ text.old ++ words_text (L.Opened life state mark)) }
{
    text.push(b"life ")?;
    text.push_decimal(u64::from(life))?;
    push_state(text, state)?;
    push_next(text, mark)
}

fn push_kind(text: &mut LineText, kind: Kind) -> Result<(), AllocError>
    ensures ok { OnOk result (text.new ≡ text.old ++ kind_text kind) }
{
    match kind {
        Kind::Net => text.push(b" net"),
        Kind::Bcn => text.push(b" bcn"),
        Kind::Send => text.push(b" send"),
        Kind::Raw => text.push(b" raw"),
        Kind::Tick => text.push(b" tick"),
        Kind::Begin => text.push(b" begin"),
        Kind::Kept => text.push(b" kept"),
        Kind::Seek => text.push(b" seek"),
        Kind::Poll => text.push(b" poll"),
        Kind::List => text.push(b" list"),
    }
}

fn push_entry(
    text: &mut LineText,
    at: u32,
    bearer: u8,
    number: u32,
    kind: Kind,
    answer: &Answer,
) -> Result<(), AllocError>
    ensures ok { OnOk result (text.new ≡ text.old ++ words_text (L.Entry at bearer number kind answer.now)) }
{
    text.push(b"e ")?;
    text.push_decimal(u64::from(at))?;
    text.push(b" b")?;
    text.push_decimal(u64::from(bearer))?;
    text.push_number(u64::from(number))?;
    push_kind(text, kind)?;
    push_answer(text, answer)
}

fn push_sent(
    text: &mut LineText,
    bearer: u8,
    entry: u32,
    job: u8,
    outcome: &Outcome,
    hex: bool,
) -> Result<(), AllocError>
    ensures ok { OnOk result (text.new ≡ text.old ++ words_text (L.Sent bearer entry job outcome.now hex)) }
{
    text.push(b"s b")?;
    text.push_decimal(u64::from(bearer))?;
    text.push_number(u64::from(entry))?;
    text.push(b".")?;
    text.push_decimal(u64::from(job))?;
    push_outcome(text, hex, outcome)
}

fn push_cut(text: &mut LineText, calls: u32) -> Result<(), AllocError>
    ensures ok { OnOk result (text.new ≡ text.old ++ words_text (L.Cut calls)) }
{
    text.push(b"cut ")?;
    text.push_decimal(u64::from(calls))
}
