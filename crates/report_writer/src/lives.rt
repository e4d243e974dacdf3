//! A life that is over, and its lines.
#![tactic(auto)]

ghost use Rattle.std.specs.Prelude.{◌≡◌, ◌≢◌, ◌+◌, ◌^◌, ◌<◌, ◌≤◌, [], ◌∷◌, ◌++◌, length, map, All, IfOk, OnOk, OnErr};
ghost use Rattle.std.specs.Option.{option_to_list};
ghost use Rattle.mesh_base.specs.Outside.{Rose};
ghost use Rattle.mesh_types.specs.Kind.{kind_of};
ghost use Rattle.mesh_types.specs.declared.report.ReportLine.TheVariants as L;
ghost use Rattle.report_definitions.specs.Report.{bearer_lines, end_lines, entry_lines, life_lines, line_text, opened_line, send_lines};
ghost use Rattle.report_writer.specs.Lives.{FitsLines, HasRoom, life_of};
ghost use Rattle.report_writer.specs.Writing.{Written, WrittenFront, view_of};
ghost use Rattle.report_writer.specs.declared.lives.WriteStop.TheVariants as stop;

use crate::line_texts::LineTexts;
use crate::phases::write_made;
use mesh_base::outside::Sink;
use mesh_types::history::{Entry, Sent};
use mesh_types::report::{End, Opened, ReportLine};
use node_limits::BEARERS;
use std::alloc::{AllocError, Global};

/// A life that is over.
#[derive(Drop)]
pub struct EndedLife {
    /// How it opened.
    pub opened: Opened,
    /// Its entries, in their order; fewer than 2^32.
    pub entries: Vec<Entry>,
    /// How many refills were stored after the last entry.
    pub refills: u32,
    /// What became of the jobs, bearer by bearer, for at most 8 bearers.
    pub sends: Vec<Vec<Sent>>,
    /// How it ended.
    pub end: End,
}

/// The line of the opening of the life with this number.
pub(crate) fn opened_line(number: u32, opened: Opened) -> ReportLine
    ensures value { result ≡ opened_line number opened }
{
    match opened {
        Opened::On(state, mark) => ReportLine::Opened {
            life: number,
            state,
            mark,
        },
        Opened::WasReset => ReportLine::WasReset { life: number },
        Opened::CutAtStart => ReportLine::CutAtStart { life: number },
    }
}

/// The line of the end, which a life that wasn't run lacks.
fn end_line(opened: Opened, end: End) -> Option<ReportLine>
    ensures value { option_to_list result ≡ end_lines opened end }
{
    match (opened, end) {
        (Opened::WasReset, _) => None,
        (_, End::Ended) => Some(ReportLine::End),
        (_, End::Cut { calls }) => Some(ReportLine::Cut { calls }),
    }
}

/// Makes the text of a line for each entry, behind so many entries.
pub(crate) fn push_entries(
    texts: &mut LineTexts,
    first: u32,
    entries: &[Entry],
) -> Result<(), AllocError>
    requires few { first + length entries.now < 2 ^ 32 }
    ensures ok { OnOk result
        (texts.new ≡ texts.old ++ map line_text (entry_lines (first + 1) entries.now)) }
{
    let mut at = first;
    for entry in entries {
        at += 1;
        texts.push_entry(at, entry)?;
    }
    Ok(())
}

/// Makes the text of a line for each job that a bearer did.
fn push_bearer(
    texts: &mut LineTexts,
    hex: bool,
    bearer: u8,
    sends: &[Sent],
) -> Result<(), AllocError>
    requires room { All HasRoom sends.now }
    ensures ok { OnOk result (texts.new ≡ texts.old ++ map line_text (bearer_lines hex bearer sends.now)) }
{
    for sent in sends {
        texts.push_sent(hex, bearer, sent)?;
    }
    Ok(())
}

/// Makes the text of a line for each job, bearer by bearer.
pub(crate) fn push_sends(
    texts: &mut LineTexts,
    hex: bool,
    sends: &[Vec<Sent>],
) -> Result<(), AllocError>
    requires few { length sends.now ≤ BEARERS }
    requires room { All (All HasRoom) (map (λ v. v.items) sends.now) }
    ensures ok { OnOk result
        (texts.new ≡ texts.old ++ map line_text (send_lines hex 0 (map (λ v. v.items) sends.now))) }
{
    let mut bearer: u8 = 0;
    for sent in sends {
        push_bearer(texts, hex, bearer, sent.as_slice())?;
        bearer += 1;
    }
    Ok(())
}

/// Makes the text of the line of the end, if there is one.
pub(crate) fn push_end(texts: &mut LineTexts, opened: Opened, end: End) -> Result<(), AllocError>
    ensures ok { OnOk result (texts.new ≡ texts.old ++ map line_text (end_lines opened end)) }
{
    match end_line(opened, end) {
        Some(line) => texts.push_line(&line),
        None => Ok(()),
    }
}

/// The texts of the lines of a life, in their order.
fn life_texts(
    alloc: Global,
    hex: bool,
    number: u32,
    life: &EndedLife,
) -> Result<LineTexts, AllocError>
    requires room { FitsLines (life_of life.now) }
    ensures value { IfOk result (λ texts. texts ≡ map line_text (life_lines hex number (life_of life.now))) }
{
    let mut texts = LineTexts::new(alloc);
    texts.push_line(&opened_line(number, life.opened))?;
    push_entries(&mut texts, 0, life.entries.as_slice())?;
    push_sends(&mut texts, hex, life.sends.as_slice())?;
    push_end(&mut texts, life.opened, life.end)?;
    Ok(texts)
}

/// Why a life wasn't written to its end.
#[derive(Clone, Copy, Debug, PartialEq, Eq)]
pub enum WriteStop {
    /// The sink failed.
    Fault,
    /// There was no memory for the texts of the lines.
    Memory,
}

/// Writes the report of a life that is over, line by line: each line is handed to the sink as one piece, and what the sink left of it before
/// the next line. The life has the number `number`, from 1 on. With `hex` the octets of network PDUs are shown.
///
/// The texts of all lines are made before the first is written, so want of memory leaves the sink as it was. They stand one behind another in
/// one text, which takes at most twice their octets, and 8 octets a line more: so some 1 MiB for the 8,194 report lines of a life of 4,096 `raw`
/// events.
///
/// # Errors
///
/// `Fault` only where the sink's count of faults rose; what was written is then a front of the report. A sink that lacks memory of its own
/// counts a fault too. `Memory` where there is no memory for the texts; nothing was written then.
pub fn write_life<K: Sink>(
    alloc: Global,
    sink: &mut K,
    hex: bool,
    number: u32,
    life: &EndedLife,
) -> Result<(), WriteStop>
    requires room { FitsLines (life_of life.now) }
    ensures ok { OnOk result
        (Written (life_lines hex number (life_of life.now)) (view_of K.held K.pieces sink.old)
        (view_of K.held K.pieces sink.new)) }
    ensures err { OnErr result
        (WrittenFront (life_lines hex number (life_of life.now)) (view_of K.held K.pieces sink.old)
        (view_of K.held K.pieces sink.new)) }
    ensures memory { result ≡ Err stop.Memory → sink.new ≡ sink.old }
    ensures cause { result ≡ Err stop.Fault → Rose (K.faults sink.old) (K.faults sink.new) }
    ensures no_fault { result ≢ Err stop.Fault → K.faults sink.new ≡ K.faults sink.old }
    ensures later { K.faults sink.old ≤ K.faults sink.new }
{
    write_made(sink, life_texts(alloc, hex, number, life))
}
