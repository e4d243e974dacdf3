//! The report of a life that goes on: its opening, each of its phases, and its end.
#![tactic(auto)]

ghost use Rattle.std.specs.Prelude.{◌≡◌, ◌≢◌, ◌≤◌, List, [], ◌∷◌, ◌++◌, map, IfOk, OnOk, OnErr};
ghost use Rattle.mesh_base.specs.Outside.{Rose};
ghost use Rattle.mesh_types.specs.declared.report.ReportLine.{ReportLine as Line};
ghost use Rattle.report_definitions.specs.Report.{end_lines, line_text, opened_line};
ghost use Rattle.report_writer.specs.Phases.{FitsPhase, phase_lines};
ghost use Rattle.report_writer.specs.Writing.{Written, WrittenFront, view_of};
ghost use Rattle.report_writer.specs.declared.lives.WriteStop.TheVariants as stop;

use crate::line_texts::LineTexts;
use crate::lives::{WriteStop, opened_line, push_end, push_entries, push_sends};
use crate::printing::write_texts;
use mesh_base::outside::Sink;
use mesh_types::history::{Entry, Sent};
use mesh_types::report::{End, Opened};
use std::alloc::{AllocError, Global};

/// The octets that the texts of a phase have room for at first: those of an event and the PDU that it sends.
const PHASE_ROOM: usize = 256;

/// Writes the texts of lines, if there was memory for them. It says what `write_life` says of its lines.
pub(crate) fn write_made<K: Sink>(
    sink: &mut K,
    made: Result<LineTexts, AllocError>,
) -> Result<(), WriteStop>
    ensures ok { (lines : List Line) → IfOk made (λ texts. texts ≡ map line_text lines)
        → OnOk result (Written lines (view_of K.held K.pieces sink.old) (view_of K.held K.pieces sink.new)) }
    ensures err { (lines : List Line) → IfOk made (λ texts. texts ≡ map line_text lines)
        → OnErr result (WrittenFront lines (view_of K.held K.pieces sink.old) (view_of K.held K.pieces sink.new)) }
    ensures memory { result ≡ Err stop.Memory → sink.new ≡ sink.old }
    ensures cause { result ≡ Err stop.Fault → Rose (K.faults sink.old) (K.faults sink.new) }
    ensures no_fault { result ≢ Err stop.Fault → K.faults sink.new ≡ K.faults sink.old }
    ensures later { K.faults sink.old ≤ K.faults sink.new }
{
    let texts = match made {
        Ok(texts) => texts,
        Err(_) => return Err(WriteStop::Memory),
    };
    match write_texts(sink, &texts) {
        Ok(()) => Ok(()),
        Err(_) => Err(WriteStop::Fault),
    }
}

/// The text of the line of an opening.
fn opening_text(alloc: Global, number: u32, opened: Opened) -> Result<LineTexts, AllocError>
    ensures value { IfOk result (λ texts. texts ≡ map line_text (opened_line number opened ∷ [])) }
{
    let mut texts = LineTexts::new(alloc);
    texts.push_line(&opened_line(number, opened))?;
    Ok(texts)
}

/// The texts of the lines of a phase.
fn phase_texts(
    alloc: Global,
    hex: bool,
    first: u32,
    entries: &[Entry],
    sends: &[Vec<Sent>],
) -> Result<LineTexts, AllocError>
    requires room { FitsPhase first entries.now (map (λ v. v.items) sends.now) }
    ensures value { IfOk result
        (λ texts. texts ≡ map line_text (phase_lines hex first entries.now (map (λ v. v.items) sends.now))) }
{
    let mut texts = LineTexts::with_room(alloc, PHASE_ROOM)?;
    push_entries(&mut texts, first, entries)?;
    push_sends(&mut texts, hex, sends)?;
    Ok(texts)
}

/// The text of the line of an end, where there is one.
fn end_text(alloc: Global, opened: Opened, end: End) -> Result<LineTexts, AllocError>
    ensures value { IfOk result (λ texts. texts ≡ map line_text (end_lines opened end)) }
{
    let mut texts = LineTexts::new(alloc);
    push_end(&mut texts, opened, end)?;
    Ok(texts)
}

/// Writes the line of the opening of the life with this number, from 1 on, as one piece.
///
/// # Errors
///
/// As those of [`write_life`](crate::write_life).
pub fn write_opening<K: Sink>(
    alloc: Global,
    sink: &mut K,
    number: u32,
    opened: Opened,
) -> Result<(), WriteStop>
    ensures ok { OnOk result
        (Written (opened_line number opened ∷ []) (view_of K.held K.pieces sink.old) (view_of K.held K.pieces sink.new)) }
    ensures err { OnErr result
        (WrittenFront (opened_line number opened ∷ []) (view_of K.held K.pieces sink.old)
        (view_of K.held K.pieces sink.new)) }
    ensures memory { result ≡ Err stop.Memory → sink.new ≡ sink.old }
    ensures cause { result ≡ Err stop.Fault → Rose (K.faults sink.old) (K.faults sink.new) }
    ensures no_fault { result ≢ Err stop.Fault → K.faults sink.new ≡ K.faults sink.old }
    ensures later { K.faults sink.old ≤ K.faults sink.new }
{
    write_made(sink, opening_text(alloc, number, opened))
}

/// Writes the lines of a phase of a life, which had `first` entries before it: each line is handed to the sink as one piece. With `hex` the
/// octets of network PDUs are shown. The texts of all lines are made before the first is written.
///
/// # Errors
///
/// As those of [`write_life`](crate::write_life).
pub fn write_phase<K: Sink>(
    alloc: Global,
    sink: &mut K,
    hex: bool,
    first: u32,
    entries: &[Entry],
    sends: &[Vec<Sent>],
) -> Result<(), WriteStop>
    requires room { FitsPhase first entries.now (map (λ v. v.items) sends.now) }
    ensures ok { OnOk result
        (Written (phase_lines hex first entries.now (map (λ v. v.items) sends.now)) (view_of K.held K.pieces sink.old)
        (view_of K.held K.pieces sink.new)) }
    ensures err { OnErr result
        (WrittenFront (phase_lines hex first entries.now (map (λ v. v.items) sends.now))
        (view_of K.held K.pieces sink.old) (view_of K.held K.pieces sink.new)) }
    ensures memory { result ≡ Err stop.Memory → sink.new ≡ sink.old }
    ensures cause { result ≡ Err stop.Fault → Rose (K.faults sink.old) (K.faults sink.new) }
    ensures no_fault { result ≢ Err stop.Fault → K.faults sink.new ≡ K.faults sink.old }
    ensures later { K.faults sink.old ≤ K.faults sink.new }
{
    write_made(sink, phase_texts(alloc, hex, first, entries, sends))
}

/// Writes the line of the end of a life, as one piece; a life that wasn't run since there was a Node Reset has none.
///
/// # Errors
///
/// As those of [`write_life`](crate::write_life).
pub fn write_end<K: Sink>(
    alloc: Global,
    sink: &mut K,
    opened: Opened,
    end: End,
) -> Result<(), WriteStop>
    ensures ok { OnOk result
        (Written (end_lines opened end) (view_of K.held K.pieces sink.old) (view_of K.held K.pieces sink.new)) }
    ensures err { OnErr result
        (WrittenFront (end_lines opened end) (view_of K.held K.pieces sink.old) (view_of K.held K.pieces sink.new)) }
    ensures memory { result ≡ Err stop.Memory → sink.new ≡ sink.old }
    ensures cause { result ≡ Err stop.Fault → Rose (K.faults sink.old) (K.faults sink.new) }
    ensures no_fault { result ≢ Err stop.Fault → K.faults sink.new ≡ K.faults sink.old }
    ensures later { K.faults sink.old ≤ K.faults sink.new }
{
    write_made(sink, end_text(alloc, opened, end))
}
