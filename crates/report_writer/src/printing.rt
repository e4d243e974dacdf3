//! Texts handed to a sink, each as one piece.
#![tactic(auto)]

ghost use Rattle.std.specs.Prelude.{◌≡◌, ◌≤◌, List, map, OnOk, OnErr};
ghost use Rattle.mesh_base.specs.Outside.{Rose};
ghost use Rattle.mesh_types.specs.declared.report.ReportLine.{ReportLine};
ghost use Rattle.report_definitions.specs.Report.{line_text};
ghost use Rattle.report_writer.specs.Handing.{HandedFront, IsHanded};
ghost use Rattle.report_writer.specs.Writing.{Written, WrittenFront, view_of};

use crate::line_texts::LineTexts;
use mesh_base::outside::{Failed, Sink};

/// Hands a text to the sink as one piece, and what the sink left of it again, until it took all.
///
/// # Errors
///
/// `Failed` only where the sink's count of faults rose. A front of the text may have been written then.
pub fn write_text<K: Sink>(sink: &mut K, text: &[u8]) -> Result<(), Failed>
    ensures ok { OnOk result (IsHanded text.now (view_of K.held K.pieces sink.old) (view_of K.held K.pieces sink.new)) }
    ensures err { OnErr result
        (HandedFront text.now (view_of K.held K.pieces sink.old) (view_of K.held K.pieces sink.new)) }
    ensures cause { OnErr result (Rose (K.faults sink.old) (K.faults sink.new)) }
    ensures no_fault { OnOk result (K.faults sink.new ≡ K.faults sink.old) }
    ensures later { K.faults sink.old ≤ K.faults sink.new }
{
    let mut rest = text;
    while rest.len() > 0 {
        match sink.write(rest) {
            Ok(count) => rest = rest.split_at(count).1,
            Err(failed) => return Err(failed),
        }
    }
    Ok(())
}

/// Hands texts of lines to the sink, one after another: each as one piece, and what the sink left of it before the next.
///
/// # Errors
///
/// `Failed` only where the sink's count of faults rose. A front of the texts may have been written then.
pub(crate) fn write_texts<K: Sink>(sink: &mut K, texts: &LineTexts) -> Result<(), Failed>
    ensures ok { (lines : List ReportLine) → texts.now ≡ map line_text lines
        → OnOk result (Written lines (view_of K.held K.pieces sink.old) (view_of K.held K.pieces sink.new)) }
    ensures err { (lines : List ReportLine) → texts.now ≡ map line_text lines
        → OnErr result (WrittenFront lines (view_of K.held K.pieces sink.old) (view_of K.held K.pieces sink.new)) }
    ensures cause { OnErr result (Rose (K.faults sink.old) (K.faults sink.new)) }
    ensures no_fault { OnOk result (K.faults sink.new ≡ K.faults sink.old) }
    ensures later { K.faults sink.old ≤ K.faults sink.new }
{
    let (mut rest, lengths) = texts.parts();
    for length in lengths {
        let (text, more) = rest.split_at(*length);
        match write_text(sink, text) {
            Ok(()) => {}
            Err(failed) => return Err(failed),
        }
        rest = more;
    }
    Ok(())
}
