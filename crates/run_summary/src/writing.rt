//! The eight lines of a summary.
#![tactic(auto, using(std::proofs::Common::append_assoc))]

ghost use Rattle.std.specs.Prelude.{◌≡◌, ◌≢◌, ◌≤◌, ◌++◌, codes, Err, IfOk, OnOk, OnErr};
ghost use Rattle.std.specs.Fmt.{decimal};
ghost use Rattle.mesh_base.specs.Outside.{Rose};
ghost use Rattle.report_writer.specs.Handing.{HandedFront, IsHanded};
ghost use Rattle.report_writer.specs.Writing.{view_of};
ghost use Rattle.report_writer.specs.declared.lives.WriteStop.TheVariants as stop;
ghost use Rattle.run_summary.specs.Summaries.{number_line, summary_text};

use crate::summary::Summary;
use mesh_base::outside::Sink;
use report_writer::{WriteStop, write_text};
use std::alloc::{AllocError, Global};

/// Puts a line behind a text: a word, and a number in decimal.
fn push_line(text: &mut Vec<u8>, word: &[u8], n: u128) -> Result<(), AllocError>
    ensures ok { OnOk result (text.new.items ≡ text.old.items ++ number_line word.now n) }
{
    let mut digits = itoa::Buffer::new();
    text.extend_from_slice(word)?;
    text.extend_from_slice(digits.format(n).as_bytes())?;
    text.extend_from_slice(b"\n")
}

/// The text of a summary.
fn text_of(alloc: Global, summary: &Summary) -> Result<Vec<u8>, AllocError>
    ensures value { IfOk result (λ text. text.items ≡ summary_text summary.now) }
{
    let mut text = Vec::new(alloc);
    push_line(&mut text, b"lives ", u128::from(summary.lives))?;
    push_line(&mut text, b"events ", summary.events)?;
    push_line(&mut text, b"planned ", summary.planned)?;
    push_line(&mut text, b"control ", summary.control)?;
    push_line(&mut text, b"notmine ", summary.not_mine)?;
    push_line(&mut text, b"ctl ", summary.ctl)?;
    push_line(&mut text, b"relay ", summary.relay)?;
    push_line(&mut text, b"octets ", u128::from(summary.octets))?;
    Ok(text)
}

/// Writes a summary: eight lines of a word and a decimal number, which are handed to the sink as one piece.
///
/// # Errors
///
/// `Fault` only where the sink's count of faults rose; what was written is then a front of the text. `Memory` where there is no memory for
/// the text; nothing was written then.
pub fn write_summary<K: Sink>(
    alloc: Global,
    sink: &mut K,
    summary: &Summary,
) -> Result<(), WriteStop>
    ensures ok { OnOk result
        (IsHanded (summary_text summary.now) (view_of K.held K.pieces sink.old) (view_of K.held K.pieces sink.new)) }
    ensures err { result ≡ Err stop.Fault
        → HandedFront (summary_text summary.now) (view_of K.held K.pieces sink.old)
        (view_of K.held K.pieces sink.new) }
    ensures memory { result ≡ Err stop.Memory → sink.new ≡ sink.old }
    ensures cause { result ≡ Err stop.Fault → Rose (K.faults sink.old) (K.faults sink.new) }
    ensures no_fault { result ≢ Err stop.Fault → K.faults sink.new ≡ K.faults sink.old }
    ensures later { K.faults sink.old ≤ K.faults sink.new }
{
    let text = match text_of(alloc, summary) {
        Ok(text) => text,
        Err(_) => return Err(WriteStop::Memory),
    };
    match write_text(sink, text.as_slice()) {
        Ok(()) => Ok(()),
        Err(_) => Err(WriteStop::Fault),
    }
}
