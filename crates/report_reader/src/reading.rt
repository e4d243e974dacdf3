//! The reading of a line.
#![tactic(auto)]

ghost use Rattle.std.specs.Prelude.{◌≡◌, IfOk, IfErr, IfSome, IfNone};
ghost use Rattle.std.specs.Str.{bytes_eq};
ghost use Rattle.report_definitions.specs.Report.{line_text};
ghost use Rattle.report_reader.specs.ReportLine.{IsReportLine, IsNoReportLine};
ghost use Rattle.report_reader.specs.Stops.{IsLineStop};

use crate::forms::fields_of;
use crate::lines::line_of;
use mesh_types::report::ReportLine;
use report_lines::write_line;
use std::alloc::{AllocError, Global};
use thiserror::Error;

/// Why there is no line.
#[derive(Clone, Copy, Debug, PartialEq, Eq, Error)]
pub enum LineStop {
    /// No report line has this text.
    #[error("no report line")]
    NotLine,
    /// There was no memory.
    #[error("out of memory")]
    Memory,
}

/// Whether this is the text of the line.
fn has_text(alloc: Global, line: &ReportLine, text: &[u8]) -> Result<bool, AllocError>
    ensures value { IfOk result (λ b. b ≡ bytes_eq (line_text line.now) text.now) }
{
    Ok(write_line(alloc, line)?.as_slice() == text)
}

/// What the fields of a text say, where this is the text of the line that they say.
fn line_with_text(alloc: Global, bytes: &[u8]) -> Result<Option<ReportLine>, AllocError>
    ensures some { IfOk result (λ l. IfSome l (IsReportLine bytes.now)) }
    ensures none { IfOk result (λ l. IfNone l (IsNoReportLine bytes.now)) }
{
    let fields = fields_of(alloc, bytes)?;
    match line_of(fields.as_slice()) {
        Some(line) => {
            if has_text(alloc, &line, bytes)? {
                Ok(Some(line))
            } else {
                Ok(None)
            }
        }
        None => Ok(None),
    }
}

/// Reads one line of a report, as `run --hex` writes it, with its LF.
///
/// The octets of network PDUs are shown, hexadecimal digits are lower case, one space stands between two words, and each number has the
/// width that its field of `ReportLine` has. What no text tells stands at zero in the line: the hours of an IV state, and the IV state that
/// a step leads to. The mark of an opened life is the SEQ told, under the transmit IV Index.
///
/// # Errors
///
/// `NotLine` exactly where no report line has this text, `Memory` where there is no memory.
pub fn read_line(alloc: Global, bytes: &[u8]) -> Result<ReportLine, LineStop>
    ensures ok { IfOk result (IsReportLine bytes.now) }
    ensures cause { IfErr result (IsLineStop bytes.now) }
{
    match line_with_text(alloc, bytes) {
        Ok(Some(line)) => Ok(line),
        Ok(None) => Err(LineStop::NotLine),
        Err(_) => Err(LineStop::Memory),
    }
}
