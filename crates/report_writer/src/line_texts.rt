//! The texts of lines, one behind another.
#![tactic(auto)]

ghost use Rattle.std.specs.Prelude.{◌≡◌, ◌+◌, ◌-◌, ◌<◌, ◌^◌, ◌≤◌, [], ◌∷◌, ◌++◌, length, Ok, IfOk, OnOk, OnErr};
ghost use Rattle.mesh_types.specs.Kind.{kind_of};
ghost use Rattle.mesh_types.specs.declared.report.ReportLine.TheVariants as L;
ghost use Rattle.report_definitions.specs.Report.{line_text};
ghost use Rattle.report_writer.specs.Lives.{HasRoom};
ghost use Rattle.report_writer.specs.Texts.{IsCut, pieces};

use mesh_types::history::{Entry, Sent};
use mesh_types::report::ReportLine;
use report_lines::{LineText, push_entry_line, push_line, push_sent_line};
use std::alloc::{AllocError, Global};
use std::marker::Model;

/// The texts of lines, one behind another in one text. A clause sees the list of them.
#[derive(Drop)]
pub(crate) struct LineTexts {
    text: LineText,
    /// How many octets each of them has.
    lengths: Vec<usize>,
}

impl Model for LineTexts {
    ghost use Rattle.std.specs.Prelude.{ℕ, List};
    ghost use Rattle.report_writer.specs.Texts.{IsCut, pieces};

    ghost Value = { List (List ℕ) };

    ghost view = { λ t. pieces t.lengths.items t.text };

    ghost invariant = { λ t. IsCut t.lengths.items t.text };
}

/// Ends a text that was put behind this many octets, if it was made whole; else no text is left.
fn close_text(
    text: &mut LineText,
    lengths: &mut Vec<usize>,
    from: usize,
    made: Result<(), AllocError>,
) -> Result<(), AllocError>
    requires from { OnOk made (from ≤ length text.old) }
    ensures made { OnOk result (made ≡ Ok tt) }
    ensures text { OnOk result (text.new ≡ text.old) }
    ensures length { OnOk result (lengths.new.items ≡ lengths.old.items ++ (length text.old - from) ∷ []) }
    ensures none { OnErr result ((text.new ≡ []) × (lengths.new.items ≡ [])) }
{
    if made.is_ok() && lengths.push(text.len() - from).is_ok() {
        return Ok(());
    }
    text.clear();
    lengths.clear();
    Err(AllocError)
}

impl LineTexts {
    /// No texts. They take memory as they are made.
    pub(crate) fn new(alloc: Global) -> LineTexts
        ensures value { result ≡ [] }
    {
        LineTexts {
            text: LineText::new(alloc),
            lengths: Vec::new(alloc),
        }
    }

    /// No texts, with room for so many octets.
    pub(crate) fn with_room(alloc: Global, room: usize) -> Result<LineTexts, AllocError>
        ensures value { IfOk result (λ texts. texts ≡ []) }
    {
        Ok(LineTexts {
            text: LineText::with_room(alloc, room)?,
            lengths: Vec::new(alloc),
        })
    }

    /// The octets of all texts, and how many of them each text has.
    pub(crate) fn parts(&self) -> (&[u8], &[usize])
        ensures value { pieces result.1.now result.0.now ≡ self.now }
        ensures cut { IsCut result.1.now result.0.now }
    {
        (self.text.as_slice(), self.lengths.as_slice())
    }

    /// Makes the text of a line, behind those that were made. After an error there are none.
    pub(crate) fn push_line(&mut self, line: &ReportLine) -> Result<(), AllocError>
        ensures ok { OnOk result (self.new ≡ self.old ++ line_text line.now ∷ []) }
        ensures none { OnErr result (self.new ≡ []) }
    {
        let from = self.text.len();
        let made = push_line(&mut self.text, line);
        close_text(&mut self.text, &mut self.lengths, from, made)
    }

    /// Makes the text of the line of an entry at this place, from 1 on.
    pub(crate) fn push_entry(&mut self, at: u32, entry: &Entry) -> Result<(), AllocError>
        ensures ok { OnOk result
            (self.new
            ≡ self.old
            ++ line_text (L.Entry at entry.now.bearer entry.now.number (kind_of entry.now.event) entry.now.answer) ∷ []) }
        ensures none { OnErr result (self.new ≡ []) }
    {
        let from = self.text.len();
        let made = push_entry_line(&mut self.text, at, entry);
        close_text(&mut self.text, &mut self.lengths, from, made)
    }

    /// Makes the text of the line of a job that this bearer did.
    pub(crate) fn push_sent(&mut self, hex: bool, bearer: u8, sent: &Sent) -> Result<(), AllocError>
        requires room { HasRoom sent.now }
        ensures ok { OnOk result
            (self.new
            ≡ self.old
            ++ line_text (L.Sent bearer (sent.now.entry + 1) (sent.now.job + 1) sent.now.outcome hex) ∷ []) }
        ensures none { OnErr result (self.new ≡ []) }
    {
        let from = self.text.len();
        let made = push_sent_line(&mut self.text, hex, bearer, sent);
        close_text(&mut self.text, &mut self.lengths, from, made)
    }
}
