//! The lines of a source, and its moves.
#![tactic(auto)]

ghost use Rattle.std.specs.Prelude.{◌≡◌, ℕ, ◌<◌, List, [], ◌∷◌, ◌++◌, length, IfOk, IfSome, IfErr, OnOk, OnErr};
ghost use Rattle.mesh_base.specs.Outside.{one_more};
ghost use Rattle.report_writer.specs.Handing.{IsHanded};
ghost use Rattle.report_writer.specs.Writing.{view_of};
ghost use Rattle.script_definitions.specs.Words.{without_cr};
ghost use Rattle.live_lines.specs.Saying.{IsSaid, line_says};
ghost use Rattle.live_lines.specs.States.{IsSameNode, lines_at, lines_behind};
ghost use Rattle.live_lines.specs.Steps.{FailsBy, IsRestTold, with_rest};
ghost use Rattle.live_lines.specs.Texts.{unended_text, wrong_text};
ghost use Rattle.live_lines.specs.Turns.{IsFrontOf, IsLost, IsTaken, IsTurn, IsTurnOf, IsTurnSaid, IsUntold};
ghost use Rattle.live_lines.specs.declared.saying.Saying.TheVariants as said;

use crate::clock::ClockedSource;
use crate::front::LineFront;
use crate::held::Held;
use crate::saying::{Saying, line_says};
use crate::texts::{unended_text, wrong_text};
use mesh_base::outside::Sink;
use report_writer::write_text;
use script_definitions::line::ScriptLine;
use script_events::OutsideNode;
use script_reader::counted::Rule;
use script_reader::words::without_cr;
use std::alloc::Global;

/// Why the lines of a source gave no phase.
#[derive(Clone, Copy, Debug, PartialEq, Eq)]
pub enum LineStop {
    /// Its source failed, when it was read or waited for.
    Source,
    /// The sink of wrong lines failed.
    Errors,
    /// There was no memory.
    Memory,
    /// It made 2^64 - 1 moves in one call, and no line was an event.
    Endless,
    /// It was asked for a phase of a node with other bearers or elements.
    OtherNode,
}

/// The lines of a source, for a node. What is wrong with a line is told on a sink, as one text. It keeps at most 4,096 octets that it read and
/// didn't use.
#[derive(Drop)]
pub struct LineSource<S, E> {
    /// Where the lines come from.
    pub source: S,
    /// Where it is told what is wrong.
    pub errors: E,
    /// Octets that were read and aren't used yet.
    pub held: Held,
    /// The number of lines so far, up to 2^64 - 1.
    pub number: u64,
    /// What seals the PDUs of lines `peer` and `talk`.
    pub outside: OutsideNode,
    /// Why it failed, if it did.
    pub why: Option<LineStop>,
    /// How many bearers the node has.
    pub bearers: u8,
    /// How many elements the node has.
    pub elements: u8,
    /// Where memory comes from.
    pub alloc: Global,
}

/// What a move came to.
#[derive(Drop)]
pub(crate) enum Turn {
    /// Octets were read, or a line was passed over.
    Moved,
    /// A line says an event.
    Happens(ScriptLine),
    /// There is no line more.
    Ended,
}

/// Tells a text, as one piece and what the sink left of it again.
fn tell<E: Sink>(errors: &mut E, text: &[u8]) -> Result<(), LineStop>
    ensures ok { OnOk result (IsHanded text.now (view_of E.held E.pieces errors.old) (view_of E.held E.pieces errors.new)) }
    ensures no_fault { OnOk result (E.faults errors.new ≡ E.faults errors.old) }
    ensures stop { IfErr result
        (λ why. IsUntold why text.now (view_of E.held E.pieces errors.old) (E.faults errors.old)
        (view_of E.held E.pieces errors.new) (E.faults errors.new)) }
{
    match write_text(errors, text) {
        Ok(()) => Ok(()),
        Err(_) => Err(LineStop::Errors),
    }
}

/// Tells that the line with this number fails by a rule.
fn tell_wrong<E: Sink>(
    alloc: Global,
    errors: &mut E,
    number: u64,
    rule: Rule,
    line: &[u8],
) -> Result<(), LineStop>
    ensures ok { OnOk result
        (IsHanded (wrong_text number rule line.now) (view_of E.held E.pieces errors.old)
        (view_of E.held E.pieces errors.new)) }
    ensures no_fault { OnOk result (E.faults errors.new ≡ E.faults errors.old) }
    ensures stop { IfErr result
        (λ why. IsUntold why (wrong_text number rule line.now) (view_of E.held E.pieces errors.old)
        (E.faults errors.old) (view_of E.held E.pieces errors.new) (E.faults errors.new)) }
{
    match wrong_text(alloc, number, rule, line) {
        Ok(text) => tell(errors, text.as_slice()),
        Err(_) => Err(LineStop::Memory),
    }
}

/// Tells that the line with this number isn't ended.
fn tell_unended<E: Sink>(alloc: Global, errors: &mut E, number: u64) -> Result<(), LineStop>
    ensures ok { OnOk result
        (IsHanded (unended_text number) (view_of E.held E.pieces errors.old) (view_of E.held E.pieces errors.new)) }
    ensures no_fault { OnOk result (E.faults errors.new ≡ E.faults errors.old) }
    ensures stop { IfErr result
        (λ why. IsUntold why (unended_text number) (view_of E.held E.pieces errors.old) (E.faults errors.old)
        (view_of E.held E.pieces errors.new) (E.faults errors.new)) }
{
    match unended_text(alloc, number) {
        Ok(text) => tell(errors, text.as_slice()),
        Err(_) => Err(LineStop::Memory),
    }
}

impl<S: ClockedSource, E: Sink> LineSource<S, E> {
    /// Counts a line, by its front, and passes over it, unless it says an event.
    fn take(&mut self, front: &[u8]) -> Result<Option<ScriptLine>, LineStop>
        ensures frame { self.new ≡ record self.old { number = one_more self.old.number; errors = self.new.errors } }
        ensures ok { IfOk result
            (λ r. IsTaken r (one_more self.old.number) (without_cr front.now)
            (line_says self.old.bearers self.old.elements (without_cr front.now))
            (view_of E.held E.pieces self.old.errors) (view_of E.held E.pieces self.new.errors)) }
        ensures ranges { IfOk result (λ r. IfSome r (λ line. IsSaid self.old.elements (said.Happens line))) }
        ensures no_fault { OnOk result (E.faults self.new.errors ≡ E.faults self.old.errors) }
        ensures stop { IfErr result
            (λ why. IsLost why (one_more self.old.number) (without_cr front.now)
            (line_says self.old.bearers self.old.elements (without_cr front.now))
            (view_of E.held E.pieces self.old.errors) (E.faults self.old.errors)
            (view_of E.held E.pieces self.new.errors) (E.faults self.new.errors)) }
    {
        self.number = self.number.saturating_add(1);
        let line = without_cr(front);
        match line_says(self.alloc, self.bearers, self.elements, line) {
            Ok(Saying::Nothing) => Ok(None),
            Ok(Saying::Happens(event)) => Ok(Some(event)),
            Ok(Saying::Wrong(rule)) => {
                match tell_wrong(self.alloc, &mut self.errors, self.number, rule, line) {
                    Ok(()) => Ok(None),
                    Err(why) => Err(why),
                }
            }
            Err(_) => Err(LineStop::Memory),
        }
    }

    /// Tells of the octets behind the last LF, where there are any, by the front of them.
    fn tell_rest(&mut self, front: &[u8]) -> Result<(), LineStop>
        ensures frame { self.new
            ≡ record self.old { number = with_rest self.old.number front.now; errors = self.new.errors } }
        ensures ok { OnOk result
            (IsRestTold self.old.number front.now (view_of E.held E.pieces self.old.errors)
            (view_of E.held E.pieces self.new.errors)) }
        ensures no_fault { OnOk result (E.faults self.new.errors ≡ E.faults self.old.errors) }
        ensures some { OnErr result (0 < length front.now) }
        ensures stop { IfErr result
            (λ why. IsUntold why (unended_text (one_more self.old.number))
            (view_of E.held E.pieces self.old.errors) (E.faults self.old.errors)
            (view_of E.held E.pieces self.new.errors) (E.faults self.new.errors)) }
    {
        if front.len() == 0 {
            return Ok(());
        }
        self.number = self.number.saturating_add(1);
        tell_unended(self.alloc, &mut self.errors, self.number)
    }

    /// Takes the line whose front is there whole.
    fn take_whole(&mut self, front: &mut LineFront) -> Result<Turn, LineStop>
        ensures frame { IsSameNode self.old self.new }
        ensures ranges { IfOk result (IsTurnSaid self.old.elements) }
        ensures ok { (raw : List ℕ) → IsFrontOf front.old raw → IfOk result
            (λ t. IsTurn self.old.bearers self.old.elements t front.new
            (lines_behind S.left S.faults S.time E.held E.pieces E.faults (raw ++ 10 ∷ []) self.old)
            (λ now. lines_behind S.left S.faults S.time E.held E.pieces E.faults now self.new)) }
        ensures stop { (raw : List ℕ) (n : ℕ) → IsFrontOf front.old raw → IfErr result
            (λ why. FailsBy self.old.bearers self.old.elements why n
            (lines_behind S.left S.faults S.time E.held E.pieces E.faults (raw ++ 10 ∷ []) self.old)
            (lines_at S.left S.faults S.time E.held E.pieces E.faults self.new)) }
    {
        let taken = self.take(front.as_slice());
        *front = LineFront::new();
        match taken {
            Ok(Some(line)) => Ok(Turn::Happens(line)),
            Ok(None) => Ok(Turn::Moved),
            Err(why) => Err(why),
        }
    }

    /// Reads on, where nothing is held, or ends.
    fn read_on(&mut self, front: &LineFront) -> Result<Turn, LineStop>
        requires none { self.old.held ≡ [] }
        ensures frame { IsSameNode self.old self.new }
        ensures ranges { IfOk result (IsTurnSaid self.old.elements) }
        ensures turns { IsTurnOf (lines_behind S.left S.faults S.time E.held E.pieces E.faults) result front.now front.now self.old
            self.new }
    {
        match self.held.fill(&mut self.source) {
            Ok(0) => match self.tell_rest(front.as_slice()) {
                Ok(()) => Ok(Turn::Ended),
                Err(why) => Err(why),
            },
            Ok(_) => Ok(Turn::Moved),
            Err(_) => Err(LineStop::Source),
        }
    }

    /// One move: the first line that is held is taken; where no whole line is held, more is read.
    pub(crate) fn turn(&mut self, front: &mut LineFront) -> Result<Turn, LineStop>
        ensures frame { IsSameNode self.old self.new }
        ensures ranges { IfOk result (IsTurnSaid self.old.elements) }
        ensures turns { IsTurnOf (lines_behind S.left S.faults S.time E.held E.pieces E.faults) result front.old front.new self.old
            self.new }
    {
        if self.held.take_line(front) {
            self.take_whole(front)
        } else {
            self.read_on(front)
        }
    }
}
