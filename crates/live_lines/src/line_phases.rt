//! Phases from the lines of a source, and from time that it tells.
#![tactic(auto)]

ghost use Rattle.std.specs.Prelude.{◌≡◌, ℕ, ◌<◌, List, [], length, map, true, IfOk, IfSome, IfErr};
ghost use Rattle.std.specs.Option.{option_map};
ghost use Rattle.live_lines.specs.Clock.{HasPassed};
ghost use Rattle.live_lines.specs.Nexts.{IsNextLine, IsNextPhase, IsRoundOf, IsRoundSaid};
ghost use Rattle.live_lines.specs.Saying.{IsPhaseOfLine, IsSaid};
ghost use Rattle.live_lines.specs.States.{IsSameNode, lines_at, lines_behind};
ghost use Rattle.live_lines.specs.Steps.{Fails, FailsToWait, HasWaited};
ghost use Rattle.live_lines.specs.Turns.{IsFrontOf};
ghost use Rattle.live_lines.specs.declared.lines.LineStop.TheVariants as stop;
ghost use Rattle.live_lines.specs.declared.saying.Saying.TheVariants as said;

use crate::clock::{Awaited, ClockedSource};
use crate::front::LineFront;
use crate::held::Held;
use crate::lines::{LineSource, LineStop, Turn};
use crate::phase::phase_of;
use mesh_base::outside::Sink;
use mesh_types::events::Event;
use script_definitions::line::ScriptLine;
use script_events::OutsideNode;
use std::alloc::{AllocError, Global};

/// The bearer whose events tell what time passed.
const TIME_BEARER: u8 = 0;

/// Phases of a node: each line that says an event is one, and so is time that passed, where the source tells it, as the line `b0 tick N` would be.
/// Once it failed it stays so.
#[derive(Drop)]
pub struct LinePhases<S, E> {
    /// The lines.
    pub lines: LineSource<S, E>,
    /// The front of a line of which octets were used, but which isn't whole yet.
    pub front: LineFront,
}

/// What a round came to.
#[derive(Drop)]
pub(crate) enum Round {
    /// Octets were read, or a line was passed over.
    Moved,
    /// A line says an event, or time passed as this line would say.
    Comes(ScriptLine),
    /// There is no line more.
    Ended,
}

impl<S: ClockedSource + Drop, E: Sink + Drop> LinePhases<S, E> {
    /// The phases of a source, for a node with so many bearers and elements. What is wrong with a line is told on `errors`. The octets that are
    /// held are those that were read already.
    pub fn with_held(
        alloc: Global,
        held: Held,
        source: S,
        errors: E,
        bearers: u8,
        elements: u8,
    ) -> Self
        ensures streams { (result.lines.source ≡ source) × (result.lines.errors ≡ errors) }
        ensures begins { (result.lines.held ≡ held) × (result.lines.number ≡ 0) × (result.lines.why ≡ None) }
        ensures front { result.front ≡ [] }
        ensures node { (result.lines.bearers ≡ bearers) × (result.lines.elements ≡ elements) }
    {
        LinePhases {
            lines: LineSource {
                source,
                errors,
                held,
                number: 0,
                outside: OutsideNode::new(),
                why: None,
                bearers,
                elements,
                alloc,
            },
            front: LineFront::new(),
        }
    }

    /// The phases of a source of which nothing was read yet.
    pub fn new(
        alloc: Global,
        source: S,
        errors: E,
        bearers: u8,
        elements: u8,
    ) -> Result<Self, AllocError>
        ensures streams { IfOk result (λ l. (l.lines.source ≡ source) × (l.lines.errors ≡ errors)) }
        ensures begins { IfOk result
            (λ l. (l.lines.held ≡ []) × (l.lines.number ≡ 0) × (l.lines.why ≡ None) × (l.front ≡ [])) }
        ensures node { IfOk result (λ l. (l.lines.bearers ≡ bearers) × (l.lines.elements ≡ elements)) }
    {
        let held = Held::new(alloc)?;
        Ok(LinePhases::with_held(alloc, held, source, errors, bearers, elements))
    }
}

impl<S: ClockedSource, E: Sink> LinePhases<S, E> {
    /// Waits until there is something to be done, or as many ticks passed as are due.
    fn wait(&mut self, due: u32) -> Result<Awaited, LineStop>
        ensures front { self.new.front ≡ self.old.front }
        ensures frame { IsSameNode self.old.lines self.new.lines }
        ensures passed { IfOk result (HasPassed S.clocked) }
        ensures still { (used : List ℕ) → IfOk result
            (λ a. HasWaited a (lines_behind S.left S.faults S.time E.held E.pieces E.faults used self.old.lines)
            (lines_behind S.left S.faults S.time E.held E.pieces E.faults used self.new.lines)) }
        ensures stop { (used : List ℕ) → IfErr result
            (λ why. (why ≡ stop.Source) × (S.clocked ≡ true)
            × FailsToWait (lines_behind S.left S.faults S.time E.held E.pieces E.faults used self.old.lines)
            (lines_at S.left S.faults S.time E.held E.pieces E.faults self.new.lines)) }
    {
        let at_hand = self.lines.held.has_line();
        match self.lines.source.wait(at_hand, due) {
            Ok(awaited) => Ok(awaited),
            Err(_) => Err(LineStop::Source),
        }
    }

    /// One move, by the front of the line so far.
    fn turn(&mut self) -> Result<Round, LineStop>
        ensures frame { IsSameNode self.old.lines self.new.lines }
        ensures ranges { IfOk result (IsRoundSaid self.old.lines.elements) }
        ensures rounds { IsRoundOf (lines_behind S.left S.faults S.time E.held E.pieces E.faults) S.clocked result self.old.front
            self.new.front self.old.lines self.new.lines }
    {
        match self.lines.turn(&mut self.front) {
            Ok(Turn::Moved) => Ok(Round::Moved),
            Ok(Turn::Happens(line)) => Ok(Round::Comes(line)),
            Ok(Turn::Ended) => {
                self.front = LineFront::new();
                Ok(Round::Ended)
            }
            Err(why) => Err(why),
        }
    }

    /// One round: a move, or time that passed.
    fn round(&mut self, due: u32) -> Result<Round, LineStop>
        ensures frame { IsSameNode self.old.lines self.new.lines }
        ensures ranges { IfOk result (IsRoundSaid self.old.lines.elements) }
        ensures rounds { IsRoundOf (lines_behind S.left S.faults S.time E.held E.pieces E.faults) S.clocked result self.old.front
            self.new.front self.old.lines self.new.lines }
    {
        match self.wait(due) {
            Ok(Awaited::Input) => self.turn(),
            Ok(Awaited::Passed(ticks)) => Ok(Round::Comes(ScriptLine::Tick {
                bearer: TIME_BEARER,
                ticks,
            })),
            Err(why) => Err(why),
        }
    }

    /// The next line that says an event, or the one that would say what time passed; None where there is none more.
    fn next_line(&mut self, due: u32) -> Result<Option<ScriptLine>, LineStop>
        ensures frame { IsSameNode self.old.lines self.new.lines }
        ensures ranges { IfOk result (λ r. IfSome r (λ line. IsSaid self.old.lines.elements (said.Happens line))) }
        ensures ok { (used : List ℕ) → IsFrontOf self.old.front used → IfOk result
            (λ r. IsNextLine self.old.lines.bearers self.old.lines.elements S.clocked r self.new.front
            (lines_behind S.left S.faults S.time E.held E.pieces E.faults used self.old.lines)
            (λ now. lines_behind S.left S.faults S.time E.held E.pieces E.faults now self.new.lines)) }
        ensures stop { (used : List ℕ) → IsFrontOf self.old.front used → IfErr result
            (λ why. Fails self.old.lines.bearers self.old.lines.elements S.clocked why
            (lines_behind S.left S.faults S.time E.held E.pieces E.faults used self.old.lines)
            (lines_at S.left S.faults S.time E.held E.pieces E.faults self.new.lines)) }
    {
        for _move in 0..u64::MAX {
            match self.round(due) {
                Ok(Round::Moved) => {}
                Ok(Round::Comes(line)) => return Ok(Some(line)),
                Ok(Round::Ended) => return Ok(None),
                Err(why) => return Err(why),
            }
        }
        Err(LineStop::Endless)
    }

    /// The phase of the next line that says an event, or of time that passed; None where there is none more. Each other line is passed over, and
    /// where it is wrong, that is told. It reads only where it holds no whole line. `due` is in how many ticks something is due, behind the time
    /// that was told.
    ///
    /// # Errors
    ///
    /// `Source` and `Errors` only where the count of faults of that stream rose. `Memory` where there is no memory. `Endless` after 2^64 - 1 moves.
    pub fn next_phase(&mut self, due: u32) -> Result<Option<Vec<Vec<Event>>>, LineStop>
        ensures frame { IsSameNode self.old.lines self.new.lines }
        ensures ok { (used : List ℕ) → IsFrontOf self.old.front used → IfOk result
            (λ r. IsNextPhase self.old.lines.bearers self.old.lines.elements S.clocked
            (option_map (λ lists. map (λ v. v.items) lists.items) r) self.new.front
            (lines_behind S.left S.faults S.time E.held E.pieces E.faults used self.old.lines)
            (λ now. lines_behind S.left S.faults S.time E.held E.pieces E.faults now self.new.lines)) }
        ensures line { IfOk result
            (λ r. IfSome r
            (λ lists. IsPhaseOfLine self.old.lines.bearers self.old.lines.elements (map (λ v. v.items) lists.items))) }
        ensures stop { (used : List ℕ) → IsFrontOf self.old.front used → IfErr result
            (λ why. Fails self.old.lines.bearers self.old.lines.elements S.clocked why
            (lines_behind S.left S.faults S.time E.held E.pieces E.faults used self.old.lines)
            (lines_at S.left S.faults S.time E.held E.pieces E.faults self.new.lines)) }
    {
        match self.next_line(due) {
            Ok(Some(line)) => {
                match phase_of(
                    self.lines.alloc,
                    self.lines.bearers,
                    &mut self.lines.outside,
                    &line,
                ) {
                    Ok(lists) => Ok(Some(lists)),
                    Err(_) => Err(LineStop::Memory),
                }
            }
            Ok(None) => Ok(None),
            Err(why) => Err(why),
        }
    }
}
