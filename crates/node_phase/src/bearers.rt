//! Bearers before, in and after a phase.
#![tactic(auto)]

ghost use Rattle.std.specs.Prelude.{◌≡◌, ℕ, ◌+◌, ◌<◌, ◌≤◌, [], ◌∷◌, ◌++◌, map, length, All, Bool, false, IfOk};
ghost use Rattle.std.specs.List.{filter, flat_map, sum_by};
ghost use Rattle.turn_lock.specs.Entries.{Holds, IsPrefix, KeptOf};
ghost use Rattle.turn_lock.specs.Views.{IsPassOf};
ghost use Rattle.locked_node.specs.declared.marks.Mark.{Mark};
ghost use Rattle.node_bearer.specs.Did.{AreEvents, IsRider};
ghost use Rattle.node_phase.specs.Worked.{IsFresh, Worked, done_of, drawn_by, looks_by, own_of, parts_by};

use crate::kept::{KeptByBearers, ReadAhead, add_readings};
use flash_model::Flash;
use locked_node::{Mark, Node};
use machine_contract::{Machine, Stop};
use mesh_types::events::Event;
use mesh_types::history::Sent;
use node_bearer::{Bearer, Gate, Sharing, Workplace, work};
use seq_word::{Drawer, Numbers};
use std::alloc::{AllocError, Global};
use std::marker::Model;
use turn_lock::laws::{kept_law, merge_law};
use turn_lock::{Logged, Pass, Turn};

/// What is left of a bearer behind a phase.
#[derive(Drop)]
pub struct Done {
    /// What became of its jobs in the phase, in their order.
    pub lines: Vec<Sent>,
    /// The number of its last entry in this life, or 0.
    pub number: u32,
    /// Why it stopped.
    pub stop: Option<Stop>,
}

/// How many events a bearer that runs beside others takes to the lock at most.
const AT_ONCE: usize = 32;

/// What the bearers of a phase share, and where memory comes from.
#[derive(Drop)]
pub struct Shared<'a, T: Logged> {
    /// Where memory comes from.
    pub alloc: Global,
    /// The counter and the mark.
    pub numbers: &'a Numbers,
    /// The lock.
    pub turn: &'a Turn<T>,
}

/// A bearer with what it reads octets by before its turn, a reading at least. What is handled is the same whatever these are, so a clause sees the
/// bearer alone.
#[derive(Drop)]
pub struct Seated<M: Machine, F: Flash + Send + Drop> {
    pub(crate) bearer: Bearer<Node<M, F>>,
    pub(crate) ahead: ReadAhead<M>,
}

impl<M: Machine, F: Flash + Send + Drop> Model for Seated<M, F> {
    ghost use Rattle.std.specs.Prelude.{◌≤◌, length};
    ghost use Rattle.node_bearer.specs.Did.{BearerOf};

    ghost Value = { BearerOf F };

    ghost view = { λ s. s.bearer };

    ghost invariant = { λ s. 1 ≤ length s.ahead.readings.items };
}

impl<M: Machine, F: Flash + Send + Drop> Seated<M, F> {
    /// The bearer, and what it reads by.
    pub(crate) fn into_parts(self) -> (Bearer<Node<M, F>>, ReadAhead<M>)
        ensures bearer { result.0 ≡ self }
    {
        let Seated { bearer, ahead } = self;
        (bearer, ahead)
    }
}

/// How many events the bearer at this place has.
fn events_of(plan: &[Vec<Event>], k: usize) -> usize {
    match plan.get(k) {
        Some(events) => events.len(),
        None => 0,
    }
}

// How many readings a bearer has for so many events: at least one.
fn readings_for(events: usize) -> usize
    ensures { 1 ≤ result }
{
    events.min(AT_ONCE).max(1)
}

/// A bearer for each of these numbers, which is that of its last entry so far, with what it kept in the phase before. Memory for a line of each
/// event that it has in the plan is taken here: so its thread takes none where no event has more lines.
pub fn split_all<M: Machine, F: Flash + Send + Drop>(
    shared: &Shared<'_, Node<M, F>>,
    drawer: &mut Drawer,
    pass: &mut Pass<Node<M, F>>,
    counts: &[u32],
    plan: &[Vec<Event>],
    kept: &mut KeptByBearers<M>,
) -> Result<Vec<Seated<M, F>>, AllocError>
    requires made { shared.now.turn.now.first.machine.which ≡ shared.now.numbers.now.which }
    requires draws { drawer.old.which ≡ shared.now.numbers.now.which }
    requires pass { IsPassOf shared.now.turn.now pass.old × (pass.old.inside ≡ false) }
    requires parts { length counts.now < pass.old.parts }
    ensures drawer { drawer.new ≡ record drawer.old { parts = drawer.new.parts } }
    ensures pass { pass.new ≡ record pass.old { parts = pass.new.parts } }
    ensures parts { IfOk result (λ v. pass.new.parts + length v.items ≡ pass.old.parts) }
    ensures numbers { IfOk result (λ v. map (λ b. b.number) v.items ≡ counts.now) }
    ensures riders { IfOk result (λ v. All (IsRider 1 shared.now.numbers.now shared.now.turn.now) v.items) }
    ensures fresh { IfOk result (λ v. All IsFresh v.items) }
    ensures noted { IfOk result (λ v. All (λ b. b.drawer.noted ≡ drawer.old.noted ++ drawer.old.drawn) v.items) }
    ensures known { IfOk result (λ v. All (λ b. b.drawer.known ≡ drawer.old.known ++ drawer.old.looks) v.items) }
    ensures shares { length counts.now < drawer.old.parts
        → IfOk result
        (λ v. (drawer.new.parts + length v.items ≡ drawer.old.parts) × All (λ b. b.drawer.parts ≡ 1) v.items) }
{
    let mut bearers = Vec::with_capacity(shared.alloc, counts.len())?;
    for number in counts {
        let events = events_of(plan, bearers.len());
        let lines = Vec::with_capacity(shared.alloc, events)?;
        let seals = kept.take(shared.alloc)?;
        let ahead = kept.take_ahead(shared.alloc, readings_for(events))?;
        let seat = shared.numbers.split(drawer);
        let own = shared.turn.split(pass);
        let bearer = Bearer {
            drawer: seat,
            pass: own,
            lines,
            number: *number,
            kept: seals,
            stop: None,
        };
        bearers.push(Seated { bearer, ahead })?;
    }
    Ok(bearers)
}

/// One bearer, at all its events.
pub fn work_phase<M: Machine, F: Flash + Send + Drop, G: Gate, S: Sharing>(
    place: &Workplace<'_, Node<M, F>, S>,
    gate: &G,
    b: &mut Seated<M, F>,
    events: &[Event],
)
    requires rider { IsRider S.parts place.now.numbers.now place.now.turn.now b.old }
    requires fresh { IsFresh b.old }
    requires events { AreEvents place.now.turn.now.first.machine.elements events.now }
    ensures rider { IsRider S.parts place.now.numbers.now place.now.turn.now b.new }
    ensures worked { Worked place.now.bearer events.now b.old b.new }
{
    add_readings::<M>(&mut b.ahead.readings);
    let reader = &mut *b.ahead.reader;
    let readings = b.ahead.readings.as_mut_slice();
    b.bearer.stop = work(place, gate, &mut b.bearer, events, reader, readings).err();
}

/// Takes all bearers in: what they drew and saw goes to the drawer, their entries to the pass, and what they keep is kept.
pub fn join_all<M: Machine, F: Flash + Send + Drop>(
    shared: &Shared<'_, Node<M, F>>,
    drawer: &mut Drawer,
    pass: &mut Pass<Node<M, F>>,
    bearers: Vec<Seated<M, F>>,
    kept: &mut KeptByBearers<M>,
) -> Result<Vec<Done>, AllocError>
    requires draws { drawer.old.which ≡ shared.now.numbers.now.which }
    requires pass { IsPassOf shared.now.turn.now pass.old × (pass.old.inside ≡ false) }
    requires riders { All (IsRider 1 shared.now.numbers.now shared.now.turn.now) bearers.items }
    ensures which { drawer.new.which ≡ drawer.old.which }
    ensures pass { IfOk result (λ v. IsPassOf shared.now.turn.now pass.new × (pass.new.inside ≡ false)) }
    ensures parts { IfOk result (λ v. pass.new.parts ≡ pass.old.parts + length bearers.items) }
    ensures drawn { IfOk result (λ v. drawer.new.drawn ≡ drawer.old.drawn ++ flat_map drawn_by bearers.items) }
    ensures looks { IfOk result (λ v. drawer.new.looks ≡ drawer.old.looks ++ flat_map looks_by bearers.items) }
    ensures noted { IfOk result
        (λ v. drawer.new.noted ≡ drawer.old.noted ++ flat_map (λ b. b.drawer.noted) bearers.items) }
    ensures shares { IfOk result (λ v. drawer.new.parts ≡ drawer.old.parts + sum_by parts_by bearers.items) }
    ensures free { drawer.old.owes ≡ 0 → All (λ b. b.drawer.owes ≡ 0) bearers.items
        → IfOk result (λ v. drawer.new.owes ≡ 0) }
    ensures kept { (keep : ℕ × Mark → Bool) (ys : _) → KeptOf keep (pass.old.own ∷ map own_of bearers.items) ys
        → IfOk result (λ v. filter keep pass.new.own ≡ ys) }
    ensures seen { IfOk result (λ v. All (λ b. IsPrefix b.pass.seen pass.new.seen) bearers.items) }
    ensures holds { IfOk result (λ v. All (λ b. Holds b.pass.own pass.new.own) bearers.items) }
    ensures dones { IfOk result (λ v. v.items ≡ map done_of bearers.items) }
{
    // They do nothing when they run: the proof uses what they say.
    kept_law::<Mark>();
    merge_law::<Mark>();
    let mut dones = Vec::with_capacity(shared.alloc, bearers.len())?;
    for bearer in bearers {
        let (bearer, ahead) = bearer.into_parts();
        let Bearer {
            drawer: seat,
            pass: own,
            lines,
            number,
            kept: seals,
            stop,
        } = bearer;
        shared.numbers.join(drawer, seat);
        shared.turn.join(pass, own);
        kept.put(seals);
        kept.put_ahead(ahead);
        dones.push(Done {
            lines,
            number,
            stop,
        })?;
    }
    Ok(dones)
}
