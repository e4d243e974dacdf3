//! All events of a bearer.
#![tactic(auto)]

ghost use Rattle.std.specs.Prelude.{◌≡◌, ℕ, ◌≤◌, length, List, [], ◌∷◌, ◌++◌, drop, map, IfErr, IfOk, OnOk};
ghost use Rattle.run_definitions.specs.Order.{Task, handle};
ghost use Rattle.locked_node.specs.Node.{OnStop};
ghost use Rattle.node_bearer.specs.Did.{AreEvents, Broke, DidBy, GoesOn, IsRider};

use crate::acting::{act_on, read_each};
use crate::bearer::Bearer;
use crate::gate::Gate;
use crate::jobs::do_jobs;
use crate::sharing::Sharing;
use crate::workplace::Workplace;
use flash_model::Flash;
use locked_node::Node;
use machine_contract::{Machine, Stop};
use mesh_types::events::Event;

/// How far a bearer came by one turn at the lock.
#[derive(Clone, Copy)]
struct Stride {
    /// How many events were handled in it.
    events: usize,
    /// Whether none of them left jobs.
    quiet: bool,
    /// The place of the last one's entry in the history.
    at: u32,
}

/// Has events from outside handled in one turn, as far as none leaves jobs, and does all that follows. Each is read before the lock is taken, by
/// the bearer's reader and into the reading of its place. The reader is renewed.
fn do_events<M: Machine, F: Flash + Send + Drop, G: Gate, S: Sharing>(
    place: &Workplace<'_, Node<M, F>, S>,
    gate: &G,
    b: &mut Bearer<Node<M, F>>,
    events: &[Event],
    reader: &mut M::Reader,
    readings: &mut [M::Reading],
) -> Result<Stride, Stop>
    requires rider { IsRider S.parts place.now.numbers.now place.now.turn.now b.old }
    requires events { AreEvents place.now.turn.now.first.machine.elements events.now }
    requires some { 1 ≤ length events.now }
    requires few { length events.now ≤ length readings.old }
    ensures rider { IsRider S.parts place.now.numbers.now place.now.turn.now b.new }
    ensures on { GoesOn b.old b.new }
    ensures some { IfOk result (λ r. 1 ≤ r.events) }
    ensures few { IfOk result (λ r. r.events ≤ length events.now) }
    ensures did { (first : ℕ) (tasks rest : List Task)
        → DidBy place.now.bearer first tasks (map handle events.now ++ rest) b.old
        → IfOk result
        (λ r. DidBy place.now.bearer first tasks (map handle (drop r.events events.now) ++ rest) b.new) }
    ensures stopped { (first : ℕ) (tasks rest : List Task)
        → DidBy place.now.bearer first tasks (map handle events.now ++ rest) b.old
        → IfErr result (λ e. OnStop e (Broke place.now.bearer first tasks b.new)) }
{
    let number = b.number.saturating_add(1);
    gate.before(place.bearer, number);
    read_each::<M, S>(place.sharing, reader, readings, events);
    let acted = act_on(place, b, events, reader, &*readings)?;
    gate.between(place.bearer, number);
    let last = acted.last;
    let event = &events[last];
    let jobs = acted.answered.jobs.as_slice();
    let done = do_jobs(
        place,
        b,
        acted.answered.at,
        event,
        jobs,
        reader,
        &mut readings[0],
    );
    gate.after(place.bearer, number);
    done?;
    Ok(Stride {
        events: last + 1,
        quiet: jobs.is_empty(),
        at: acted.answered.at,
    })
}

// How many events a bearer takes to the lock at most.
fn most_at_once<G: Gate>(gate: &G, readings: usize) -> usize
    requires some { 1 ≤ readings }
    ensures some { 1 ≤ result }
    ensures few { result ≤ readings }
{
    if gate.is_told() { 1 } else { readings }
}

// How many events a bearer takes to the lock after a turn: so many, where none left jobs, else one.
fn ahead_after(quiet: bool, next: usize) -> usize
    requires { 1 ≤ next }
    ensures some { 1 ≤ result }
    ensures few { result ≤ next }
{
    if quiet { next } else { 1 }
}

// How many events a bearer takes to the lock after so many that left no jobs: twice as many.
fn next_ahead(ahead: usize, most: usize) -> usize
    requires few { ahead ≤ most }
    ensures more { ahead ≤ result }
    ensures few { result ≤ most }
{
    ahead.saturating_mul(2).min(most)
}

// Lets others run where they had turns since the entry at this place: whoever is next may wait for this very processor.
fn make_way<S: Sharing>(sharing: &S, at: u32, stride: &Stride) {
    let follows = u64::from(at).wrapping_add(stride.events as u64);
    if u64::from(stride.at) != follows {
        sharing.make_way();
    }
}

/// Has all events of a bearer handled, in their order, and does all that follows from each before it comes to the next. It stops at the
/// first refusal.
///
/// As long as events leave no jobs, it takes more and more of them to the lock at once, and has them handled in one turn: at most as many as
/// there are readings, and one where the gate is told. All are read before by the bearer's reader, which was renewed in the turn before.
pub fn work<M: Machine, F: Flash + Send + Drop, G: Gate, S: Sharing>(
    place: &Workplace<'_, Node<M, F>, S>,
    gate: &G,
    b: &mut Bearer<Node<M, F>>,
    events: &[Event],
    reader: &mut M::Reader,
    readings: &mut [M::Reading],
) -> Result<(), Stop>
    requires rider { IsRider S.parts place.now.numbers.now place.now.turn.now b.old }
    requires events { AreEvents place.now.turn.now.first.machine.elements events.now }
    requires readings { 1 ≤ length readings.old }
    ensures rider { IsRider S.parts place.now.numbers.now place.now.turn.now b.new }
    ensures on { GoesOn b.old b.new }
    ensures did { (first : ℕ) (tasks : List Task)
        → DidBy place.now.bearer first tasks (map handle events.now) b.old
        → OnOk result (DidBy place.now.bearer first tasks [] b.new) }
    ensures stopped { (first : ℕ) (tasks : List Task)
        → DidBy place.now.bearer first tasks (map handle events.now) b.old
        → IfErr result (λ e. OnStop e (Broke place.now.bearer first tasks b.new)) }
{
    let most = most_at_once(gate, readings.len());
    let mut ahead = 1;
    let mut done = 0;
    let mut at = 0;
    while done < events.len() {
        let count = ahead.min(events.len() - done);
        let next = next_ahead(ahead, most);
        let batch = &events[done..done + count];
        let stride = do_events(place, gate, b, batch, reader, &mut readings[..next])?;
        make_way(place.sharing, at, &stride);
        at = stride.at;
        done += stride.events;
        ahead = ahead_after(stride.quiet, next);
    }
    Ok(())
}
