//! What a bearer does under the lock.
#![tactic(auto)]

ghost use Rattle.std.specs.Prelude.{◌≡◌, ◌≢◌, ℕ, ◌+◌, ◌<◌, ◌≤◌, ◌^◌, length, List, [], ◌∷◌, ◌++◌, All, map, true, false, IfOk, OnOk, IfErr, OnErr, slice_index_or};
ghost use Rattle.mesh_types.specs.declared.events.Event.{Event as AnEvent};
ghost use Rattle.machine_contract.specs.Ranges.{IsEvent, IsJob, IsQuiet};
ghost use Rattle.run_definitions.specs.Order.{Task, handle, is_outside, write_tasks};
ghost use Rattle.seq_word.specs.Seen.{IsFoundBy};
ghost use Rattle.seq_word.specs.Word.{seq_of};
ghost use Rattle.turn_lock.specs.Entries.{IsPrefix};
ghost use Rattle.locked_node.specs.Asked.{WasAsked};
ghost use Rattle.locked_node.specs.Node.{OnStop, node_marks, origin_of};
ghost use Rattle.node_bearer.specs.Did.{AreEvents, Broke, DidBy, GoesOn, IsFor, IsRider, LeftOff, freed};
ghost use Rattle.node_bearer.specs.Marked.{HasEntry};
ghost use Rattle.node_bearer.specs.Turns.{AreRead, after_turn, left_of};

use crate::bearer::{Acted, Bearer};
use crate::sharing::Sharing;
use crate::workplace::Workplace;
use flash_model::Flash;
use locked_node::{Node, Raised};
use machine_contract::{Answered, Machine, ReadBefore, Stop};
use mesh_types::events::Event;
use seq_word::Dry;

/// Has a bearer's reader read an event before the bearer's turn: a network PDU, where it reads early, and else nothing. What else it read stays.
fn read<M: Machine, S: Sharing>(
    sharing: &S,
    reader: &mut M::Reader,
    reading: &mut M::Reading,
    event: &Event,
)
    ensures fits { M.fits reader.new reading.new event.now }
    ensures kept { (other : M.Reading) (e : AnEvent) → M.fits reader.old other e → M.fits reader.new other e }
{
    match event {
        Event::Net(octets) if sharing.reads_early() => M::early(reader, reading, octets),
        _ => M::unread(reading),
    }
}

/// Has each of these events read before the bearer's turn, by its reader and into the reading of the event's place.
pub fn read_each<M: Machine, S: Sharing>(
    sharing: &S,
    reader: &mut M::Reader,
    readings: &mut [M::Reading],
    events: &[Event],
)
    requires few { length events.now ≤ length readings.old }
    ensures fits { AreRead M.fits reader.new readings.new events.now }
{
    for i in 0..events.len() {
        read::<M, S>(sharing, reader, &mut readings[i], &events[i]);
    }
}

// Renews a bearer's reader, where it reads early.
fn renew<M: Machine, F: Flash + Send + Drop, S: Sharing>(
    sharing: &S,
    node: &Node<M, F>,
    reader: &mut M::Reader,
) {
    if sharing.reads_early() {
        node.reader(reader);
    }
}

/// Has an event handled by the node in hand, which may have been read before.
fn handle_one<M: Machine, F: Flash + Send + Drop, S: Sharing>(
    place: &Workplace<'_, Node<M, F>, S>,
    node: &mut Node<M, F>,
    b: &mut Bearer<Node<M, F>>,
    event: &Event,
    early: &ReadBefore<'_, M::Reader, M::Reading>,
) -> Result<Answered, Stop>
    requires made { node.old.machine.which ≡ place.now.numbers.now.which }
    requires draws { b.old.drawer.which ≡ place.now.numbers.now.which }
    requires event { IsEvent node.old.machine.elements event.now }
    requires early { M.fits early.now.reader.now early.now.reading.now event.now }
    requires seen { IsPrefix b.old.pass.seen (node_marks node.old) }
    ensures origin { origin_of F.chip node.new ≡ origin_of F.chip node.old }
    ensures front { IsPrefix (node_marks node.old) (node_marks node.new) }
    ensures frame { b.new
        ≡ record b.old {
          number = b.new.number;
          drawer = record b.old.drawer { informed = b.new.drawer.informed };
        } }
    ensures told { IsPrefix b.old.drawer.informed b.new.drawer.informed }
    ensures did { (first : ℕ) (tasks rest : List Task) (task : Task) → IsFor event.now task
        → DidBy place.now.bearer first tasks (task ∷ rest) (after_turn b.old node.old)
        → IfOk result
        (λ a. DidBy place.now.bearer first tasks (write_tasks a.at 0 event.now a.jobs ++ rest) (after_turn b.new node.new)) }
    ensures entry { IfOk result (λ a. HasEntry (node_marks node.new) a.at event.now a.jobs b.new.drawer.informed) }
    ensures since { IfOk result (λ a. node.old.machine.taken ≤ a.at) }
    ensures jobs { IfOk result (λ a. All (IsJob event.now) a.jobs) }
    ensures quiet { is_outside event.now ≡ false → IfOk result (λ a. All IsQuiet a.jobs) }
    ensures stopped { (first : ℕ) (tasks rest : List Task) (task : Task) → IsFor event.now task
        → DidBy place.now.bearer first tasks (task ∷ rest) (after_turn b.old node.old)
        → IfErr result (λ e. OnStop e (Broke place.now.bearer first tasks (after_turn b.new node.new))) }
{
    if b.number == u32::MAX {
        return Err(Stop::Memory);
    }
    node.known();
    let answered = node.handle(
        place.numbers,
        &mut b.drawer,
        place.bearer,
        b.number + 1,
        event,
        early,
    )?;
    b.number += 1;
    Ok(answered)
}

// Whether a turn ends behind the event at this place, of so many: it left jobs, or it is the last.
fn ends_turn(answered: &Answered, at: usize, count: usize) -> bool
    requires there { at < count }
    ensures goes_on { result ≡ false → (at + 1 < count) × (answered.now.jobs ≡ []) }
{
    at + 1 == count || !answered.jobs.as_slice().is_empty()
}

/// Has events handled by the node in hand, one after another, and none behind one that leaves jobs. Each may have been read before, by the
/// bearer's reader, as the reading of its place tells.
fn handle_all<M: Machine, F: Flash + Send + Drop, S: Sharing>(
    place: &Workplace<'_, Node<M, F>, S>,
    node: &mut Node<M, F>,
    b: &mut Bearer<Node<M, F>>,
    events: &[Event],
    reader: &M::Reader,
    readings: &[M::Reading],
) -> Result<Acted, Stop>
    requires made { node.old.machine.which ≡ place.now.numbers.now.which }
    requires draws { b.old.drawer.which ≡ place.now.numbers.now.which }
    requires events { AreEvents node.old.machine.elements events.now }
    requires some { 1 ≤ length events.now }
    requires few { length events.now ≤ length readings.now }
    requires early { AreRead M.fits reader.now readings.now events.now }
    requires seen { IsPrefix b.old.pass.seen (node_marks node.old) }
    ensures origin { origin_of F.chip node.new ≡ origin_of F.chip node.old }
    ensures front { IsPrefix (node_marks node.old) (node_marks node.new) }
    ensures frame { b.new
        ≡ record b.old {
          number = b.new.number;
          drawer = record b.old.drawer { informed = b.new.drawer.informed };
        } }
    ensures told { IsPrefix b.old.drawer.informed b.new.drawer.informed }
    ensures last { IfOk result (λ a. a.last < length events.now) }
    ensures did { (first : ℕ) (tasks rest : List Task) (e : AnEvent)
        → DidBy place.now.bearer first tasks (map handle events.now ++ rest) (after_turn b.old node.old)
        → IfOk result
        (λ a. DidBy place.now.bearer first tasks (left_of a e events.now rest) (after_turn b.new node.new)) }
    ensures entry { (e : AnEvent) → IfOk result
        (λ a. HasEntry (node_marks node.new) a.answered.at (slice_index_or events.now a.last e) a.answered.jobs
        b.new.drawer.informed) }
    ensures since { IfOk result (λ a. node.old.machine.taken ≤ a.answered.at) }
    ensures jobs { (e : AnEvent) → IfOk result
        (λ a. All (IsJob (slice_index_or events.now a.last e)) a.answered.jobs) }
    ensures stopped { (first : ℕ) (tasks rest : List Task)
        → DidBy place.now.bearer first tasks (map handle events.now ++ rest) (after_turn b.old node.old)
        → IfErr result (λ e. OnStop e (Broke place.now.bearer first tasks (after_turn b.new node.new))) }
{
    for i in 0..events.len() {
        let early = ReadBefore {
            reader,
            reading: &readings[i],
        };
        let answered = handle_one(place, node, b, &events[i], &early)?;
        if ends_turn(&answered, i, events.len()) {
            return Ok(Acted { last: i, answered });
        }
    }
    unreachable!()
}

/// Takes a turn at the lock, in which an event is handled, which may have been read before, by the bearer's reader. The reader is renewed under the
/// same lock.
pub fn act<M: Machine, F: Flash + Send + Drop, S: Sharing>(
    place: &Workplace<'_, Node<M, F>, S>,
    b: &mut Bearer<Node<M, F>>,
    event: &Event,
    reader: &mut M::Reader,
    reading: &M::Reading,
) -> Result<Answered, Stop>
    requires rider { IsRider S.parts place.now.numbers.now place.now.turn.now b.old }
    requires event { IsEvent place.now.turn.now.first.machine.elements event.now }
    requires early { M.fits reader.old reading.now event.now }
    ensures rider { IsRider S.parts place.now.numbers.now place.now.turn.now b.new }
    ensures on { GoesOn b.old b.new }
    ensures frame { (b.new.lines ≡ b.old.lines)
        × (b.new.drawer ≡ record b.old.drawer { informed = b.new.drawer.informed }) }
    ensures did { (first : ℕ) (tasks rest : List Task) (task : Task) → IsFor event.now task
        → DidBy place.now.bearer first tasks (task ∷ rest) b.old
        → IfOk result
        (λ a. DidBy place.now.bearer first tasks (write_tasks a.at 0 event.now a.jobs ++ rest) b.new) }
    ensures entry { IfOk result (λ a. HasEntry b.new.pass.seen a.at event.now a.jobs b.new.drawer.informed) }
    ensures since { IfOk result (λ a. place.now.turn.now.first.machine.taken ≤ a.at) }
    ensures jobs { IfOk result (λ a. All (IsJob event.now) a.jobs) }
    ensures quiet { is_outside event.now ≡ false → IfOk result (λ a. All IsQuiet a.jobs) }
    ensures stopped { (first : ℕ) (tasks rest : List Task) (task : Task) → IsFor event.now task
        → DidBy place.now.bearer first tasks (task ∷ rest) b.old
        → IfErr result (λ e. OnStop e (Broke place.now.bearer first tasks b.new)) }
{
    let mut node = place.sharing.enter(place.turn, &mut b.pass);
    let early = ReadBefore {
        reader: &*reader,
        reading,
    };
    let result = handle_one(place, &mut node, b, event, &early);
    renew(place.sharing, &node, reader);
    node.known();
    place.turn.leave(&mut b.pass, node);
    result
}

/// Takes a turn at the lock, in which the first of these events is handled, and each next one where the one before left no jobs. Each may have
/// been read before, by the bearer's reader, as the reading of its place tells. The reader is renewed under the same lock.
pub fn act_on<M: Machine, F: Flash + Send + Drop, S: Sharing>(
    place: &Workplace<'_, Node<M, F>, S>,
    b: &mut Bearer<Node<M, F>>,
    events: &[Event],
    reader: &mut M::Reader,
    readings: &[M::Reading],
) -> Result<Acted, Stop>
    requires rider { IsRider S.parts place.now.numbers.now place.now.turn.now b.old }
    requires events { AreEvents place.now.turn.now.first.machine.elements events.now }
    requires some { 1 ≤ length events.now }
    requires few { length events.now ≤ length readings.now }
    requires early { AreRead M.fits reader.old readings.now events.now }
    ensures rider { IsRider S.parts place.now.numbers.now place.now.turn.now b.new }
    ensures on { GoesOn b.old b.new }
    ensures frame { (b.new.lines ≡ b.old.lines)
        × (b.new.drawer ≡ record b.old.drawer { informed = b.new.drawer.informed }) }
    ensures last { IfOk result (λ a. a.last < length events.now) }
    ensures did { (first : ℕ) (tasks rest : List Task) (e : AnEvent)
        → DidBy place.now.bearer first tasks (map handle events.now ++ rest) b.old
        → IfOk result (λ a. DidBy place.now.bearer first tasks (left_of a e events.now rest) b.new) }
    ensures entry { (e : AnEvent) → IfOk result
        (λ a. HasEntry b.new.pass.seen a.answered.at (slice_index_or events.now a.last e) a.answered.jobs
        b.new.drawer.informed) }
    ensures since { IfOk result (λ a. place.now.turn.now.first.machine.taken ≤ a.answered.at) }
    ensures jobs { (e : AnEvent) → IfOk result
        (λ a. All (IsJob (slice_index_or events.now a.last e)) a.answered.jobs) }
    ensures stopped { (first : ℕ) (tasks rest : List Task)
        → DidBy place.now.bearer first tasks (map handle events.now ++ rest) b.old
        → IfErr result (λ e. OnStop e (Broke place.now.bearer first tasks b.new)) }
{
    let mut node = place.sharing.enter(place.turn, &mut b.pass);
    let result = handle_all(place, &mut node, b, events, &*reader, readings);
    renew(place.sharing, &node, reader);
    node.known();
    place.turn.leave(&mut b.pass, node);
    result
}

/// Has a refill stored, where the mark that was reached is still the one that was published last, and can be raised. Then another mark is
/// published, and no longer the one that was reached (`raised`). It is asked for by a bearer that has seen a job that draws, of an entry that
/// wasn't taken before (`asked`), with what its last draw found (`found`); and it may owe the next draw then, where nothing failed (`frame`, `failed`).
pub fn refill<M: Machine, F: Flash + Send + Drop, S: Sharing>(
    place: &Workplace<'_, Node<M, F>, S>,
    b: &mut Bearer<Node<M, F>>,
    dry: Dry,
) -> Result<Raised, Stop>
    requires rider { IsRider S.parts place.now.numbers.now place.now.turn.now b.old }
    requires found { IsFoundBy dry b.old.drawer }
    requires seq { seq_of dry.mark < 2 ^ 24 }
    requires asked { WasAsked place.now.turn.now.first.machine.taken b.old.pass.seen }
    ensures rider { IsRider S.parts place.now.numbers.now place.now.turn.now b.new }
    ensures on { GoesOn b.old (freed b.new) }
    ensures frame { (b.new.lines ≡ b.old.lines)
        × (b.new.drawer ≡ record b.old.drawer { owes = b.new.drawer.owes }) }
    ensures failed { OnErr result (b.new.drawer ≡ b.old.drawer) }
    ensures raised { IfOk result (λ r. (r.seen ≡ dry.mark) × (r.mark ≢ r.seen)) }
    ensures did { (k first : ℕ) (tasks rest : List Task) → DidBy k first tasks rest b.old
        → OnOk result (DidBy k first tasks rest b.new) }
    ensures stopped { (k first : ℕ) (tasks rest : List Task) → DidBy k first tasks rest b.old
        → IfErr result (λ e. OnStop e (LeftOff k first tasks rest b.new)) }
{
    let mut node = place.sharing.enter(place.turn, &mut b.pass);
    let result = node.refill(place.numbers, &mut b.drawer, dry);
    node.known();
    place.turn.leave(&mut b.pass, node);
    result
}
