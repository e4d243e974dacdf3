//! The jobs of an entry: each is sealed, and noted.
#![tactic(auto)]

ghost use Rattle.std.specs.Prelude.{◌≡◌, ℕ, ◌+◌, ◌<◌, ◌≤◌, ◌^◌, length, List, [], ◌∷◌, ◌++◌, All, map, true, false, None, IfOk, OnOk, IfErr, IfSome};
ghost use Rattle.std.specs.Option.{option_to_list};
ghost use Rattle.machine_contract.specs.Ranges.{IsEvent, IsJob, IsQuiet};
ghost use Rattle.run_definitions.specs.Lines.{is_drawing};
ghost use Rattle.run_definitions.specs.Order.{Task, follow, is_outside, write, write_tasks};
ghost use Rattle.locked_node.specs.Node.{OnStop};
ghost use Rattle.node_bearer.specs.Did.{Broke, DidBy, DrewBy, GoesOn, IsRider};
ghost use Rattle.node_bearer.specs.Marked.{HasEntry, HasJob};

use crate::acting::act;
use crate::bearer::{Bearer, Drawn};
use crate::drawing::draw;
use crate::sharing::Sharing;
use crate::workplace::Workplace;
use flash_model::Flash;
use job_sealing::{drawn_line, draws, plain_line};
use locked_node::Node;
use machine_contract::{Machine, Stop};
use mesh_base::pair::Pair;
use mesh_types::events::Event;
use mesh_types::history::Sent;
use mesh_types::jobs::Job;
use mesh_types::lines::Outcome;

/// Does a job that draws no pair: job `j` of the entry at place `at`, which is of this event.
fn plain_job<M: Machine, F: Flash + Send + Drop>(
    b: &mut Bearer<Node<M, F>>,
    at: u32,
    j: u8,
    event: &Event,
    job: &Job,
) -> Result<Option<Event>, Stop>
    requires job { IsJob event.now job.now }
    requires plain { is_drawing job.now ≡ false }
    requires there { HasJob b.old.pass.seen at j event.now job.now b.old.drawer.informed }
    ensures frame { b.new ≡ record b.old { lines = b.new.lines } }
    ensures did { (k first : ℕ) (tasks rest : List Task)
        → DidBy k first tasks (write at j event.now job.now ∷ rest) b.old
        → IfOk result (λ next. DidBy k first tasks (map follow (option_to_list next) ++ rest) b.new) }
    ensures own { IfOk result (λ next. next ≡ None) }
    ensures memory { IfErr result (λ e. e ≡ Stop.Memory) }
{
    let outcome = plain_line(&mut *b.kept, event, job);
    match b.lines.push(Sent {
        entry: at,
        job: j,
        outcome,
    }) {
        Ok(()) => Ok(None),
        Err(_) => Err(Stop::Memory),
    }
}

/// Notes that no number was left for a job.
fn spent_job<M: Machine, F: Flash + Send + Drop>(
    b: &mut Bearer<Node<M, F>>,
    at: u32,
    j: u8,
    event: &Event,
    job: &Job,
    iv: u32,
) -> Result<Option<Event>, Stop>
    requires draws { is_drawing job.now ≡ true }
    requires there { HasJob b.old.pass.seen at j event.now job.now b.old.drawer.informed }
    ensures frame { b.new ≡ record b.old { lines = b.new.lines } }
    ensures did { (k first : ℕ) (tasks rest : List Task)
        → DrewBy (Drawn.Spent iv) k first tasks (write at j event.now job.now ∷ rest) b.old
        → IfOk result (λ next. DidBy k first tasks (map follow (option_to_list next) ++ rest) b.new) }
    ensures own { IfOk result (λ next. next ≡ None) }
    ensures memory { IfErr result (λ e. e ≡ Stop.Memory) }
{
    match b.lines.push(Sent {
        entry: at,
        job: j,
        outcome: Outcome::Spent { iv },
    }) {
        Ok(()) => Ok(None),
        Err(_) => Err(Stop::Memory),
    }
}

/// Does a job with the pair drawn for it.
fn drawn_job<M: Machine, F: Flash + Send + Drop>(
    b: &mut Bearer<Node<M, F>>,
    at: u32,
    j: u8,
    event: &Event,
    job: &Job,
    pair: Pair,
) -> Result<Option<Event>, Stop>
    requires job { IsJob event.now job.now }
    requires draws { is_drawing job.now ≡ true }
    requires pair { pair.seq < 2 ^ 24 }
    requires there { HasJob b.old.pass.seen at j event.now job.now b.old.drawer.informed }
    ensures frame { b.new ≡ record b.old { lines = b.new.lines } }
    ensures did { (k first : ℕ) (tasks rest : List Task)
        → DrewBy (Drawn.Pair pair) k first tasks (write at j event.now job.now ∷ rest) b.old
        → IfOk result (λ next. DidBy k first tasks (map follow (option_to_list next) ++ rest) b.new) }
    ensures own { IfOk result (λ next. IfSome next (λ e. is_outside e ≡ false)) }
    ensures range { (elements : ℕ) → IfOk result (λ next. IfSome next (IsEvent elements)) }
    ensures quiet { IsQuiet job.now → IfOk result (λ next. next ≡ None) }
    ensures memory { IfErr result (λ e. e ≡ Stop.Memory) }
{
    let line = drawn_line(&mut *b.kept, event, job, pair);
    match b.lines.push(Sent {
        entry: at,
        job: j,
        outcome: line.outcome,
    }) {
        Ok(()) => Ok(line.next),
        Err(_) => Err(Stop::Memory),
    }
}

/// Does a job: draws for it if it is one that draws, seals it, and notes its line. Returns the node's own event that is to be handled next.
fn do_job<M: Machine, F: Flash + Send + Drop, S: Sharing>(
    place: &Workplace<'_, Node<M, F>, S>,
    b: &mut Bearer<Node<M, F>>,
    at: u32,
    j: u8,
    event: &Event,
    job: &Job,
) -> Result<Option<Event>, Stop>
    requires rider { IsRider S.parts place.now.numbers.now place.now.turn.now b.old }
    requires job { IsJob event.now job.now }
    requires there { HasJob b.old.pass.seen at j event.now job.now b.old.drawer.informed }
    requires since { place.now.turn.now.first.machine.taken ≤ at }
    ensures rider { IsRider S.parts place.now.numbers.now place.now.turn.now b.new }
    ensures on { GoesOn b.old b.new }
    ensures did { (k first : ℕ) (tasks rest : List Task)
        → DidBy k first tasks (write at j event.now job.now ∷ rest) b.old
        → IfOk result (λ next. DidBy k first tasks (map follow (option_to_list next) ++ rest) b.new) }
    ensures own { IfOk result (λ next. IfSome next (λ e. is_outside e ≡ false)) }
    ensures range { (elements : ℕ) → IfOk result (λ next. IfSome next (IsEvent elements)) }
    ensures quiet { IsQuiet job.now → IfOk result (λ next. next ≡ None) }
    ensures stopped { (k first : ℕ) (tasks rest : List Task)
        → DidBy k first tasks (write at j event.now job.now ∷ rest) b.old
        → IfErr result (λ e. OnStop e (Broke k first tasks b.new)) }
{
    if !draws(job) {
        return plain_job(b, at, j, event, job);
    }
    match draw(place, b)? {
        Drawn::Pair(pair) => drawn_job(b, at, j, event, job, pair),
        Drawn::Spent(iv) => spent_job(b, at, j, event, job, iv),
    }
}

/// Does the jobs of an entry after whose lines nothing is handled.
fn do_quiet_jobs<M: Machine, F: Flash + Send + Drop, S: Sharing>(
    place: &Workplace<'_, Node<M, F>, S>,
    b: &mut Bearer<Node<M, F>>,
    at: u32,
    event: &Event,
    jobs: &[Job],
) -> Result<(), Stop>
    requires rider { IsRider S.parts place.now.numbers.now place.now.turn.now b.old }
    requires entry { HasEntry b.old.pass.seen at event.now jobs.now b.old.drawer.informed }
    requires since { place.now.turn.now.first.machine.taken ≤ at }
    requires few { length jobs.now ≤ 160 }
    requires jobs { All (IsJob event.now) jobs.now }
    requires quiet { All IsQuiet jobs.now }
    ensures rider { IsRider S.parts place.now.numbers.now place.now.turn.now b.new }
    ensures on { GoesOn b.old b.new }
    ensures did { (k first : ℕ) (tasks rest : List Task)
        → DidBy k first tasks (write_tasks at 0 event.now jobs.now ++ rest) b.old
        → OnOk result (DidBy k first tasks rest b.new) }
    ensures stopped { (k first : ℕ) (tasks rest : List Task)
        → DidBy k first tasks (write_tasks at 0 event.now jobs.now ++ rest) b.old
        → IfErr result (λ e. OnStop e (Broke k first tasks b.new)) }
{
    for j in 0..jobs.len() {
        do_job(place, b, at, j as u8, event, &jobs[j])?;
    }
    Ok(())
}

/// Has an event of the node's own handled, and does its jobs.
fn do_next<M: Machine, F: Flash + Send + Drop, S: Sharing>(
    place: &Workplace<'_, Node<M, F>, S>,
    b: &mut Bearer<Node<M, F>>,
    event: &Event,
    reader: &mut M::Reader,
    reading: &mut M::Reading,
) -> Result<(), Stop>
    requires rider { IsRider S.parts place.now.numbers.now place.now.turn.now b.old }
    requires event { IsEvent place.now.turn.now.first.machine.elements event.now }
    requires own { is_outside event.now ≡ false }
    ensures rider { IsRider S.parts place.now.numbers.now place.now.turn.now b.new }
    ensures on { GoesOn b.old b.new }
    ensures did { (first : ℕ) (tasks rest : List Task)
        → DidBy place.now.bearer first tasks (follow event.now ∷ rest) b.old
        → OnOk result (DidBy place.now.bearer first tasks rest b.new) }
    ensures stopped { (first : ℕ) (tasks rest : List Task)
        → DidBy place.now.bearer first tasks (follow event.now ∷ rest) b.old
        → IfErr result (λ e. OnStop e (Broke place.now.bearer first tasks b.new)) }
{
    M::unread(reading);
    let answered = act(place, b, event, reader, &*reading)?;
    do_quiet_jobs(place, b, answered.at, event, answered.jobs.as_slice())
}

/// Has handled what follows a line, if anything does, and does its jobs.
fn do_following<M: Machine, F: Flash + Send + Drop, S: Sharing>(
    place: &Workplace<'_, Node<M, F>, S>,
    b: &mut Bearer<Node<M, F>>,
    next: Option<Event>,
    reader: &mut M::Reader,
    reading: &mut M::Reading,
) -> Result<(), Stop>
    requires rider { IsRider S.parts place.now.numbers.now place.now.turn.now b.old }
    requires event { IfSome next (IsEvent place.now.turn.now.first.machine.elements) }
    requires own { IfSome next (λ e. is_outside e ≡ false) }
    ensures rider { IsRider S.parts place.now.numbers.now place.now.turn.now b.new }
    ensures on { GoesOn b.old b.new }
    ensures did { (first : ℕ) (tasks rest : List Task)
        → DidBy place.now.bearer first tasks (map follow (option_to_list next) ++ rest) b.old
        → OnOk result (DidBy place.now.bearer first tasks rest b.new) }
    ensures stopped { (first : ℕ) (tasks rest : List Task)
        → DidBy place.now.bearer first tasks (map follow (option_to_list next) ++ rest) b.old
        → IfErr result (λ e. OnStop e (Broke place.now.bearer first tasks b.new)) }
{
    match next {
        None => Ok(()),
        Some(event) => do_next(place, b, &event, reader, reading),
    }
}

/// Does the jobs of an entry, and has handled what follows their lines.
pub fn do_jobs<M: Machine, F: Flash + Send + Drop, S: Sharing>(
    place: &Workplace<'_, Node<M, F>, S>,
    b: &mut Bearer<Node<M, F>>,
    at: u32,
    event: &Event,
    jobs: &[Job],
    reader: &mut M::Reader,
    reading: &mut M::Reading,
) -> Result<(), Stop>
    requires rider { IsRider S.parts place.now.numbers.now place.now.turn.now b.old }
    requires entry { HasEntry b.old.pass.seen at event.now jobs.now b.old.drawer.informed }
    requires since { place.now.turn.now.first.machine.taken ≤ at }
    requires few { length jobs.now ≤ 160 }
    requires jobs { All (IsJob event.now) jobs.now }
    ensures rider { IsRider S.parts place.now.numbers.now place.now.turn.now b.new }
    ensures on { GoesOn b.old b.new }
    ensures did { (first : ℕ) (tasks rest : List Task)
        → DidBy place.now.bearer first tasks (write_tasks at 0 event.now jobs.now ++ rest) b.old
        → OnOk result (DidBy place.now.bearer first tasks rest b.new) }
    ensures stopped { (first : ℕ) (tasks rest : List Task)
        → DidBy place.now.bearer first tasks (write_tasks at 0 event.now jobs.now ++ rest) b.old
        → IfErr result (λ e. OnStop e (Broke place.now.bearer first tasks b.new)) }
{
    for j in 0..jobs.len() {
        let next = do_job(place, b, at, j as u8, event, &jobs[j])?;
        do_following(place, b, next, reader, reading)?;
    }
    Ok(())
}
