//! How an event goes through the parts of a machine, by its kind. Each kind makes its own values and no others: its plan; then its records are
//! put, in their order; then its jobs are made, over the store as it is now; and then its entry is appended.
#![tactic(auto)]

ghost use Rattle.std.specs.Prelude.{◌≡◌, IfOk, IfErr};
ghost use Rattle.early_reading.specs.Known.{IsKnown};
ghost use Rattle.event_plans.specs.Memory.{view_in};
ghost use Rattle.event_plans.specs.Sending.{IsOwn};
ghost use Rattle.flash_model.specs.Arming.{FailsOnce};
ghost use Rattle.flash_model.specs.Chip.{Keeps};
ghost use Rattle.mesh_machine.specs.Handling.{HasRoom, IsActed, IsDone, IsKnownFor, IsStopped, IsTurnOf};
ghost use Rattle.mesh_types.specs.declared.events.Event.TheVariants as E;

use crate::parts::{Parts, store};
use early_reading::Known;
use event_plans::{
    are_within, jobs_of_beacon, jobs_of_own, jobs_of_pdu, jobs_of_tick, plan_beacon, plan_own,
    plan_pdu, plan_tick,
};
use flash_model::Flash;
use machine_contract::{Answered, Stop};
use machine_standing::{Place, enter};
use machine_ties::{are_bounded, ties_law};
use mesh_base::octets::Octets;
use mesh_reading::held_keys_law;
use mesh_types::answers::Answer;
use mesh_types::events::Event;
use mesh_types::jobs::JobDraft;
use next_due::wait;
use seq_word::Numbers;

/// An event that is to be handled, with the place of its entry, and memory for its jobs.
#[derive(Drop)]
pub(crate) struct Pending<'a> {
    pub event: &'a Event,
    pub place: Place,
    pub draft: JobDraft,
}

// A network PDU was heard.
#[inline(never)]
fn hear<F: Flash>(
    parts: &mut Parts,
    n: &Numbers,
    flash: &mut F,
    octets: &Octets<40>,
    known: Known<'_>,
    pending: Pending<'_>,
) -> Result<Answered, Stop>
    requires heard { pending.event.now ≡ E.Net octets.now }
    requires turn { IsTurnOf parts.old (E.Net octets.now) }
    requires known { IsKnown (view_in parts.old.tables parts.old.reserve.store.persist) octets.now known }
    requires made { parts.old.reserve.keeper.which ≡ n.now.which }
    requires room { HasRoom parts.old pending.draft }
    ensures done { IfOk result
        (IsDone parts.old parts.new (E.Net octets.now) pending.entry.place (F.chip flash.old) (F.chip flash.new)) }
    ensures stopped { IfErr result
        (IsStopped F.chip (E.Net octets.now) parts.old parts.new flash.old flash.new) }
    ensures unread { (F.chip flash.new).reads ≡ (F.chip flash.old).reads }
    ensures once { FailsOnce (F.chip flash.old) (F.chip flash.new) }
    ensures frame { Keeps (F.chip flash.old) (F.chip flash.new) }
{
    let Pending {
        event,
        place,
        draft,
    } = pending;
    // They do nothing when they run: the proof uses what they say.
    ties_law();
    held_keys_law();
    match plan_pdu(
        &mut parts.tables,
        parts.reserve.store.persist(),
        known,
        octets.as_slice(),
    ) {
        Ok(plan) => {
            are_bounded(parts.reserve.store.persist(), &plan.basis.heard);
            match store(parts, n, flash, &plan.records) {
                Ok(()) => {}
                Err(_) => return Err(Stop::Flash),
            }
            let p = parts.reserve.store.persist();
            let jobs = jobs_of_pdu(draft, p, parts.tables.keys(), &plan);
            let history = &mut parts.history;
            let keeper = &parts.reserve.keeper;
            Ok(enter(history, keeper, place, event, plan.answer, jobs))
        }
        Err(_) => Err(Stop::Memory),
    }
}

// A beacon was heard.
#[inline(never)]
fn hear_beacon<F: Flash>(
    parts: &mut Parts,
    n: &Numbers,
    flash: &mut F,
    octets: &Octets<40>,
    pending: Pending<'_>,
) -> Result<Answered, Stop>
    requires heard { pending.event.now ≡ E.Bcn octets.now }
    requires turn { IsTurnOf parts.old (E.Bcn octets.now) }
    requires made { parts.old.reserve.keeper.which ≡ n.now.which }
    requires room { HasRoom parts.old pending.draft }
    ensures done { IfOk result
        (IsDone parts.old parts.new (E.Bcn octets.now) pending.entry.place (F.chip flash.old) (F.chip flash.new)) }
    ensures stopped { IfErr result
        (IsStopped F.chip (E.Bcn octets.now) parts.old parts.new flash.old flash.new) }
    ensures unread { (F.chip flash.new).reads ≡ (F.chip flash.old).reads }
    ensures once { FailsOnce (F.chip flash.old) (F.chip flash.new) }
    ensures frame { Keeps (F.chip flash.old) (F.chip flash.new) }
{
    let Pending {
        event,
        place,
        draft,
    } = pending;
    // They do nothing when they run: the proof uses what they say.
    ties_law();
    held_keys_law();
    are_within(parts.reserve.store.persist());
    let plan = plan_beacon(
        &mut parts.tables,
        parts.reserve.store.persist(),
        octets.as_slice(),
    );
    match store(parts, n, flash, &plan.records) {
        Ok(()) => {}
        Err(_) => return Err(Stop::Flash),
    }
    let jobs = jobs_of_beacon(draft);
    let history = &mut parts.history;
    let keeper = &parts.reserve.keeper;
    Ok(enter(history, keeper, place, event, plan.heard.answer, jobs))
}

// Time passed: where nothing is due in it, it is told, and that is all.
#[inline(never)]
fn tick<F: Flash>(
    parts: &mut Parts,
    n: &Numbers,
    flash: &mut F,
    ticks: u32,
    pending: Pending<'_>,
) -> Result<Answered, Stop>
    requires told { pending.event.now ≡ E.Tick ticks }
    requires turn { IsTurnOf parts.old (E.Tick ticks) }
    requires made { parts.old.reserve.keeper.which ≡ n.now.which }
    requires room { HasRoom parts.old pending.draft }
    ensures done { IfOk result
        (IsDone parts.old parts.new (E.Tick ticks) pending.entry.place (F.chip flash.old) (F.chip flash.new)) }
    ensures stopped { IfErr result
        (IsStopped F.chip (E.Tick ticks) parts.old parts.new flash.old flash.new) }
    ensures unread { (F.chip flash.new).reads ≡ (F.chip flash.old).reads }
    ensures once { FailsOnce (F.chip flash.old) (F.chip flash.new) }
    ensures frame { Keeps (F.chip flash.old) (F.chip flash.new) }
{
    let Pending {
        event,
        place,
        draft,
    } = pending;
    // They do nothing when they run: the proof uses what they say.
    are_within(parts.reserve.store.persist());
    ties_law();
    held_keys_law();
    match wait(&mut parts.tables, parts.reserve.store.persist(), ticks) {
        Some(now) => {
            let answer = Answer::Ticked { now };
            let jobs = draft.finish();
            let history = &mut parts.history;
            let keeper = &parts.reserve.keeper;
            let told = enter(history, keeper, place, event, answer, jobs);
            Ok(told)
        }
        None => {
            let plan = plan_tick(&mut parts.tables, parts.reserve.store.persist(), ticks);
            let records = &plan.records;
            match store(parts, n, flash, records) {
                Ok(()) => {}
                Err(_) => return Err(Stop::Flash),
            }
            let p = parts.reserve.store.persist();
            let jobs = jobs_of_tick(draft, p, parts.tables.keys(), &plan);
            let history = &mut parts.history;
            let keeper = &parts.reserve.keeper;
            let answered = enter(history, keeper, place, event, plan.answer, jobs);
            Ok(answered)
        }
    }
}

// An event that brings neither octets heard nor time. It stores nothing.
#[inline(never)]
fn act(parts: &mut Parts, pending: Pending<'_>) -> Answered
    requires turn { IsTurnOf parts.old pending.event.now }
    requires own { IsOwn pending.event.now }
    requires room { HasRoom parts.old pending.draft }
    ensures done { IsActed parts.old parts.new pending.entry.event.now pending.entry.place result }
{
    let Pending {
        event,
        place,
        draft,
    } = pending;
    are_within(parts.reserve.store.persist());
    let p = parts.reserve.store.persist();
    let plan = plan_own(&mut parts.tables, p, event);
    let jobs = jobs_of_own(draft, p, parts.tables.keys(), event, &plan);
    let history = &mut parts.history;
    let keeper = &parts.reserve.keeper;
    enter(history, keeper, place, event, plan.answer, jobs)
}

/// Handles an event over the parts of a machine, where there is memory for its entry and its jobs. What is known of the reading of a network
/// PDU is used.
pub(crate) fn handle<F: Flash>(
    parts: &mut Parts,
    n: &Numbers,
    flash: &mut F,
    known: Known<'_>,
    pending: Pending<'_>,
) -> Result<Answered, Stop>
    requires turn { IsTurnOf parts.old pending.event.now }
    requires known { IsKnownFor parts.old.tables parts.old.reserve.store.persist pending.event.now known }
    requires made { parts.old.reserve.keeper.which ≡ n.now.which }
    requires room { HasRoom parts.old pending.draft }
    ensures done { IfOk result
        (IsDone parts.old parts.new pending.entry.event.now pending.entry.place (F.chip flash.old) (F.chip flash.new)) }
    ensures stopped { IfErr result (IsStopped F.chip pending.entry.event.now parts.old parts.new flash.old flash.new) }
    ensures unread { (F.chip flash.new).reads ≡ (F.chip flash.old).reads }
    ensures once { FailsOnce (F.chip flash.old) (F.chip flash.new) }
    ensures frame { Keeps (F.chip flash.old) (F.chip flash.new) }
{
    let event = pending.event;
    match event {
        Event::Net(octets) => hear(parts, n, flash, octets, known, pending),
        Event::Bcn(octets) => hear_beacon(parts, n, flash, octets, pending),
        Event::Tick(ticks) => tick(parts, n, flash, *ticks, pending),
        _ => Ok(act(parts, pending)),
    }
}
