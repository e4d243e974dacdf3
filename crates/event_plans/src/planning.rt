//! The plan of an event, by its kind.
#![tactic(auto)]

ghost use Rattle.std.specs.Prelude.{◌≡◌, ◌+◌, ◌≤◌, ◌^◌, min, IfOk, OnErr};
ghost use Rattle.early_reading.specs.Known.{IsKnown};
ghost use Rattle.event_plans.specs.Memory.{IsFitFor, view_in};
ghost use Rattle.event_plans.specs.Plans.{IsPlanned, IsSomePast, IsStanding, of_beacon, of_own, of_pdu, of_tick};
ghost use Rattle.event_plans.specs.Sending.{IsOwn, IsSendable};
ghost use Rattle.event_records.specs.Putting.{AreMoves, ArePuttable};
ghost use Rattle.friend_steps.specs.Sending.{IsSend};
ghost use Rattle.mesh_types.specs.declared.events.Event.TheVariants as E;
ghost use Rattle.node_records.specs.Meaning.{IsSaid};
ghost use Rattle.node_records.specs.Tables.{config_in};
ghost use Rattle.node_records.specs.declared.persist.Persist.{Persist as PersistValue};
ghost use Rattle.event_definitions.specs.History.{Past};
ghost use Rattle.segment_sender.specs.Held.{IsOutgoing};

use crate::answers::{asked_answer, begin_answer};
use crate::models::{publish_due, take_heard};
use crate::plan::{BeaconPlan, OwnPlan, PduPlan, TickPlan};
use crate::tables::NodeTables;
use early_reading::Known;
use event_records::{beacon_records, heard_records, tick_records};
use friend_steps::{friend_steps_law, hear_friends, keep_octets, store_send};
use iv_update::steps_law;
use mesh_base::address::Address;
use mesh_base::octets::Octets;
use mesh_base::pair::Name;
use mesh_hearing::tables_law;
use mesh_jobs::{PduBasis, Span, TimeBasis, held_phases};
use mesh_types::answers::Answer;
use mesh_types::events::{Event, Outgoing};
use node_models::node_models_law;
use node_records::Persist;
use node_records::laws::value_law;
use std::alloc::AllocError;

/// The ticks of a life stop here.
const MOST_TICKS: u64 = 1 << 48;

/// The plan of a network PDU heard, where the records before it say `p`, and what is kept in memory with it. What is known of
/// its reading is used. An error says that memory ran out, and then all is as before.
///
/// `p` and what is kept stand for some past of a node that is whole. Each record of the plan may be put behind those before
/// it, and each Numbers record is a move to an IV state that may follow.
pub fn plan_pdu(
    tables: &mut NodeTables,
    p: &Persist,
    known: Known<'_>,
    octets: &[u8],
) -> Result<PduPlan, AllocError>
    requires standing { IsSomePast p.now tables.old }
    requires fit { IsFitFor tables.old p.now }
    requires known { IsKnown (view_in tables.old p.now) octets.now known }
    ensures planned { (past : Past) → IsStanding past p.now tables.old
        → IfOk result (λ plan. IsPlanned past (E.Net octets.now) (of_pdu plan) tables.new) }
    ensures may { IfOk result (λ plan. ArePuttable p.now plan.records) }
    ensures moves { IfOk result (λ plan. AreMoves (config_in p.now) plan.records) }
    ensures fit { IsFitFor tables.new p.now }
    ensures unchanged { OnErr result (tables.new ≡ tables.old) }
{
    let phases = held_phases(p);
    let now = tables.hearing.ticks();
    let polls = tables.friends.polls();
    let keys = tables.friends.keys();
    let heard = tables.hearing.hear(p, known, keys.as_slice(), octets)?;
    let taken = take_heard(&mut tables.models, p, now, polls.as_slice(), &heard);
    let records = heard_records(&heard.answer, &taken.changes);
    let left = hear_friends(&mut tables.friends, p, now, &heard, taken);
    Ok(PduPlan {
        answer: heard.answer,
        records,
        basis: PduBasis {
            heard: heard.pdu,
            phases,
            replies: left.replies,
            act: left.act,
        },
    })
}

/// The plan of a beacon heard, where the records before it say `p`, and what is kept in memory with it.
///
/// `p` and what is kept stand for some past of a node that is whole. Each record of the plan may be put behind those before
/// it, and each Numbers record is a move to an IV state that may follow.
pub fn plan_beacon(tables: &mut NodeTables, p: &Persist, octets: &[u8]) -> BeaconPlan
    requires standing { IsSomePast p.now tables.old }
    requires fit { IsFitFor tables.old p.now }
    requires said { IsSaid p.now }
    ensures planned { (past : Past) → IsStanding past p.now tables.old
        → IsPlanned past (E.Bcn octets.now) (of_beacon result) tables.new }
    ensures may { ArePuttable p.now result.records }
    ensures moves { AreMoves (config_in p.now) result.records }
    ensures fit { IsFitFor tables.new p.now }
{
    value_law();
    steps_law();
    // They do nothing when they run: the proof uses what they say.
    node_models_law();
    friend_steps_law();
    let heard = tables.hearing.hear_beacon(p, octets);
    let records = beacon_records(p, &heard.answer);
    BeaconPlan { heard, records }
}

// The ticks of a life when so many more have passed.
fn later(from: u64, ticks: u32) -> u64
    requires { from ≤ 2 ^ 48 }
    ensures value { result ≡ min (2 ^ 48) (from + ticks) }
    ensures most { result ≤ 2 ^ 48 }
{
    (from + u64::from(ticks)).min(MOST_TICKS)
}

/// The plan of time that passed, so many ticks of 10 ms, where the records before it say `p`, and what is kept in memory
/// with it. Each record of the plan may be put behind those before it, and each Numbers record is a move to an IV state
/// that may follow.
pub fn plan_tick(tables: &mut NodeTables, p: &Persist, ticks: u32) -> TickPlan
    requires fit { IsFitFor tables.old p.now }
    requires said { IsSaid p.now }
    ensures planned { (past : Past) → IsStanding past p.now tables.old
        → IsPlanned past (E.Tick ticks) (of_tick result) tables.new }
    ensures may { ArePuttable p.now result.records }
    ensures moves { AreMoves (config_in p.now) result.records }
    ensures fit { IsFitFor tables.new p.now }
{
    let from = tables.hearing.ticks();
    let to = later(from, ticks);
    let busy = tables.hearing.is_busy();
    let passed = tables.hearing.pass(p, ticks);
    let due = publish_due(
        &mut tables.models,
        &mut tables.friends,
        p,
        tables.hearing.keys().apps(),
        to,
        &passed.answer,
    );
    let records = tick_records(p, from, to, busy, &passed.answer);
    TickPlan {
        answer: passed.answer,
        records,
        basis: TimeBasis {
            acks: passed.acks,
            rounds: passed.rounds,
            due,
            span: Span { from, to, iv: p.iv },
        },
    }
}

// Of a message that the node is asked to send.
fn plan_send(tables: &mut NodeTables, p: &Persist, event: &Event) -> OwnPlan
    requires fit { IsFitFor tables.old p.now }
    requires send { IsSend (config_in p.now) event.now }
    ensures planned { (past : Past) → IsStanding past p.now tables.old → IsPlanned past event.now (of_own result) tables.new }
    ensures fit { IsFitFor tables.new p.now }
{
    // They do nothing when they run: the proof uses what they say.
    tables_law();
    node_models_law();
    let answer = asked_answer(p, event);
    let apps = tables.hearing.keys().apps();
    let befriended = store_send(&mut tables.friends, p, apps, event, &answer);
    OwnPlan { answer, befriended }
}

// Of an own segmented message that begins.
fn plan_begin(tables: &mut NodeTables, p: &Persist, m: &Outgoing) -> OwnPlan
    requires fit { IsFitFor tables.old p.now }
    requires said { IsSaid p.now }
    requires outgoing { IsOutgoing m.now }
    ensures planned { (past : Past) → IsStanding past p.now tables.old
        → IsPlanned past (E.Begin m.now) (of_own result) tables.new }
    ensures fit { IsFitFor tables.new p.now }
{
    value_law();
    // They do nothing when they run: the proof uses what they say.
    tables_law();
    node_models_law();
    friend_steps_law();
    let befriended = tables.friends.is_befriended(m.dst);
    OwnPlan {
        answer: begin_answer(&mut tables.hearing, p, befriended, m),
        befriended: false,
    }
}

// Of octets that answered a Poll.
fn plan_kept(
    tables: &mut NodeTables,
    lpn: Address,
    fsn: bool,
    name: &Name,
    pdu: &Octets<29>,
) -> OwnPlan
    ensures planned { (past : Past) (p : PersistValue) → IsStanding past p tables.old
        → IsPlanned past (E.Kept lpn fsn name.now pdu.now) (of_own result) tables.new }
    ensures fit { (p : PersistValue) → IsFitFor tables.old p → IsFitFor tables.new p }
{
    // They do nothing when they run: the proof uses what they say.
    tables_law();
    node_models_law();
    OwnPlan {
        answer: keep_octets(&mut tables.friends, lpn, fsn, name, pdu),
        befriended: false,
    }
}

/// The plan of an event that brings neither octets heard nor time, where the records before it say `p`, and what is kept in
/// memory with it. It stores nothing, and takes no memory.
///
/// `p` and what is kept stand for some past of a node that is whole, and the event is one that the node can send.
pub fn plan_own(tables: &mut NodeTables, p: &Persist, event: &Event) -> OwnPlan
    requires fit { IsFitFor tables.old p.now }
    requires said { IsSaid p.now }
    requires own { IsOwn event.now }
    requires sendable { IsSendable (config_in p.now) event.now }
    ensures planned { (past : Past) → IsStanding past p.now tables.old
        → IsPlanned past event.now (of_own result) tables.new }
    ensures fit { IsFitFor tables.new p.now }
{
    // They do nothing when they run: the proof uses what they say.
    tables_law();
    node_models_law();
    friend_steps_law();
    match event {
        Event::Send { .. } => plan_send(tables, p, event),
        Event::Begin(message) => plan_begin(tables, p, message),
        Event::Kept {
            lpn,
            fsn,
            name,
            pdu,
        } => plan_kept(tables, *lpn, *fsn, name, pdu),
        _ => OwnPlan {
            answer: asked_answer(p, event),
            befriended: false,
        },
    }
}
