//! What is stored when time passed.
#![tactic(auto)]

ghost use Rattle.std.specs.Prelude.{◌≡◌, ℕ, ◌-◌, ◌/◌, ◌≤◌, ◌^◌};
ghost use Rattle.event_records.specs.Putting.{AreMoves, ArePuttable};
ghost use Rattle.event_records.specs.Steps.{hour_records as hour_records_in};
ghost use Rattle.mesh_types.specs.declared.events.Event.TheVariants as E;
ghost use Rattle.node_records.specs.Meaning.{IsSaid};
ghost use Rattle.node_records.specs.Tables.{config_in};
ghost use Rattle.event_definitions.specs.Answers.{config_before, is_busy, later};
ghost use Rattle.event_definitions.specs.History.{Insight, Past, now_of};
ghost use Rattle.event_definitions.specs.Layers.{Layers};
ghost use Rattle.event_definitions.specs.Stores.{stores};

use crate::Records;
use crate::numbers::{add, step_record};
use iv_update::{on_hours, steps_law};
use mesh_types::answers::Answer;
use node_records::Persist;
use node_records::laws::value_law;
use record_types::records::StoreRecord;

/// An hour of a life, in ticks of 10 ms.
const HOUR: u64 = 360_000;

// How many hours of a life end between two times, in ticks.
fn hours_passed(from: u64, to: u64) -> u32
    requires { to ≤ 2 ^ 48 }
    ensures { result ≡ to / 360000 - from / 360000 }
{
    (to / HOUR).saturating_sub(from / HOUR) as u32
}

// What is stored where so many hours passed.
fn hour_records(p: &Persist, passed: u32, busy: bool) -> Records
    requires said { IsSaid p.now }
    ensures value { result ≡ hour_records_in (config_in p.now) passed busy }
    ensures may { ArePuttable p.now result }
    ensures moves { AreMoves (config_in p.now) result }
{
    let mut records = Records::new();
    if passed == 0 {
        return records;
    }
    value_law();
    steps_law();
    let mark_seq = (p.mark % (1 << 25)) as u32;
    let (aged, step) = on_hours(&p.iv, passed, mark_seq, busy);
    add(
        &mut records,
        Some(StoreRecord::Hour {
            hours: aged.hours,
            since: aged.since,
        }),
    );
    add(&mut records, step_record(p, &step));
    records
}

/// What a tick event stores, from the ticks of this life before it to those after it, at most 2^48: where hours passed, their record, and then
/// that of a new IV state, if there is one. `p` is what the records before the event say, and `busy` says that an own segmented message is
/// unacknowledged. Each record may be put behind those before it, and that of a new IV state is a move to a state that may follow.
#[tactic(auto, unfolding(event_definitions::specs::Stores::stores))]
pub fn tick_records(p: &Persist, from: u64, to: u64, busy: bool, answer: &Answer) -> Records
    requires said { IsSaid p.now }
    requires time { to ≤ 2 ^ 48 }
    ensures value { (layers : Layers) (past : Past) (ticks : ℕ) (insight : Insight)
        → config_in p.now ≡ config_before past → from ≡ now_of past.told
        → to ≡ later past ticks → busy ≡ is_busy layers past
        → result ≡ stores layers past (E.Tick ticks) insight answer.now }
    ensures may { ArePuttable p.now result }
    ensures moves { AreMoves (config_in p.now) result }
{
    match answer {
        Answer::Ticked { .. } => hour_records(p, hours_passed(from, to), busy),
        _ => Records::new(),
    }
}
