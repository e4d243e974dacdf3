//! Time in which nothing is due.
#![tactic(auto)]

ghost use Rattle.std.specs.Prelude.{◌≡◌, ℕ, ◌+◌, ◌-◌, ◌<◌, ◌≤◌, ◌^◌, min, false, IfSome, IfNone};
ghost use Rattle.event_definitions.specs.History.{Past};
ghost use Rattle.event_plans.specs.Memory.{AreNodeTablesOf, IsFitFor};
ghost use Rattle.event_plans.specs.Plans.{IsPlanned, IsStanding, of_tick};
ghost use Rattle.mesh_types.specs.declared.events.Event.TheVariants as E;
ghost use Rattle.next_due.specs.Idle.{IsDueWithin, idle_plan};
ghost use Rattle.next_due.specs.Quiet.{IsQuiet};
ghost use Rattle.node_records.specs.Meaning.{IsMeaningOf};

use crate::ticks::due;
use event_plans::NodeTables;
use node_records::Persist;

/// The ticks of a life stop here.
const MOST_TICKS: u64 = 1 << 48;

// The ticks of a life when so many more have passed.
fn later(from: u64, ticks: u32) -> u64
    requires { from ≤ 2 ^ 48 }
    ensures value { result ≡ min (2 ^ 48) (from + ticks) }
{
    (from + u64::from(ticks)).min(MOST_TICKS)
}

/// Has so many ticks of 10 ms pass where nothing is due in them, in a node with a store of this value: the ticks of the life then, at most 2^48.
/// That is all of the event: it stores nothing, has no jobs, and its plan is the one without any (`idle_plan`). None where something is due or
/// a Node Reset is stored; then nothing has changed.
pub fn wait(tables: &mut NodeTables, p: &Persist, ticks: u32) -> Option<u64>
    ensures planned { IfSome result (λ now. (past : Past) → IsStanding past p.now tables.old
        → IsPlanned past (E.Tick ticks) (of_tick (idle_plan tables.old.hearing.ticks now p.now.iv)) tables.new) }
    ensures quiet { IfSome result (λ _. (past : Past) → IsMeaningOf past.records p.now
        → AreNodeTablesOf tables.old past → IsQuiet past ticks) }
    ensures fit { IsFitFor tables.old p.now → IsFitFor tables.new p.now }
    ensures unchanged { IfNone result (tables.new ≡ tables.old) }
    ensures due { IfNone result (p.now.reset ≡ false → ticks < 2 ^ 32 - 1 → IsDueWithin tables.old p.now ticks) }
{
    if p.reset {
        return None;
    }
    if due(tables, p) <= ticks {
        return None;
    }
    let now = later(tables.hearing().ticks(), ticks);
    tables.wait(now);
    Some(now)
}
