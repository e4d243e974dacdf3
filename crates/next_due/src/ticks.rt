//! In how many ticks something is due.
#![tactic(auto)]

ghost use Rattle.std.specs.Prelude.{◌≡◌, ℕ, ◌+◌, ◌-◌, ◌<◌, ◌≤◌, ◌^◌, min};
ghost use Rattle.event_definitions.specs.History.{Past};
ghost use Rattle.event_plans.specs.Memory.{AreNodeTablesOf};
ghost use Rattle.next_due.specs.Quiet.{IsQuiet};
ghost use Rattle.node_records.specs.Meaning.{IsMeaningOf};
ghost use Rattle.timer_ends.specs.Ends.{IsBefore};

use crate::ends::first_end;
use event_plans::NodeTables;
use node_records::Persist;

/// The ticks of a life stop here.
const MOST_TICKS: u64 = 1 << 48;

// In how many ticks from a moment an end comes, at most 2^32 - 1. The ticks of a life stop at 2^48.
fn ticks_until(now: u64, end: Option<u64>) -> u32
    requires { now ≤ 2 ^ 48 }
    ensures before { (ticks : ℕ) → ticks < result → IsBefore (min (2 ^ 48) (now + ticks)) end }
    ensures reached { result < 2 ^ 32 - 1 → IsBefore (min (2 ^ 48) (now + result)) end → ⊥ }
{
    match end {
        Some(end) if end <= MOST_TICKS => {
            u32::try_from(end.saturating_sub(now)).unwrap_or(u32::MAX)
        }
        _ => u32::MAX,
    }
}

/// In how many ticks of 10 ms something is due of a node with a store of this value: the least number of ticks of which an event isn't quiet,
/// at most 2^32 - 1. An event of fewer ticks stores nothing, sends nothing, and ends nothing: no acknowledgment, round, reassembly,
/// friendship or offer, delay or transition of a state, publication, heartbeat, hour of the life, or time between two beacons. After a Node
/// Reset nothing is due any more.
pub fn due(tables: &NodeTables, p: &Persist) -> u32
    ensures quiet { (past : Past) → IsMeaningOf past.records p.now → AreNodeTablesOf tables.now past
        → (ticks : ℕ) → ticks < result → IsQuiet past ticks }
    ensures reached { (past : Past) → IsMeaningOf past.records p.now → AreNodeTablesOf tables.now past
        → result < 2 ^ 32 - 1 → IsQuiet past result → ⊥ }
{
    if p.reset {
        return u32::MAX;
    }
    let now = tables.hearing().ticks();
    ticks_until(now, first_end(tables, p, now))
}
