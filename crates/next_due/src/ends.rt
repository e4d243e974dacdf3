//! When the first of all timers of a node ends.
#![tactic(auto)]

ghost use Rattle.std.specs.Prelude.{ℕ, ◌≡◌, [], true, false};
ghost use Rattle.event_definitions.specs.History.{Past, now_of};
ghost use Rattle.event_definitions.specs.Jobs.{beacon_jobs};
ghost use Rattle.event_plans.specs.Memory.{AreNodeTablesOf};
ghost use Rattle.next_due.specs.Quiet.{EndsNothing};
ghost use Rattle.next_due.specs.Still.{AreNoBeacons, IsNoHour, IsStill};
ghost use Rattle.node_records.specs.Meaning.{IsMeaningOf};
ghost use Rattle.node_records.specs.Tables.{config_in};
ghost use Rattle.timer_ends.specs.Ends.{HoldsUntil};

use event_plans::NodeTables;
use node_records::Persist;
use timer_ends::{period_end, sooner};

/// An hour of a life, in ticks of 10 ms.
const HOUR: u64 = 360_000;

/// Between two multiples of so many ticks the node's beacons are sent once.
const BEACON_TICKS: u64 = 1000;

// Whether there are beacons to be sent.
fn has_beacons(p: &Persist) -> bool
    ensures none { result ≡ false → beacon_jobs (config_in p.now) ≡ [] }
    ensures some { result ≡ true → beacon_jobs (config_in p.now) ≡ [] → ⊥ }
{
    p.beacon == 1 && !p.nets.is_empty()
}

// When the next beacons are due; None where none are sent.
fn beacon_end(p: &Persist, now: u64) -> Option<u64>
    ensures { HoldsUntil now result (AreNoBeacons (config_in p.now) now) }
{
    if !has_beacons(p) {
        return None;
    }
    Some(period_end(BEACON_TICKS, 0, now))
}

// When an hour of the life ends.
fn hour_end(now: u64) -> Option<u64>
    ensures { HoldsUntil now result (IsNoHour now) }
{
    Some(period_end(HOUR, 0, now))
}

// The sooner of both.
fn node_end(p: &Persist, now: u64) -> Option<u64>
    ensures { HoldsUntil now result (λ later. IsNoHour now later × AreNoBeacons (config_in p.now) now later) }
{
    sooner(hour_end(now), beacon_end(p, now))
}

// When the first timer ends of what is kept in memory.
fn tables_end(tables: &NodeTables, now: u64) -> Option<u64>
    ensures { (past : Past) → AreNodeTablesOf tables.now past → now ≡ now_of past.told
        → HoldsUntil now result (EndsNothing past) }
{
    let friends = tables.friends().first_end();
    let models = tables.models().first_end(now);
    sooner(tables.hearing().first_end(), sooner(friends, models))
}

/// When the first of all timers ends of a node that isn't reset: of what is kept in memory, of an hour of the life, and between two beacons.
pub(crate) fn first_end(tables: &NodeTables, p: &Persist, now: u64) -> Option<u64>
    ensures { (past : Past) → IsMeaningOf past.records p.now → AreNodeTablesOf tables.now past → now ≡ now_of past.told
        → HoldsUntil now result (IsStill past) }
{
    sooner(node_end(p, now), tables_end(tables, now))
}
