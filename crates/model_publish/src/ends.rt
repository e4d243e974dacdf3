//! When the first period ends of what is published.
#![tactic(auto)]

ghost use Rattle.std.specs.Prelude.{◌≡◌, ℕ, ◌≤◌, ◌<◌, ◌^◌, ◌↔◌, [], None, false};
ghost use Rattle.std.specs.List.{list_any};
ghost use Rattle.model_publish.specs.Ends.{is_beat_due};
ghost use Rattle.model_states.specs.Publication.{heartbeat_due, is_heartbeat_due, is_row_due, is_time, rows_due};
ghost use Rattle.timer_ends.specs.Ends.{HoldsUntil, IsBefore};

use crate::heartbeats::{heartbeat_period, is_none_left};
use crate::publisher::Publisher;
use crate::rows::publish_period;
use model_states::publication::{Heartbeat, Publication};
use timer_ends::{period_end, sooner};

// When a row is due, where it was last asked at a moment.
fn row_end(asked: u64, p: &Publication) -> Option<u64>
    ensures { (now : ℕ) → now ≤ 2 ^ 48 → is_row_due asked now p.now ≡ false ↔ IsBefore now result }
{
    let period = publish_period(p.row.period);
    if p.row.address.0 == 0 || period == 0 {
        return None;
    }
    Some(period_end(period, p.accepted, asked))
}

// When the first of these rows is due.
fn first_row(asked: u64, rows: &[Publication]) -> Option<u64>
    ensures { (now : ℕ) → now ≤ 2 ^ 48 → list_any (is_row_due asked now) rows.now ≡ false ↔ IsBefore now result }
{
    let mut first = None;
    for p in rows {
        first = sooner(first, row_end(asked, p));
    }
    first
}

// When a heartbeat is due that some are left of: at once, where it was never asked.
fn beat_end(period: u64, accepted: u64, asked: Option<u64>) -> u64
    requires { 0 < period }
    ensures { (now : ℕ) → now ≤ 2 ^ 48 → is_time period accepted asked now ≡ false ↔ now < result }
{
    match asked {
        None => 0,
        Some(asked) => period_end(period, accepted, asked),
    }
}

// When a heartbeat is due.
fn heartbeat_end(h: &Heartbeat) -> Option<u64>
    ensures { (now : ℕ) → now ≤ 2 ^ 48 → is_heartbeat_due now h.now ≡ false ↔ IsBefore now result }
{
    let period = heartbeat_period(h.row.period);
    if h.row.dst.0 == 0 || period == 0 || is_none_left(h.left) {
        return None;
    }
    Some(beat_end(period, h.accepted, h.asked))
}

// When the heartbeat is due, if there is one.
fn beat_of(heartbeat: Option<Heartbeat>) -> Option<u64>
    ensures { (now : ℕ) → now ≤ 2 ^ 48 → is_beat_due now heartbeat ≡ false ↔ IsBefore now result }
{
    let heartbeat = heartbeat?;
    heartbeat_end(&heartbeat)
}

impl Publisher {
    /// When the next row or the heartbeat is due, in ticks of 10 ms; None where nothing is published. A heartbeat that was never asked is due
    /// at once. Before that nothing is due.
    pub fn first_end(&self) -> Option<u64>
        ensures still { HoldsUntil 0 result
            (λ now. (rows_due self.now now ≡ []) × (heartbeat_due self.now now ≡ None)) }
    {
        sooner(
            first_row(self.asked, self.rows.as_slice()),
            beat_of(self.heartbeat),
        )
    }
}
