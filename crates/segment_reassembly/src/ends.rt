//! When the first timer of the messages ends.
#![tactic(auto)]

ghost use Rattle.std.specs.Prelude.{◌≡◌, ℕ, ◌<◌, ◌≤◌, ◌^◌, ◌↔◌, false};
ghost use Rattle.std.specs.List.{list_any};
ghost use Rattle.layer_states.specs.Reassembly.{after, tick};
ghost use Rattle.segment_reassembly.specs.Ends.{is_ending, is_timer_over};
ghost use Rattle.timer_ends.specs.Ends.{HoldsUntil, IsBefore};

use crate::parts::Parts;
use layer_states::reassembly::{Assembly, Timer};
use timer_ends::{end_after, sooner};

/// The incomplete timer of 10 seconds, in ticks.
const INCOMPLETE: u64 = 1000;

// When an acknowledgment timer ends, if it runs.
fn timer_end(timer: Option<Timer>) -> Option<u64>
    ensures { (now : ℕ) → is_timer_over now timer ≡ false ↔ IsBefore now result }
{
    let timer = timer?;
    Some(timer.due)
}

// When the first timer of a message ends.
fn end_of(a: &Assembly) -> Option<u64>
    ensures { (now : ℕ) → now ≤ 2 ^ 48 → is_ending now a.now ≡ false ↔ IsBefore now result }
{
    sooner(Some(end_after(a.renewed, INCOMPLETE)), timer_end(a.timer))
}

// When the first timer of these messages ends.
fn first_of(rows: &[Assembly]) -> Option<u64>
    ensures { (now : ℕ) → now ≤ 2 ^ 48 → list_any (is_ending now) rows.now ≡ false ↔ IsBefore now result }
{
    let mut first = None;
    for a in rows {
        first = sooner(first, end_of(a));
    }
    first
}

impl Parts {
    /// When the first timer of a message ends, in ticks of 10 ms: its acknowledgment is due, or its last new segment is 1000 ticks old. None
    /// where no message is in progress. Until then time leaves the messages as they are.
    pub fn first_end(&self) -> Option<u64>
        ensures still { HoldsUntil 0 result (λ now. after self.now (tick now) ≡ self.now) }
    {
        first_of(self.rows.as_slice())
    }
}
