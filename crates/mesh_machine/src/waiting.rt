//! In how many ticks something is due.
#![tactic(auto)]

ghost use Rattle.std.specs.Prelude.{◌≡◌, ℕ, ◌-◌, ◌<◌, ◌^◌, true, false};
ghost use Rattle.event_definitions.specs.History.{Past};
ghost use Rattle.machine_ties.specs.Ties.{IsBefore};
ghost use Rattle.next_due.specs.Quiet.{IsQuiet};

use crate::state::MeshState;
use next_due::due;

impl MeshState {
    /// In how many ticks of 10 ms something is due: the least number of ticks of which an event isn't quiet, at most 2^32 - 1. Of a closed machine
    /// nothing is due any more. `due` of `Machine` is this call.
    pub fn ticks_left(&self) -> u32
        ensures quiet { (past : Past) → self.now.closed ≡ false → IsBefore past self.now
            → (ticks : ℕ) → ticks < result → IsQuiet past ticks }
        ensures reached { (past : Past) → self.now.closed ≡ false → IsBefore past self.now
            → result < 2 ^ 32 - 1 → IsQuiet past result → ⊥ }
        ensures closed { self.now.closed ≡ true → result ≡ 2 ^ 32 - 1 }
    {
        if self.closed {
            return u32::MAX;
        }
        due(&self.parts.tables, self.parts.reserve.store.persist())
    }
}
