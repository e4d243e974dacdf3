//! When the first timer of the messages ends.
#![tactic(auto)]

ghost use Rattle.std.specs.Prelude.{◌≡◌, ℕ, ◌↔◌, false};
ghost use Rattle.std.specs.List.{list_any};
ghost use Rattle.layer_states.specs.Sending.{after, is_due as is_due_in};
ghost use Rattle.layer_states.specs.Sending as sending;
ghost use Rattle.timer_ends.specs.Ends.{HoldsUntil, IsBefore};

use crate::senders::Senders;
use layer_states::sending::Sending;
use timer_ends::sooner;

// When the next round of one of these messages is due.
fn first_round(rows: &[Sending]) -> Option<u64>
    ensures { (now : ℕ) → list_any (is_due_in now) rows.now ≡ false ↔ IsBefore now result }
{
    let mut first = None;
    for s in rows {
        first = sooner(first, Some(s.due));
    }
    first
}

impl Senders {
    /// When the next round of a message that is held is due, in ticks of 10 ms, or a message goes that has had its rounds; None where none is
    /// held. Until then time leaves the messages as they are.
    pub fn first_end(&self) -> Option<u64>
        ensures still { HoldsUntil 0 result (λ now. after self.now (sending.due now) ≡ self.now) }
    {
        first_round(self.messages())
    }
}
