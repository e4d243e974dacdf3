//! When the first of the friendships and offers goes.
#![tactic(auto)]

ghost use Rattle.std.specs.Prelude.{◌≡◌, ℕ, ◌↔◌, false};
ghost use Rattle.std.specs.List.{list_any};
ghost use Rattle.friend_queue.specs.Ends.{is_over};
ghost use Rattle.layer_states.specs.Friends.{after, tick};
ghost use Rattle.timer_ends.specs.Ends.{HoldsUntil, IsBefore};

use crate::friends::Friends;
use layer_states::friends::Friendship;
use timer_ends::sooner;

// When the first of these goes.
fn first_until(slots: &[Friendship]) -> Option<u64>
    ensures { (now : ℕ) → list_any (is_over now) slots.now ≡ false ↔ IsBefore now result }
{
    let mut first = None;
    for s in slots {
        first = sooner(first, Some(s.until));
    }
    first
}

impl Friends {
    /// When the first friendship or offer goes, in ticks of 10 ms; None where none stands. Until then time leaves them as they are.
    pub fn first_end(&self) -> Option<u64>
        ensures still { HoldsUntil 0 result (λ now. after self.now (tick now) ≡ self.now) }
    {
        first_until(self.slots.as_slice())
    }
}
