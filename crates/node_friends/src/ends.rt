//! When the first of the friendships and offers goes.
#![tactic(auto)]

ghost use Rattle.std.specs.Prelude.{◌≡◌};
ghost use Rattle.layer_states.specs.Friends.{after, tick};
ghost use Rattle.timer_ends.specs.Ends.{HoldsUntil};

use crate::friends::NodeFriends;

impl NodeFriends {
    /// When the first friendship or offer goes, in ticks of 10 ms; None where none stands. Until then time leaves them as they are.
    pub fn first_end(&self) -> Option<u64>
        ensures still { HoldsUntil 0 result (λ now. after self.now (tick now) ≡ self.now) }
    {
        self.friends.first_end()
    }
}
