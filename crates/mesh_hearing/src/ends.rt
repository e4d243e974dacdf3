//! When the first timer of the messages ends.
#![tactic(auto)]

ghost use Rattle.std.specs.Prelude.{◌≡◌};
ghost use Rattle.layer_states.specs.Reassembly.{after, tick};
ghost use Rattle.layer_states.specs.Sending as sending;
ghost use Rattle.timer_ends.specs.Ends.{HoldsUntil};

use crate::tables::Tables;
use timer_ends::sooner;

impl Tables {
    /// When the first timer of a message ends, in ticks of 10 ms: of one in progress its acknowledgment is due, or it isn't in progress any
    /// more; of an own one a round is due, or it goes. None where no message is held. Until then time leaves the messages as they are.
    pub fn first_end(&self) -> Option<u64>
        ensures still { HoldsUntil 0 result (λ now.
            (after self.now.parts (tick now) ≡ self.now.parts)
            × (sending.after self.now.own (sending.due now) ≡ self.now.own)) }
    {
        sooner(self.parts.first_end(), self.own.first_end())
    }
}
