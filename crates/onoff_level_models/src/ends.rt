//! When a delay or a transition ends.
#![tactic(auto)]

ghost use Rattle.std.specs.Prelude.{◌-◌};
ghost use Rattle.onoff_level_models.specs.Ends.{IsAsFar};
ghost use Rattle.timer_ends.specs.Ends.{HoldsUntil};

use crate::level::Level;
use crate::onoff::OnOff;
use crate::timing::{elapsed, is_delayed, is_over, whole};
use model_states::models::Timing;
use timer_ends::end_after;

// When the delay ends of a change that was taken at a moment, or else the transition; None where both are over at the moment `now`.
fn change_end(t: &Timing, taken: u64, now: u64) -> Option<u64>
    ensures { HoldsUntil now result (λ later. IsAsFar t.now (now - taken) (later - taken)) }
{
    let elapsed = elapsed(taken, now);
    if is_delayed(t, elapsed) {
        return Some(end_after(taken, u64::from(t.delay)));
    }
    if is_over(t, elapsed) {
        return None;
    }
    Some(end_after(taken, whole(t)))
}

impl OnOff {
    /// When the delay of the last change ends, or else its transition, in ticks of 10 ms, as seen from this moment; None where both are over.
    /// Until then the change is as far as it is now.
    pub fn change_end(&self, now: u64) -> Option<u64>
        ensures still { HoldsUntil now result
            (λ later. IsAsFar self.now.timing (now - self.now.taken) (later - self.now.taken)) }
    {
        change_end(&self.state.timing, self.state.taken, now)
    }
}

impl Level {
    /// When the delay of the last change ends, or else its transition, in ticks of 10 ms, as seen from this moment; None where both are over.
    /// Of a Move it is the first time of the transition. Until then the change is as far as it is now.
    pub fn change_end(&self, now: u64) -> Option<u64>
        ensures still { HoldsUntil now result
            (λ later. IsAsFar self.now.timing (now - self.now.taken) (later - self.now.taken)) }
    {
        change_end(&self.state.timing, self.state.taken, now)
    }
}
