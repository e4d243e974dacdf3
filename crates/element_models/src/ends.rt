//! When the first change of a model's state ends.
#![tactic(auto)]

ghost use Rattle.std.specs.Prelude.{ℕ, ◌≤◌, ◌^◌, ◌↔◌, All};
ghost use Rattle.element_models.specs.Ends.{AreAsFar, StayAsFar};
ghost use Rattle.element_models.specs.Models.{AreModelsOf};
ghost use Rattle.event_definitions.specs.History.{Past};
ghost use Rattle.timer_ends.specs.Ends.{HoldsUntil, IsBefore};

use crate::models::ElementModels;
use crate::servers::Servers;
use timer_ends::sooner;

// When the first change ends of an element's servers, as seen from a moment.
fn servers_end(s: &Servers, now: u64) -> Option<u64>
    ensures { HoldsUntil now result (λ later. AreAsFar now later s.now) }
{
    sooner(s.onoff.change_end(now), s.level.change_end(now))
}

// When the first change ends of these.
fn first_of(servers: &[Servers], now: u64) -> Option<u64>
    ensures { HoldsUntil now result (λ later. All (AreAsFar now later) servers.now) }
{
    let mut first = None;
    for s in servers {
        first = sooner(first, servers_end(s, now));
    }
    first
}

impl ElementModels {
    /// When the delay or the transition of a state's last change ends, in ticks of 10 ms, as seen from this moment: the first of all servers.
    /// None where all changes are over. Until then each is as far as it is now.
    pub fn first_end(&self, now: u64) -> Option<u64>
        ensures still { (past : Past) → AreModelsOf self.now past → HoldsUntil now result (StayAsFar past now) }
    {
        first_of(self.servers.as_slice(), now)
    }
}
