//! When something of the models is due.
#![tactic(auto)]

ghost use Rattle.std.specs.Prelude.{ℕ};
ghost use Rattle.event_definitions.specs.History.{Past};
ghost use Rattle.node_models.specs.Ends.{AreModelsQuiet};
ghost use Rattle.node_models.specs.Models.{AreNodeModelsOf};
ghost use Rattle.timer_ends.specs.Ends.{HoldsUntil};

use crate::models::NodeModels;
use timer_ends::sooner;

impl NodeModels {
    /// When the next publication or the heartbeat is due, or the delay or the transition of a state's last change ends, in ticks of 10 ms, as
    /// seen from this moment; None where none of these comes. Before that nothing of the models is due.
    pub fn first_end(&self, now: u64) -> Option<u64>
        ensures still { (past : Past) → AreNodeModelsOf self.now past
            → HoldsUntil now result (AreModelsQuiet past now) }
    {
        sooner(self.publisher.first_end(), self.servers.first_end(now))
    }
}
