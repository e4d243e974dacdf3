//! The steps of the world (`mesh_world`) that an event of the node takes: its records are put one after another, each is
//! a step where it stands or leaves the world as it was, and then the message that the event accepted is delivered. What
//! a message changes beside its name is no part of the world.
//!
//! The crate has definitions (in `specs/`) and a law about them: the function below does nothing, and its contract is the law. The machine
//! says its steps in these words.
#![tactic(auto)]

ghost use Rattle.std.specs.Prelude.{◌≡◌, List, ◌++◌, All};
ghost use Rattle.event_records.specs.Putting.{AreMoves};
ghost use Rattle.event_world.specs.Stepping.{event_steps};
ghost use Rattle.mesh_types.specs.declared.answers.Answer.{Answer};
ghost use Rattle.mesh_types.specs.declared.events.Event.{Event};
ghost use Rattle.mesh_world.specs.World.{World};
ghost use Rattle.node_layers.specs.NodeLayers.{node_layers};
ghost use Rattle.node_records.specs.Meaning.{IsMeaningOf};
ghost use Rattle.node_records.specs.Tables.{config_in};
ghost use Rattle.node_records.specs.declared.persist.Persist.{Persist};
ghost use Rattle.event_definitions.specs.Answers.{answer_of};
ghost use Rattle.event_definitions.specs.History.{Insight, Past};
ghost use Rattle.event_definitions.specs.Readings.{Sees};
ghost use Rattle.event_definitions.specs.Stores.{stores};
ghost use Rattle.store_definitions.specs.Ranges.{IsInRange};
ghost use Rattle.store_world.specs.Standing.{GoesBy, IsWorldOf};

use layer_laws::laws::node_law;

/// From a world of a store that says the records of a past, and whose mark is published, an event that was read and answered by the
/// definitions goes by its steps to a world of the store that says these records with those of the event behind them; its mark is published
/// then. Each Numbers record among them is a move to an IV state that may follow, as the plans of `event_plans` have them.
pub fn event_law()
    ensures steps { (w : World) (past : Past) (p q : Persist) (event : Event) (insight : Insight) (answer : Answer)
        → IsWorldOf w p p.mark → IsMeaningOf past.records p → All IsInRange past.records
        → Sees node_layers past event insight → answer ≡ answer_of node_layers past event insight
        → AreMoves (config_in p) (stores node_layers past event insight answer)
        → IsMeaningOf (past.records ++ stores node_layers past event insight answer) q
        → GoesBy (event_steps (config_in p) (stores node_layers past event insight answer) answer) w q q.mark }
{
    // It does nothing when it runs: the proof uses what it says.
    node_law();
}
