//! That every run of the node is safe: the layers of the node are safe (`layer_laws`), and with safe layers no run reuses a nonce or delivers a
//! message twice (`run_safety`). And that the octets of its events read in one way. There is no code here: each law is the contract of a function
//! that does nothing.
#![tactic(auto)]

ghost use Rattle.event_definitions.specs.Layers.{Layers};
ghost use Rattle.event_definitions.specs.Role.{node_role};
ghost use Rattle.low_power_role.specs.Role.{low_power_role};
ghost use Rattle.node_layers.specs.BuiltLayers.{built_layers};
ghost use Rattle.node_layers.specs.NodeLayers.{node_layers};
ghost use Rattle.node_safety.specs.Laws.{RunsDeliverOnce, RunsReuseNothing};
ghost use Rattle.node_safety.specs.Readings.{IsToldOnce, SeesOnce};

/// No run of a node reuses a nonce or delivers a message twice.
pub fn node_runs_law()
    ensures no_reuse { RunsReuseNothing node_layers }
    ensures at_most_once { RunsDeliverOnce node_layers }
{}

/// Nor does any of one with the layers below the access layer alone.
pub fn built_runs_law()
    ensures no_reuse { RunsReuseNothing built_layers }
    ensures at_most_once { RunsDeliverOnce built_layers }
{}

/// After what stands before it, an event is seen with one insight at most, whatever the layers of the node are (`sees`): octets read in one way.
/// So the entries of a life are told as the same by whoever shows that it is one of a plan, over the records that it opened over (`told`).
pub fn one_reading_law()
    ensures sees { (layers : Layers) → SeesOnce (node_role layers) }
    ensures told { (layers : Layers) → IsToldOnce (node_role layers) }
{}

/// The same of a Low Power node.
pub fn low_power_reading_law()
    ensures sees { SeesOnce low_power_role }
    ensures told { IsToldOnce low_power_role }
{}
