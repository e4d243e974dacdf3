//! A life as one of its plan.
#![tactic(auto)]

ghost use Rattle.event_definitions.specs.Layers.{Layers};
ghost use Rattle.event_definitions.specs.Role.{node_role};
ghost use Rattle.life_laws.specs.Living.{CutLife, ResetLife, RunLife};

use machine_contract::Machine;

/// When a life of a machine's role is one of its plan that opened over the one list of records and leaves the other: one that was run, one
/// that wasn't since there was a Node Reset, and one that was cut while it opened.
pub fn life_law<M: Machine>()
    ensures run { RunLife M.role }
    ensures reset { ResetLife M.role }
    ensures cut { CutLife M.role }
{}

/// The same of a node with any layers above the lower transport layer, whatever machine it has.
pub fn layers_life_law()
    ensures run { (layers : Layers) → RunLife (node_role layers) }
    ensures reset { (layers : Layers) → ResetLife (node_role layers) }
    ensures cut { (layers : Layers) → CutLife (node_role layers) }
{}
