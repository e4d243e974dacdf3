//! What leaves the models of a node as they are.
#![tactic(auto)]

ghost use Rattle.node_models.specs.Models.{GoOn, KeepsAddress, StandRefilled, StayWithin};

use element_models::models_law;
use node_layers::laws::step_law;

/// The law of the models, for proofs: it does nothing. An entry that delivers no message and tells of no time leaves them (`more`), and so do
/// refills (`refill`). A value with the same elements has them within its bounds too (`within`). No message tells the node another address
/// (`unicast`).
pub fn node_models_law()
    ensures more { GoOn }
    ensures refill { StandRefilled }
    ensures within { StayWithin }
    ensures unicast { KeepsAddress }
{
    models_law();
    step_law();
}
