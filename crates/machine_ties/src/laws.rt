//! The laws by which a node stays one.
#![tactic(auto)]

ghost use Rattle.machine_ties.specs.Kept.{AreKeeping};

use layer_laws::laws::node_law as layers_law;
use node_models::node_models_law;
use store_definitions::node::node_law;

/// The laws by which a node stays one, for proofs: it does nothing. A record that keeps a node whole leaves it whole;
/// what the layers store for a message are changes that do; and refills leave the models.
pub fn ties_law()
    ensures laws { AreKeeping }
{
    // They do nothing when they run: the proof uses what they say.
    node_law();
    layers_law();
    node_models_law();
}
