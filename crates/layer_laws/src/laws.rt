//! What the layers of a node have: safety, and that what they store and send is fit.
#![tactic(auto)]

ghost use Rattle.layer_laws.specs.Laws.{BuiltIsFit, BuiltIsSafe, NodeIsFit, NodeIsSafe, StoreFitting};
ghost use Rattle.node_layers.specs.NodeLayers.{node_layers};

/// The law of the layers below the access layer: they are safe, and what they send comes from an element.
pub fn built_law()
    ensures safe { BuiltIsSafe }
    ensures fit { BuiltIsFit }
{}

/// The law of all layers of the node: they are safe; what they store for a message is in range, within the limits of the store, and keeps the
/// node whole, also where its records are known by what they say alone (`storable`); and what they send comes from an element.
pub fn node_law()
    ensures safe { NodeIsSafe }
    ensures fit { NodeIsFit }
    ensures storable { StoreFitting node_layers }
{}
