//! What leaves the servers of a life as they are.
#![tactic(auto)]

ghost use Rattle.element_models.specs.Models.{AreFew, GoOn, KeepElements, StandOver, StandRefilled, StandWith};

/// The law of the models, for proofs: it does nothing. An entry that delivers no message leaves them (`more`). So do other records that say the
/// same of them (`over`), records behind those before that tell neither what the node is nor the value of a model (`with_items`), and refills
/// (`refill`). Only an Identity changes how many elements there are (`elements`), and a store's value has at most 4 (`few`).
pub fn models_law()
    ensures more { GoOn }
    ensures over { StandOver }
    ensures with_items { StandWith }
    ensures refill { StandRefilled }
    ensures elements { KeepElements }
    ensures few { AreFew }
{}
