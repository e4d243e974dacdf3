//! Laws about the definitions. Each is the contract of a function that does nothing.
#![tactic(auto)]

ghost use Rattle.run_safety.specs.Rules.{DeliversOnceByEnough, IsRunByEnough, ReusesNoNonceByEnough};
ghost use Rattle.run_safety.specs.Safety.{DeliversOnce, DrawsApart, LivesKeep, NodesAreSafe, ReusesNoNonce};

/// The law of every run: for all layers with the properties that `AreSafe` names, every script, and every record of a
/// run of it, over all lives, bearers, refills and power cuts, no nonce of the node's own addresses seals two
/// different plaintexts under one key, and no message is delivered twice.
pub fn safety_law()
    ensures no_reuse { ReusesNoNonce }
    ensures at_most_once { DeliversOnce }
    ensures nodes { NodesAreSafe }
{}

/// All pairs that the lines of a run draw, over all its lives, are different.
pub fn drawn_pairs_law()
    ensures apart { DrawsApart }
{}

/// From each life to the next neither the mark nor the known IV Index falls, and the node keeps its elements.
pub fn lives_law()
    ensures keeps { LivesKeep }
{}

/// Some rules are enough: by them alone no nonce of the node's own addresses seals two different plaintexts under one
/// key, and no message is delivered twice. They ask nothing of what a run begins with, how a life opens, how its entries
/// are numbered, in which order a bearer draws its pairs, and when no number is left; of a life that isn't run only that
/// it writes no line; of ranges only those of the known IV Index and of the mark; of what the next life opens over only
/// the elements, the IV state, the mark and the replay list; and of what outlasts a cut only that an event stores it by
/// its answer, or that it is a refill. Each run keeps these rules.
pub fn rules_are_enough()
    ensures no_reuse { ReusesNoNonceByEnough }
    ensures at_most_once { DeliversOnceByEnough }
    ensures by_enough { IsRunByEnough }
{}
