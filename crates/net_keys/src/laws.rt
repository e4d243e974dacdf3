//! Why the candidates suffice.
#![tactic(auto)]

ghost use Rattle.net_keys.specs.Laws.{CandidatesRead, OthersDoNotRead};

/// The law of candidates, for proofs: it does nothing. What octets read as under the keys that have their NID, they read as under all
/// keys, by the same key; what is unread under those is unread under all. The keys are those of network keys, and behind them any others,
/// as those of friendships.
pub fn candidates_law()
    ensures read { CandidatesRead }
    ensures unread { OthersDoNotRead }
{}
