//! What follows from the definitions alone.
#![tactic(auto)]

ghost use Rattle.layer_states.specs.Cache.{LastMore};
ghost use Rattle.layer_states.specs.Calls.{FriendsGoOn, ReassemblyGoesOn, SendingGoesOn};

/// The law of the message cache, for proofs: it does nothing. The last names of a life are the last of those that were
/// kept with those heard since.
pub fn cache_law()
    ensures more { LastMore }
{}

/// The law of calls, for proofs: it does nothing. A table whose view is the state after a list of calls shows, after one
/// more call, the state after the list with this call.
pub fn calls_law()
    ensures reassembly { ReassemblyGoesOn }
    ensures sending { SendingGoesOn }
    ensures friends { FriendsGoOn }
{}
