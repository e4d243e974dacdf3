//! What follows from the definitions alone.
#![tactic(auto)]

ghost use Rattle.low_power_definitions.specs.Calls.{CountsLists, CountsSeeks, FriendIsFirst, ListFits, LpnGoesOn, NoneUnsought, PreviousIsLast};
ghost use Rattle.low_power_definitions.specs.Friend.{CredentialsAgree, RequestFits};
ghost use Rattle.low_power_definitions.specs.Polls.{AnswersAreAsked, ClosesOnce, FsnCountsAnswers};

/// The law of calls, for proofs: it does nothing. A table whose view is the state after a list of calls shows, after one more call, the
/// state after the list with this call. LPNCounter counts Friend Requests, and TransactionNumber list messages; the friend is who sent
/// the first Offer since the last Request, and the previous friend is the last one; the list has a place for 16 addresses.
pub fn lpn_calls_law()
    ensures goes_on { LpnGoesOn }
    ensures seeks { CountsSeeks }
    ensures lists { CountsLists }
    ensures first { FriendIsFirst }
    ensures none { NoneUnsought }
    ensures previous { PreviousIsLast }
    ensures list { ListFits }
{}

/// The law of Polls, for proofs: it does nothing. Two Polls of one friendship have the same FSN exactly where an even number of Polls was
/// closed between them. Each Poll lets one PDU in at most, and a PDU that closed one doesn't pass again before another one does.
pub fn polls_law()
    ensures fsn { FsnCountsAnswers }
    ensures asked { AnswersAreAsked }
    ensures once { ClosesOnce }
{}

/// The law of both sides, for proofs: it does nothing. A Friend node finds the Request in its ranges, and both sides have the same
/// credentials.
pub fn friend_law()
    ensures request { RequestFits }
    ensures credentials { CredentialsAgree }
{}
