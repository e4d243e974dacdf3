//! What follows from the definitions of both sides.
#![tactic(auto)]

ghost use Rattle.friendship_laws.specs.Exchange.{AnswersAreTaken, BeginAsFriends, EachOnce, NamesAreKept, StayFriends};

/// The law of a friendship, for proofs: it does nothing. Whichever Polls and answers get lost, the messages that the Low Power node
/// takes, with those that still wait at the Friend node, are those that came, each once and in their order, as long as none comes while
/// the queue is full. An answer that is heard is taken, unless its name is that of the PDU that closed the Poll before. An answer that
/// carries a PDU of another node has its name, also where it is repeated. All of this holds from the Offer on.
pub fn exchange_law()
    ensures begin { BeginAsFriends }
    ensures stay { StayFriends }
    ensures once { EachOnce }
    ensures taken { AnswersAreTaken }
    ensures names { NamesAreKept }
{}
