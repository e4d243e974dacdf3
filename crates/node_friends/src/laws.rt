//! What the friendships of a node stand for.
#![tactic(auto)]

ghost use Rattle.node_friends.specs.Acts.{IsActStill};
ghost use Rattle.node_friends.specs.Steps.{BeginWith, GoOn, SentInTurn, Stay};

/// The law of friendships, for proofs: it does nothing. A life begins without any, and an entry more is the calls that `GoOn` names, in its
/// order: `heard` for a PDU that got past the message cache; then by the answer `control`, `end` and `send` for each reply, `send`, `kept`, or
/// `tick` and `send` for each publication. Any other entry leaves them. Messages that are sent one by one are sent in turn, and an act stays
/// that of its message where the event changes neither the network keys nor whether Friend is on.
pub fn friends_law()
    ensures begin { BeginWith }
    ensures more { GoOn }
    ensures others { Stay }
    ensures sent { SentInTurn }
    ensures act { IsActStill }
{}
