//! Entries in which friendships have no part.
#![tactic(auto)]

ghost use Rattle.std.specs.Prelude.{◌≡◌, ◌<◌, ◌^◌, []};
ghost use Rattle.friend_steps.specs.Others.{LeaveFriends};
ghost use Rattle.node_friends.specs.Steps.{AreFriendsOf};
ghost use Rattle.node_layers.specs.Friendship.{no_friends};
ghost use Rattle.node_records.specs.Meaning.{IsSaid};
ghost use Rattle.node_records.specs.declared.persist.Persist.{Persist};

use node_friends::friends_law;

/// The law of the steps of friendships, for proofs: it does nothing. A life begins without any (`begin`), and an entry leaves them where no
/// octets were read as a network PDU, no message was planned, no octets were kept and no time was told (`others`). The Default TTL that a
/// store's value says has 7 bits (`ttl`).
pub fn friend_steps_law()
    ensures begin { AreFriendsOf no_friends [] }
    ensures others { LeaveFriends }
    ensures ttl { (p : Persist) → IsSaid p → p.ttl < 2 ^ 7 }
{
    friends_law();
}
