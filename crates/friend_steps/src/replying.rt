//! The replies to a message, which are stored where they go unsegmented to an address of a friendship.
#![tactic(auto)]

ghost use Rattle.std.specs.Prelude.{◌≡◌, ◌+◌, ◌<◌, ◌≤◌, ◌^◌, ◌++◌, ◌∷◌, true, [], List, All, IfSome, length, map};
ghost use Rattle.std.specs.Option.{option_to_list};
ghost use Rattle.app_keys.specs.AppRows.{HasAidWidth};
ghost use Rattle.element_models.specs.Messages.{HasOctet, reply_in};
ghost use Rattle.mesh_jobs.specs.Replying.{replies_sent};
ghost use Rattle.friend_steps.specs.Replying.{ended, replied_left, reply_short};
ghost use Rattle.layer_states.specs.Friends.{FriendsState, is_befriended};
ghost use Rattle.layer_states.specs.declared.friends.OwnShort.{OwnShort as Short};
ghost use Rattle.mesh_jobs.specs.Replying.{heard_as};
ghost use Rattle.node_friends.specs.Queues.{IsSendable};
ghost use Rattle.node_friends.specs.Steps.{after_sent};
ghost use Rattle.node_models.specs.Replies.{from_first, replies_in};

use crate::short::short_payload;
use mesh_base::address::Address;
use mesh_base::keys::UpperKey;
use mesh_base::octets::Octets;
use network_layer::NetReading;
use node_friends::{NodeFriends, OwnShort};
use node_models::{MessageReplies, Replies, Reply};

/// To whom replies go, and with what: the message as it was heard.
#[derive(Drop)]
pub(crate) struct ReplyTo<'a> {
    /// How it was heard.
    pub reading: &'a NetReading,
    /// The key that opened it.
    pub key: &'a UpperKey,
    /// SRC of the message.
    pub src: Address,
    /// The address of this node's first element.
    pub unicast: Address,
    /// The Default TTL behind the message.
    pub ttl: u8,
}

// A reply of the element at this place.
fn short_reply(to: &ReplyTo<'_>, element: u8, payload: Octets<11>) -> OwnShort
    requires unicast { to.now.unicast.0 < 2 ^ 15 }
    requires short { to.now.ttl < 2 ^ 7 }
    requires key { HasAidWidth to.now.key.now }
    requires octet { 1 ≤ length payload }
    ensures value { result
        ≡ reply_short to.now.unicast to.now.ttl (heard_as to.now.reading.now to.now.key.now to.now.src) (element, payload) }
    ensures sendable { IsSendable result }
{
    OwnShort {
        net: to.reading.by.index,
        key: *to.key,
        ttl: if to.reading.fields.ttl == 0 {
            0
        } else {
            to.ttl
        },
        src: Address(to.unicast.0 + u16::from(element)),
        dst: to.src,
        payload,
    }
}

// The reply of the Configuration Server, if there is one, is stored where it goes unsegmented; else it is left.
fn store_first(
    friends: &mut NodeFriends,
    to: &ReplyTo<'_>,
    configuration: Option<Octets<48>>,
) -> Option<Octets<48>>
    requires unicast { to.now.unicast.0 < 2 ^ 15 }
    requires short { to.now.ttl < 2 ^ 7 }
    requires key { HasAidWidth to.now.key.now }
    requires octet { IfSome configuration (λ first. 1 ≤ length first) }
    ensures state { friends.new
        ≡ after_sent friends.old
        (map (reply_short to.now.unicast to.now.ttl (heard_as to.now.reading.now to.now.key.now to.now.src))
        (map from_first (option_to_list configuration))) }
    ensures left { map from_first (option_to_list result) ≡ replies_sent true (map from_first (option_to_list configuration)) }
{
    let first = configuration?;
    let Some(payload) = short_payload(first.as_slice()) else {
        return Some(first);
    };
    friends.send(&short_reply(to, 0, payload));
    None
}

// A reply of a model is stored: it goes unsegmented.
fn store_reply(friends: &mut NodeFriends, to: &ReplyTo<'_>, reply: &Reply)
    requires unicast { to.now.unicast.0 < 2 ^ 15 }
    requires short { to.now.ttl < 2 ^ 7 }
    requires key { HasAidWidth to.now.key.now }
    requires octet { 1 ≤ length reply.now.payload }
    ensures state { friends.new
        ≡ after_sent friends.old
        (reply_short to.now.unicast to.now.ttl (heard_as to.now.reading.now to.now.key.now to.now.src)
        (reply_in reply.now)
        ∷ []) }
    ensures left { replies_sent true (reply_in reply.now ∷ []) ≡ [] }
{
    // The proof uses that it has at most 11 octets.
    let _payload = reply.payload.as_slice();
    friends.send(&short_reply(to, reply.element, reply.payload.copied()));
}

// The replies of the models are stored, and none is left.
fn store_models(friends: &mut NodeFriends, to: &ReplyTo<'_>, models: &Replies)
    requires unicast { to.now.unicast.0 < 2 ^ 15 }
    requires short { to.now.ttl < 2 ^ 7 }
    requires key { HasAidWidth to.now.key.now }
    requires octets { All HasOctet (map reply_in models.now) }
    ensures state { (st : FriendsState) (sent : List Short) → friends.old ≡ after_sent st sent
        → friends.new
        ≡ after_sent st
        (sent
        ++ map (reply_short to.now.unicast to.now.ttl (heard_as to.now.reading.now to.now.key.now to.now.src))
        (map reply_in models.now)) }
    ensures left { replies_sent true (map reply_in models.now) ≡ [] }
{
    for reply in models.as_slice() {
        store_reply(friends, to, reply);
    }
}

// The friendships end, if a message ends them.
fn end_if(friends: &mut NodeFriends, ends: bool)
    ensures state { friends.new ≡ ended ends friends.old }
{
    if ends {
        friends.end();
    }
}

/// What the replies to a message leave: where it ends the friendships, they end; then each reply that goes unsegmented to an address of a
/// friendship is stored. The others are left to be sent. Each reply has an octet.
pub(crate) fn store_replies(
    friends: &mut NodeFriends,
    to: &ReplyTo<'_>,
    ends: bool,
    replies: MessageReplies,
) -> MessageReplies
    requires unicast { to.now.unicast.0 < 2 ^ 15 }
    requires short { to.now.ttl < 2 ^ 7 }
    requires key { HasAidWidth to.now.key.now }
    requires octets { All HasOctet (replies_in replies) }
    ensures state { friends.new
        ≡ replied_left friends.old to.now.unicast to.now.ttl ends
        (heard_as to.now.reading.now to.now.key.now to.now.src) (replies_in replies) }
    ensures left { replies_in result
        ≡ replies_sent (is_befriended (ended ends friends.old).slots to.now.src) (replies_in replies) }
{
    end_if(friends, ends);
    if !friends.is_befriended(to.src) {
        return replies;
    }
    let configuration = store_first(friends, to, replies.configuration);
    store_models(friends, to, &replies.models);
    MessageReplies {
        configuration,
        models: Replies::new(),
    }
}
