//! A network PDU heard.
#![tactic(auto)]

ghost use Rattle.std.specs.Prelude.{◌≡◌, ℕ, ◌<◌, ◌≤◌, ◌^◌, ◌++◌, ◌∷◌, [], false, List, All};
ghost use Rattle.element_models.specs.Messages.{HasOctet};
ghost use Rattle.friend_steps.specs.Hearing.{AreTakenBy, FriendsStandFor, IsActBy, IsOpenedWell, IsReadWell, IsSomeReading, control_left, message_left, replies_left};
ghost use Rattle.mesh_jobs.specs.Acting.{IsActIn};
ghost use Rattle.mesh_jobs.specs.Replying.{AreRepliesTo};
ghost use Rattle.layer_states.specs.Friends.{is_befriended as is_befriended_in, poll_timeouts};
ghost use Rattle.mesh_base.specs.declared.address.Address.{Address as At};
ghost use Rattle.mesh_hearing.specs.Heard.{insight_of};
ghost use Rattle.mesh_types.specs.declared.events.Event.TheVariants as E;
ghost use Rattle.node_friends.specs.Queues.{IsSendableAct};
ghost use Rattle.node_friends.specs.Steps.{AreFriendsOf, heard_step};
ghost use Rattle.node_models.specs.Models.{is_ticked};
ghost use Rattle.node_models.specs.Replies.{replies_in};
ghost use Rattle.node_records.specs.Tables.{config_in};
ghost use Rattle.event_definitions.specs.History.{Past, Told};

use crate::replying::{ReplyTo, store_replies};
use mesh_hearing::Hearing;
use mesh_jobs::is_before_cache;
use mesh_types::answers::Answer;
use node_friends::{FriendAct, NodeFriends, friends_law};
use node_models::{MessageReplies, Taken, node_models_law};
use node_records::Persist;
use upper_transport::read_control;

/// What the friendships make of a network PDU heard. The answer to a Poll may hold a key, so it can't be printed.
#[derive(Drop)]
pub struct FriendsHeard {
    /// What a control message led to.
    pub act: FriendAct,
    /// The replies to an access message that are left to be sent.
    pub replies: MessageReplies,
}

// A PDU that got past the message cache is stored for the friendships that it is for.
fn hear_pdu(friends: &mut NodeFriends, heard: &Hearing)
    requires read { IsReadWell heard.now }
    ensures state { friends.new ≡ heard_step friends.old (insight_of heard.now) heard.now.answer }
    ensures befriended { (a : At) → is_befriended_in friends.new.slots a ≡ is_befriended_in friends.old.slots a }
    ensures polls { poll_timeouts friends.new.slots ≡ poll_timeouts friends.old.slots }
{
    if is_before_cache(&heard.answer) {
        return;
    }
    if let Some(reading) = heard.pdu.reading() {
        friends.heard(reading);
    }
}

// A control message, and what it leads to.
fn hear_control(friends: &mut NodeFriends, p: &Persist, now: u64, heard: &Hearing) -> FriendAct
    requires time { now ≤ 2 ^ 48 }
    requires read { IsReadWell heard.now }
    ensures state { friends.new
        ≡ control_left friends.old (config_in p.now) now (insight_of heard.now) heard.now.answer }
    ensures act { IsActBy friends.old (config_in p.now) now (insight_of heard.now) heard.now.answer result }
    ensures sendable { IsSendableAct result }
{
    let Some(reading) = heard.pdu.reading() else {
        return FriendAct::Nothing;
    };
    let Answer::Control { opcode, params, .. } = &heard.answer else {
        return FriendAct::Nothing;
    };
    let m = read_control(*opcode, params.as_slice());
    friends.control(p, now, reading, &m)
}

// The replies to a delivered message, of which those that aren't stored are left.
fn hear_replies(
    friends: &mut NodeFriends,
    p: &Persist,
    heard: &Hearing,
    taken: Taken,
) -> MessageReplies
    requires unicast { p.now.unicast.0 < 2 ^ 15 }
    requires opened { IsOpenedWell heard.now }
    requires short { taken.ttl < 2 ^ 7 }
    requires octets { All HasOctet (replies_in taken.replies) }
    ensures state { friends.new
        ≡ message_left friends.old p.now.unicast taken.ttl taken.ends (replies_in taken.replies) (insight_of heard.now)
        heard.now.answer }
    ensures left { replies_in result
        ≡ replies_left friends.old taken.ends (replies_in taken.replies) (insight_of heard.now) heard.now.answer }
{
    let Some(delivered) = heard.delivered() else {
        return taken.replies;
    };
    let to = ReplyTo {
        reading: delivered.reading,
        key: &delivered.opened.key,
        src: delivered.name.src,
        unicast: p.unicast,
        ttl: taken.ttl,
    };
    store_replies(friends, &to, taken.ends, taken.replies)
}

/// What the friendships make of a network PDU heard at this moment of the life, in ticks of 10 ms, at most 2^48. It is stored first, for each
/// Low Power node that it is for; then what a control message asks for is done; or an access message may end the friendships, and its replies
/// that go unsegmented to an address of a friendship are stored. `p` is what the records before the event say, and `taken` is what `take` of
/// `node_models` made of the message; without one there are no replies. The friendships then stand for the entry of the PDU too.
pub fn hear_friends(
    friends: &mut NodeFriends,
    p: &Persist,
    now: u64,
    heard: &Hearing,
    taken: Taken,
) -> FriendsHeard
    requires time { now ≤ 2 ^ 48 }
    requires unicast { p.now.unicast.0 < 2 ^ 15 }
    requires read { IsSomeReading friends.old (insight_of heard.now) }
    requires short { taken.ttl < 2 ^ 7 }
    requires octets { All HasOctet (replies_in taken.replies) }
    ensures act { (past : Past) → FriendsStandFor past p.now friends.old now
        → IsActIn past (config_in p.now) (insight_of heard.now) heard.now.answer result.act }
    ensures sendable { IsSendableAct result.act }
    ensures replies { (past : Past) → FriendsStandFor past p.now friends.old now
        → AreTakenBy past (insight_of heard.now) heard.now.answer taken.ttl taken.ends taken.replies
        → AreRepliesTo past (insight_of heard.now) heard.now.answer result.replies }
    ensures friends { (past : Past) (e : Told) (octets : List ℕ) → FriendsStandFor past p.now friends.old now
        → AreTakenBy past (insight_of heard.now) heard.now.answer taken.ttl taken.ends taken.replies
        → is_ticked heard.now.answer ≡ false
        → e.entry.event ≡ E.Net octets → e.insight ≡ insight_of heard.now → e.entry.answer ≡ heard.now.answer
        → e.records ≡ past.records → AreFriendsOf friends.new (past.told ++ e ∷ []) }
{
    // They do nothing when they run: the proof uses what they say.
    friends_law();
    node_models_law();
    hear_pdu(friends, heard);
    let act = hear_control(friends, p, now, heard);
    let replies = hear_replies(friends, p, heard, taken);
    FriendsHeard { act, replies }
}
