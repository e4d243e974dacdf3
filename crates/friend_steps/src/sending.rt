//! Messages that the node is asked to send, and octets that answered a Poll.
#![tactic(auto)]

ghost use Rattle.std.specs.Prelude.{◌≡◌, ◌++◌, ◌∷◌, [], false, if◌then◌else◌, fold};
ghost use Rattle.app_keys.specs.AppRows.{AppRows};
ghost use Rattle.friend_steps.specs.Sending.{IsSend};
ghost use Rattle.layer_states.specs.Friends.{after};
ghost use Rattle.mesh_jobs.specs.Own.{IsBefriended};
ghost use Rattle.mesh_types.specs.declared.answers.Answer.TheVariants as A;
ghost use Rattle.mesh_types.specs.declared.events.Event.TheVariants as E;
ghost use Rattle.node_friends.specs.Steps.{AreFriendsOf};
ghost use Rattle.node_layers.specs.Friendship.{is_to_be_kept, send_calls};
ghost use Rattle.node_layers.specs.NodeLayers.{node_layers};
ghost use Rattle.node_models.specs.Models.{is_ticked};
ghost use Rattle.node_records.specs.Meaning.{IsMeaningOf};
ghost use Rattle.node_records.specs.Tables.{config_in};
ghost use Rattle.event_definitions.specs.History.{OfNothing, Past, Told};

use crate::short::short_payload;
use app_keys::AppKeys;
use mesh_base::address::Address;
use mesh_base::octets::Octets;
use mesh_base::pair::Name;
use mesh_jobs::{AskedMessage, send_keys};
use mesh_types::answers::Answer;
use mesh_types::events::Event;
use node_friends::{NodeFriends, OwnShort, friends_law};
use node_records::Persist;

// An access message goes into the queues of the friendships that it is for, if it goes unsegmented and there is a key for it.
fn send_short(
    friends: &mut NodeFriends,
    p: &Persist,
    apps: &AppKeys,
    m: &AskedMessage<'_>,
    payload: &Octets<380>,
)
    requires apps { apps.now ≡ record { apps = p.now.apps; nets = p.now.nets } }
    requires send { IsSend (config_in p.now) (E.Send m.now.element m.now.dst m.now.ttl m.now.key.now payload.now) }
    ensures state { friends.new
        ≡ fold after friends.old
        (send_calls (config_in p.now) (E.Send m.now.element m.now.dst m.now.ttl m.now.key.now payload.now)) }
{
    let Some((net, key)) = send_keys(p, apps, m.key) else {
        return;
    };
    let Some(payload) = short_payload(payload.as_slice()) else {
        return;
    };
    friends.send(&OwnShort {
        net,
        key,
        ttl: m.ttl,
        src: p.element_address(m.element),
        dst: m.dst,
        payload,
    });
}

/// A message that the node is asked to send, where it was answered so: where that is `planned`, it is stored for the Low Power nodes that it is
/// for, if it goes unsegmented. True where DST is an address of a friendship that stands. `p` is what the records before the event say, and
/// `apps` are its keys. The friendships then stand for the entry of the event too.
pub fn store_send(
    friends: &mut NodeFriends,
    p: &Persist,
    apps: &AppKeys,
    event: &Event,
    answer: &Answer,
) -> bool
    requires apps { apps.now ≡ record { apps = p.now.apps; nets = p.now.nets } }
    requires send { IsSend (config_in p.now) event.now }
    ensures befriended { (past : Past) → AreFriendsOf friends.old past.told
        → IsBefriended node_layers past event.now result }
    ensures friends { (past : Past) (e : Told) → IsMeaningOf past.records p.now → AreFriendsOf friends.old past.told
        → is_ticked answer.now ≡ false
        → e.entry.event ≡ event.now → e.insight ≡ OfNothing → e.entry.answer ≡ answer.now
        → e.records ≡ past.records → AreFriendsOf friends.new (past.told ++ e ∷ []) }
{
    // It does nothing when it runs: the proof uses what it says.
    friends_law();
    let Event::Send {
        element,
        dst,
        ttl,
        key,
        payload,
    } = event
    else {
        return false;
    };
    let befriended = friends.is_befriended(*dst);
    if let Answer::Planned = answer {
        let message = AskedMessage {
            element: *element,
            dst: *dst,
            ttl: *ttl,
            key,
        };
        send_short(friends, p, apps, &message, payload);
    }
    befriended
}

/// The answer to octets that answered the Poll of a Low Power node with this FSN: `kept` where they are noted, and else `dropped`; `name` is
/// their SRC, IV Index and SEQ. The friendships then stand for the entry of the event too.
pub fn keep_octets(
    friends: &mut NodeFriends,
    lpn: Address,
    fsn: bool,
    name: &Name,
    pdu: &Octets<29>,
) -> Answer
    ensures value { (past : Past) → AreFriendsOf friends.old past.told
        → result ≡ (if is_to_be_kept past lpn fsn then A.Kept else A.Dropped) }
    ensures friends { (past : Past) (e : Told) → AreFriendsOf friends.old past.told
        → e.entry.event ≡ E.Kept lpn fsn name.now pdu.now → e.insight ≡ OfNothing → e.entry.answer ≡ result
        → AreFriendsOf friends.new (past.told ++ e ∷ []) }
{
    // It does nothing when it runs: the proof uses what it says.
    friends_law();
    if friends.kept(lpn, fsn, name, pdu) {
        Answer::Kept
    } else {
        Answer::Dropped
    }
}
