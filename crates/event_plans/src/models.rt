//! What the models make of an answer: of a message that it delivered, and of time that it tells of, with what is then left
//! to be sent.
#![tactic(auto)]

ghost use Rattle.std.specs.Prelude.{◌≡◌, ◌≤◌, ◌<◌, ◌^◌, List, [], ◌∷◌, ◌++◌, false, if◌then◌else◌, All};
ghost use Rattle.std.specs.Option.{option_map};
ghost use Rattle.app_keys.specs.AppRows.{AppRows};
ghost use Rattle.element_models.specs.Messages.{HasOctet, message_in};
ghost use Rattle.event_plans.specs.Delivered.{StandsFor};
ghost use Rattle.event_records.specs.Asked.{AreAskedFor};
ghost use Rattle.event_records.specs.Putting.{AreMoves, ArePuttable};
ghost use Rattle.friend_steps.specs.Hearing.{AreTakenBy};
ghost use Rattle.layer_states.specs.Friends.{poll_timeouts};
ghost use Rattle.mesh_hearing.specs.Heard.{delivered_from, insight_of, message_delivered};
ghost use Rattle.mesh_jobs.specs.Publishing.{IsDueSent};
ghost use Rattle.mesh_types.specs.declared.answers.Answer.TheVariants as A;
ghost use Rattle.node_friends.specs.Steps.{AreFriendsOf};
ghost use Rattle.node_layers.specs.Friendship.{friends};
ghost use Rattle.node_layers.specs.NodeLayers.{node_layers};
ghost use Rattle.node_layers.specs.Steps.{with_entry};
ghost use Rattle.node_models.specs.Models.{AreNodeModelsOf, AreWithin, is_ticked};
ghost use Rattle.node_models.specs.Replies.{replies_in};
ghost use Rattle.node_records.specs.Meaning.{IsMeaningOf, IsSaid};
ghost use Rattle.node_records.specs.Tables.{config_in};
ghost use Rattle.node_records.specs.declared.persist.Persist.{Persist as PersistValue};
ghost use Rattle.record_types.specs.declared.records.StoreRecord.{StoreRecord};
ghost use Rattle.event_definitions.specs.Answers.{config_before};
ghost use Rattle.event_definitions.specs.History.{OfNothing, Past, Told, now_of};
ghost use Rattle.store_definitions.specs.Config.{Config, config_of};
ghost use Rattle.store_definitions.specs.Node.{IsWhole};

use crate::bounds::{are_octets, are_within};
use app_keys::AppKeys;
use event_records::{Changes, changes_law};
use friend_steps::{friend_steps_law, store_publications};
use layer_laws::laws::node_law;
use mesh_base::address::Address;
use mesh_hearing::{Delivered, Hearing};
use mesh_types::answers::Answer;
use node_friends::NodeFriends;
use node_models::{Due, Message, MessageReplies, NodeModels, Taken, node_models_law};
use node_records::Persist;

// A message that was delivered, as the models take it.
fn message_of<'a>(d: &Delivered<'a>) -> Message<'a>
    ensures value { message_in result ≡ message_delivered d.now }
{
    Message {
        name: d.name,
        dst: d.dst,
        net: d.reading.by.index,
        ttl: d.reading.fields.ttl,
        key: d.opened.key,
        label: d.opened.label,
        payload: d.opened.payload.as_slice(),
    }
}

/// What the message that a network PDU delivered stores, and what is replied to it; without such a message there is
/// nothing. It is taken at this moment of the life, in ticks of 10 ms, at most 2^48, with these PollTimeouts of the
/// friendships. The models then stand for the entry of the PDU too.
pub(crate) fn take_heard(
    models: &mut NodeModels,
    p: &Persist,
    now: u64,
    polls: &[(Address, u32)],
    heard: &Hearing,
) -> Taken
    requires within { AreWithin models.old p.now }
    requires time { now ≤ 2 ^ 48 }
    ensures asked { (past : Past) → StandsFor past p.now models.old now
        → AreAskedFor node_layers past (insight_of heard.now) heard.now.answer result.changes }
    ensures taken { (past : Past) → StandsFor past p.now models.old now
        → polls.now ≡ poll_timeouts (friends past).slots
        → AreTakenBy past (insight_of heard.now) heard.now.answer result.ttl result.ends result.replies }
    ensures short { p.now.ttl < 2 ^ 7 → result.ttl < 2 ^ 7 }
    ensures octets { All HasOctet (replies_in result.replies) }
    ensures may { (past : Past) (q : PersistValue) → StandsFor past p.now models.old now
        → IsWhole (config_before past) → config_in q ≡ config_in p.now → ArePuttable q result.changes }
    ensures moves { (past : Past) → StandsFor past p.now models.old now
        → AreMoves (config_in p.now) result.changes }
    ensures models { (past : Past) (t : Told) (records : List StoreRecord) → StandsFor past p.now models.old now
        → is_ticked heard.now.answer ≡ false → t.insight ≡ insight_of heard.now
        → t.entry.answer ≡ heard.now.answer → t.records ≡ past.records
        → (config_of records).elements ≡ (config_before past).elements
        → AreNodeModelsOf models.new (with_entry past.told t records) }
    ensures within { AreWithin models.new p.now }
{
    // They do nothing when they run: the proof uses what they say.
    node_law();
    changes_law();
    node_models_law();
    are_within(p);
    match heard.delivered() {
        Some(delivered) => {
            let message = message_of(&delivered);
            are_octets(message.payload);
            models.take(p, now, polls, &message)
        }
        None => Taken {
            changes: Changes::new(),
            replies: MessageReplies::none(),
            ttl: 0,
            ends: false,
        },
    }
}

/// What is sent of what is published when time passed until this moment of the life, in ticks of 10 ms, at most 2^48:
/// nothing where the answer doesn't tell of it. What goes to an address of a friendship is stored, after the friendships
/// whose time is over have gone. The models and the friendships then stand for the entry of the time too.
pub(crate) fn publish_due(
    models: &mut NodeModels,
    friends: &mut NodeFriends,
    p: &Persist,
    apps: &AppKeys,
    now: u64,
    answer: &Answer,
) -> Due
    requires within { AreWithin models.old p.now }
    requires said { IsSaid p.now }
    requires apps { apps.now ≡ record { apps = p.now.apps; nets = p.now.nets } }
    requires time { now ≤ 2 ^ 48 }
    ensures due { (past : Past) (c : Config) → IsMeaningOf past.records p.now → AreNodeModelsOf models.old past
        → AreFriendsOf friends.old past.told → answer.now ≡ A.Ticked now
        → c.unicast ≡ (config_before past).unicast → IsDueSent past c now result }
    ensures models { (past : Past) (t : Told) (records : List StoreRecord) → AreNodeModelsOf models.old past
        → answer.now ≡ (if (config_before past).reset then A.Reset else A.Ticked now)
        → t.entry.answer ≡ answer.now → t.records ≡ past.records
        → (config_of records).elements ≡ (config_before past).elements
        → AreNodeModelsOf models.new (with_entry past.told t records) }
    ensures friends { (past : Past) (t : Told) → IsMeaningOf past.records p.now → AreNodeModelsOf models.old past
        → AreFriendsOf friends.old past.told → now_of past.told ≤ now
        → answer.now ≡ (if (config_before past).reset then A.Reset else A.Ticked now)
        → t.insight ≡ OfNothing → t.entry.answer ≡ answer.now → t.records ≡ past.records
        → AreFriendsOf friends.new (past.told ++ t ∷ []) }
    ensures within { AreWithin models.new p.now }
{
    // They do nothing when they run: the proof uses what they say.
    node_models_law();
    friend_steps_law();
    match answer {
        Answer::Ticked { .. } => {
            let due = models.pass(p, now);
            store_publications(friends, p, apps, now, due)
        }
        _ => Due::nothing(),
    }
}
