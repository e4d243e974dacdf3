//! The models of a node, and its calls.
#![tactic(auto)]

ghost use Rattle.std.specs.Prelude.{◌≡◌, ℕ, ◌≤◌, ◌<◌, ◌^◌, List, Some, [], All, length, filter};
ghost use Rattle.element_models.specs.Messages.{HasOctet, message_in};
ghost use Rattle.layer_states.specs.Friends.{FriendsState, poll_timeouts};
ghost use Rattle.mesh_types.specs.declared.answers.Answer.TheVariants as A;
ghost use Rattle.model_publish.specs.Own.{IsOwnRow};
ghost use Rattle.model_states.specs.Publication.{after_heartbeat, after_rows};
ghost use Rattle.node_layers.specs.ConfiguredLayers.{changes_of};
ghost use Rattle.node_layers.specs.Configuration.{ends_friendships};
ghost use Rattle.node_layers.specs.Friendship.{act_of, config_after, replies_to};
ghost use Rattle.node_layers.specs.Models.{delivered_by};
ghost use Rattle.node_layers.specs.Publishing.{is_own_row};
ghost use Rattle.node_layers.specs.Steps.{with_entry};
ghost use Rattle.node_models.specs.Due.{IsDue, ShowsOctet};
ghost use Rattle.node_models.specs.Models.{AreNodeModelsOf, AreWithin};
ghost use Rattle.node_models.specs.Replies.{replies_in};
ghost use Rattle.node_records.specs.Meaning.{IsMeaningOf, IsSaid};
ghost use Rattle.node_records.specs.Tables.{config_in};
ghost use Rattle.node_records.specs.declared.persist.Persist.{Persist as PersistValue};
ghost use Rattle.record_types.specs.declared.records.StoreRecord.{StoreRecord};
ghost use Rattle.event_definitions.specs.Answers.{config_before};
ghost use Rattle.event_definitions.specs.History.{Past, Told, now_of};
ghost use Rattle.store_definitions.specs.Config.{Config, config_of};

use crate::configuration::{config_act, publish, ttl_behind};
use crate::due::{Due, with_statuses};
use crate::taken::Taken;
use element_models::{ElementModels, LEVEL_SERVER, Message, ONOFF_SERVER, models_law};
use mesh_base::address::Address;
use model_publish::{PublishList, PublishRow, Publisher, rows_law};
use node_layers::laws::step_law;
use node_records::Persist;
use std::marker::Model;

/// The models of a node in a life: the servers of its elements, and what is published. The Configuration Server has no state of its own
/// beside what the store keeps.
///
/// They stand for what a node was told in a life so far: `open` for no entries, `take` for an entry more that delivered a message, `pass` for
/// one that told of time. Any other entry leaves them (`node_models_law`).
#[derive(Drop)]
pub struct NodeModels {
    pub(crate) servers: ElementModels,
    pub(crate) publisher: Publisher,
}

impl Model for NodeModels {
    ghost use Rattle.node_models.specs.Models.{ModelsView};

    ghost Value = { ModelsView };

    ghost view = { λ m. record { servers = m.servers; published = m.publisher } };
}

/// Whether a row is of an element of this node and of a model that it has.
pub fn is_own_row(p: &Persist, row: &PublishRow) -> bool
    ensures value { result ≡ is_own_row (config_in p.now) row.now }
{
    let element = u32::from(row.element.0);
    let first = u32::from(p.unicast.0);
    first <= element
        && element < first + u32::from(p.elements)
        && (row.model == ONOFF_SERVER || row.model == LEVEL_SERVER)
}

// The rows that a store of this value has of the node's own models.
fn own_rows(p: &Persist) -> PublishList
    ensures value { result ≡ filter (is_own_row (config_in p.now)) p.now.publications }
    ensures own { All (IsOwnRow p.now.unicast.0 p.now.elements) result }
{
    let mut rows = p.publications.copied();
    rows.retain(|row| is_own_row(p, row));
    rows
}

impl NodeModels {
    /// The models of a life that opens over a store of this value: with the values that it keeps, and the rows that it has of the node's own
    /// models. There is no heartbeat.
    pub fn open(p: &Persist) -> NodeModels
        requires said { IsSaid p.now }
        ensures opened { (past : Past) → IsMeaningOf past.records p.now → past.told ≡ [] → AreNodeModelsOf result past }
        ensures within { AreWithin result p.now }
    {
        models_law();
        rows_law();
        NodeModels {
            servers: ElementModels::open(p),
            publisher: Publisher::new(own_rows(p).as_slice()),
        }
    }

    /// A message that was delivered is taken at this moment of the life, in ticks of 10 ms, at most 2^48, over a store of this value: what
    /// that stores, what is replied, the Default TTL behind it, and whether it ends the friendships. `polls` are the Low Power nodes of the
    /// friendships with their PollTimeouts, in units of 100 ms. The models then stand for its entry too, whatever records stand behind it, as
    /// long as the node has as many elements. A message without a reply is answered by none, and each reply has an octet.
    pub fn take(
        &mut self,
        p: &Persist,
        now: u64,
        polls: &[(Address, u32)],
        m: &Message<'_>,
    ) -> Taken
        requires within { AreWithin self.old p.now }
        requires time { now ≤ 2 ^ 48 }
        ensures changes { (past : Past) → IsMeaningOf past.records p.now → AreNodeModelsOf self.old past
            → now ≡ now_of past.told → result.changes ≡ changes_of past (message_in m.now) }
        ensures replies { (past : Past) (st : FriendsState) → IsMeaningOf past.records p.now
            → AreNodeModelsOf self.old past → now ≡ now_of past.told → polls.now ≡ poll_timeouts st.slots
            → replies_in result.replies ≡ replies_to past st (message_in m.now) }
        ensures ttl { (past : Past) (st : FriendsState) → IsMeaningOf past.records p.now
            → AreNodeModelsOf self.old past → polls.now ≡ poll_timeouts st.slots
            → result.ttl ≡ (config_after (config_before past) (act_of past st (message_in m.now))).ttl }
        ensures short { p.now.ttl < 2 ^ 7 → result.ttl < 2 ^ 7 }
        ensures ends { (past : Past) → IsMeaningOf past.records p.now
            → result.ends ≡ ends_friendships (config_before past) (message_in m.now) }
        ensures octets { All HasOctet (replies_in result.replies) }
        ensures models { (past : Past) (t : Told) (records : List StoreRecord)
            → IsMeaningOf past.records p.now → AreNodeModelsOf self.old past → now ≡ now_of past.told
            → t.records ≡ past.records → delivered_by t ≡ Some (message_in m.now)
            → (config_of records).elements ≡ (config_before past).elements
            → AreNodeModelsOf self.new (with_entry past.told t records) }
        ensures within { AreWithin self.new p.now }
    {
        step_law();
        let act = config_act(p, polls, &self.publisher.heartbeat(), m);
        publish(&mut self.publisher, p, now, &act);
        let ttl = ttl_behind(p, &act);
        Taken::of(act, ttl, self.servers.take(p, now, m))
    }

    /// What is published at this moment of the life, in ticks of 10 ms, at most 2^48, over a store of this value. They then stand for an entry
    /// that tells of this moment too. Each Status has an octet.
    pub fn pass(&mut self, p: &Persist, now: u64) -> Due
        requires within { AreWithin self.old p.now }
        requires time { now ≤ 2 ^ 48 }
        ensures due { (past : Past) (c : Config) → IsMeaningOf past.records p.now → AreNodeModelsOf self.old past
            → c.unicast ≡ (config_before past).unicast → IsDue past c now result }
        ensures octets { All ShowsOctet result.rows }
        ensures models { (past : Past) (t : Told) (records : List StoreRecord)
            → AreNodeModelsOf self.old past → t.records ≡ past.records → t.entry.answer ≡ A.Ticked now
            → (config_of records).elements ≡ (config_before past).elements
            → AreNodeModelsOf self.new (with_entry past.told t records) }
        ensures within { AreWithin self.new p.now }
    {
        models_law();
        step_law();
        let rows = self.publisher.due(now);
        let heartbeat = self.publisher.heartbeat_due(now);
        Due {
            rows: with_statuses(&self.servers, p.unicast, now, rows.as_slice()),
            heartbeat,
        }
    }

    /// Time passes until this moment of the life, in ticks of 10 ms, and nothing is handed out: for a moment at which nothing is due. They then
    /// stand for an entry that tells of this moment too.
    pub fn wait(&mut self, now: u64)
        ensures value { self.new
            ≡ record self.old { published = after_heartbeat (after_rows self.old.published now) now } }
        ensures models { (past : Past) (t : Told) (records : List StoreRecord)
            → AreNodeModelsOf self.old past → t.records ≡ past.records → t.entry.answer ≡ A.Ticked now
            → (config_of records).elements ≡ (config_before past).elements
            → AreNodeModelsOf self.new (with_entry past.told t records) }
        ensures within { (p : PersistValue) → AreWithin self.old p → AreWithin self.new p }
    {
        // They do nothing when they run: the proof uses what they say.
        models_law();
        step_law();
        self.publisher.wait(now);
    }
}
