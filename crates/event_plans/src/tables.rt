//! What a node keeps in memory in a life.
#![tactic(auto)]

ghost use Rattle.std.specs.Prelude.{◌≡◌, ◌↔◌, ◌≤◌, ◌^◌, List, [], Some, IfOk, IsTrue};
ghost use Rattle.event_plans.specs.Memory.{AreNodeTablesOf, IsFitFor, StaysUntil, view_in, waited};
ghost use Rattle.mesh_reading.specs.Held.{AreHeldKeys, held_in};
ghost use Rattle.mesh_types.specs.declared.answers.Answer.TheVariants as A;
ghost use Rattle.node_layers.specs.Steps.{with_entry};
ghost use Rattle.node_records.specs.Meaning.{IsMeaningOf, IsSaid};
ghost use Rattle.node_records.specs.Tables.{config_in};
ghost use Rattle.node_records.specs.declared.persist.Persist.{Persist as PersistValue};
ghost use Rattle.record_types.specs.declared.records.StoreRecord.{StoreRecord};
ghost use Rattle.event_definitions.specs.Answers.{config_before};
ghost use Rattle.event_definitions.specs.History.{OfNothing, Past, Told, now_of};
ghost use Rattle.store_definitions.specs.Config.{config_of};

use early_reading::{KeyView, Reader};
use mesh_hearing::{Keys, Tables};
use node_friends::{NodeFriends, friends_law};
use node_models::NodeModels;
use node_records::Persist;
use std::alloc::{AllocError, Global};
use std::marker::Model;

/// What a node keeps in memory in a life: its keys and the tables of what was heard and what is sent, its models, and its
/// friendships.
#[derive(Drop)]
pub struct NodeTables {
    pub(crate) hearing: Tables,
    pub(crate) models: NodeModels,
    pub(crate) friends: NodeFriends,
}

impl Model for NodeTables {
    ghost use Rattle.event_plans.specs.Memory.{NodeTablesView};

    ghost Value = { NodeTablesView };

    ghost view = { λ t. record { hearing = t.hearing; models = t.models; friends = t.friends } };
}

impl NodeTables {
    /// Those of a life that opens over a store of this value. An error says that memory ran out.
    pub fn new(alloc: Global, p: &Persist) -> Result<NodeTables, AllocError>
        requires keys { AreHeldKeys (config_in p.now) }
        requires said { IsSaid p.now }
        ensures opened { IfOk result (λ t. (past : Past) → IsMeaningOf past.records p.now → past.told ≡ []
            → AreNodeTablesOf t past) }
        ensures fit { IfOk result (λ t. IsFitFor t p.now) }
    {
        let hearing = Tables::new(alloc, p)?;
        Ok(NodeTables {
            hearing,
            models: NodeModels::open(p),
            friends: NodeFriends::new(),
        })
    }

    /// The keys derived anew from a store of this value. The rest stays.
    pub fn renew_keys(&mut self, p: &Persist)
        requires keys { AreHeldKeys (config_in p.now) }
        ensures value { self.new
            ≡ record self.old { hearing = record self.old.hearing { keys = held_in (config_in p.now) } } }
    {
        self.hearing.renew_keys(p);
    }

    /// Time passes until this moment of the life, in ticks of 10 ms, at most 2^48, and nothing is given: for a moment up to which nothing ends. All
    /// of it then stands for an entry that tells of this moment too.
    pub fn wait(&mut self, now: u64)
        requires most { now ≤ 2 ^ 48 }
        ensures value { self.new ≡ waited self.old now }
        ensures tables { (past : Past) (e : Told) (records : List StoreRecord) → AreNodeTablesOf self.old past
            → StaysUntil past now → now_of past.told ≤ now
            → e.insight ≡ OfNothing → e.entry.answer ≡ A.Ticked now → e.records ≡ past.records
            → (config_of records).elements ≡ (config_before past).elements
            → AreNodeTablesOf self.new (with_entry past.told e records) }
        ensures fit { (p : PersistValue) → IsFitFor self.old p → IsFitFor self.new p }
    {
        // It does nothing when it runs: the proof uses what it says.
        friends_law();
        self.hearing.wait(now);
        self.models.wait(now);
    }

    /// The keys that the node holds.
    pub fn keys(&self) -> &Keys
        ensures value { result.now ≡ self.now.hearing.keys }
    {
        self.hearing.keys()
    }

    /// By what octets are read now, under a store of this value.
    pub fn key_view(&self, p: &Persist) -> KeyView
        ensures value { result ≡ view_in self.now p.now }
    {
        KeyView::of(
            self.hearing.keys().nets(),
            self.friends.keys().as_slice(),
            p.iv.current,
        )
    }

    /// Whether octets are read by this view now, under a store of this value.
    pub fn is_view(&self, p: &Persist, view: &KeyView) -> bool
        ensures value { IsTrue result ↔ (view.now ≡ view_in self.now p.now) }
    {
        view.is_of(
            self.hearing.keys().nets(),
            self.friends.keys().as_slice(),
            p.iv.current,
        )
    }

    /// Has a reader take the view by which octets are read now, under a store of this value.
    pub fn renew_reader(&self, p: &Persist, reader: &mut Reader)
        ensures view { reader.new ≡ Some (view_in self.now p.now) }
    {
        reader.renew(
            self.hearing.keys().nets(),
            self.friends.keys().as_slice(),
            p.iv.current,
        );
    }

    /// The tables of what was heard and what is sent.
    pub fn hearing(&self) -> &Tables
        ensures value { result.now ≡ self.now.hearing }
    {
        &self.hearing
    }

    /// The models.
    pub fn models(&self) -> &NodeModels
        ensures value { result.now ≡ self.now.models }
    {
        &self.models
    }

    /// The friendships and offers.
    pub fn friends(&self) -> &NodeFriends
        ensures value { result.now ≡ self.now.friends }
    {
        &self.friends
    }
}
