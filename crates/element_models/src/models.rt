//! The servers of all elements of a node.
#![tactic(auto)]

ghost use Rattle.std.specs.Prelude.{◌≡◌, ◌<◌, ◌≤◌, ◌-◌, ◌^◌, ◌++◌, List, Some, [], length, map, All};
ghost use Rattle.std.specs.List.{range_with_len};
ghost use Rattle.element_models.specs.Messages.{HasOctet, message_in, reply_in};
ghost use Rattle.element_models.specs.Models.{AreModelsOf};
ghost use Rattle.element_models.specs.Stepping.{all_replied, all_step, all_stored, servers_first};
ghost use Rattle.node_layers.specs.Models.{delivered_by, model_records, model_replies};
ghost use Rattle.node_layers.specs.Publishing.{status_of};
ghost use Rattle.node_layers.specs.Steps.{with_entry};
ghost use Rattle.node_records.specs.Meaning.{IsMeaningOf};
ghost use Rattle.node_records.specs.Tables.{config_in};
ghost use Rattle.record_types.specs.declared.records.PublishRow.{PublishRow};
ghost use Rattle.record_types.specs.declared.records.StoreRecord.{StoreRecord};
ghost use Rattle.event_definitions.specs.Answers.{config_before};
ghost use Rattle.event_definitions.specs.History.{Past, Told, now_of};
ghost use Rattle.store_definitions.specs.Config.{Config, config_of};
ghost use Rattle.store_definitions.specs.Ranges.{IsInRange};

use crate::message::Message;
use crate::servers::{ONOFF_SERVER, Servers, first_servers, take_at};
use crate::taken::ModelsTaken;
use arrayvec::ArrayVec;
use mesh_base::octets::Octets;
use node_records::Persist;
use std::marker::Model;

/// The servers of at most 4 elements, in their order. A clause sees the list of them.
///
/// They stand for what a node was told in a life so far: `open` for no entries, and after a message that was delivered `take` for its entry
/// with these. An entry that delivers none leaves them (`models_law`).
#[derive(Drop)]
pub struct ElementModels {
    pub(crate) servers: ArrayVec<Servers, 4>,
}

impl Model for ElementModels {
    ghost use Rattle.std.specs.Prelude.{List};
    ghost use Rattle.element_models.specs.declared.servers.Servers.{Servers};

    ghost Value = { List Servers };

    ghost view = { λ m. m.servers.items };
}

// The servers of so many elements, as a life opens with them.
fn first_of(p: &Persist, elements: u8) -> ArrayVec<Servers, 4>
    requires { elements ≤ 4 }
    ensures { result.items ≡ map (servers_first (config_in p.now)) (range_with_len 0 elements) }
{
    let mut servers = ArrayVec::new();
    for element in 0..elements {
        servers.push(first_servers(p, element));
    }
    servers
}

// The servers of all elements take a message.
fn take_all(servers: &mut [Servers], p: &Persist, now: u64, m: &Message<'_>) -> ModelsTaken
    requires few { length servers.old ≤ 4 }
    requires time { now ≤ 2 ^ 48 }
    ensures state { servers.new ≡ all_step (config_in p.now) now (message_in m.now) servers.old }
    ensures records { result.records ≡ all_stored (config_in p.now) now (message_in m.now) servers.old }
    ensures replies { map reply_in result.replies ≡ all_replied (config_in p.now) now (message_in m.now) servers.old }
    ensures ranges { All IsInRange result.records }
{
    let mut taken = ModelsTaken::new();
    for (place, s) in servers.iter_mut().enumerate() {
        take_at(s, p, place as u8, now, m, &mut taken);
    }
    taken
}

impl ElementModels {
    /// The servers of a life that opens over a store of this value, which has at most 4 elements, with the values that it keeps.
    pub fn open(p: &Persist) -> ElementModels
        requires { p.now.elements ≤ 4 }
        ensures count { length result ≡ p.now.elements }
        ensures opened { (past : Past) → IsMeaningOf past.records p.now → past.told ≡ [] → AreModelsOf result past }
    {
        ElementModels {
            servers: first_of(p, p.elements),
        }
    }

    /// A message that was delivered is taken at this moment of the life, in ticks of 10 ms, at most 2^48, over a store of this value: what
    /// that stores and what is replied. They then stand for its entry too, whatever records stand behind it, as long as the node has as many
    /// elements. The records are in range, and each reply has an octet.
    pub fn take(&mut self, p: &Persist, now: u64, m: &Message<'_>) -> ModelsTaken
        requires { now ≤ 2 ^ 48 }
        ensures count { length self.new ≡ length self.old }
        ensures records { (past : Past) → IsMeaningOf past.records p.now → AreModelsOf self.old past
            → now ≡ now_of past.told
            → result.records ≡ model_records past (message_in m.now) }
        ensures replies { (past : Past) → IsMeaningOf past.records p.now → AreModelsOf self.old past
            → now ≡ now_of past.told
            → map reply_in result.replies ≡ model_replies past (message_in m.now) }
        ensures models { (past : Past) (t : Told) (records : List StoreRecord)
            → IsMeaningOf past.records p.now → AreModelsOf self.old past → now ≡ now_of past.told
            → t.records ≡ past.records → delivered_by t ≡ Some (message_in m.now)
            → (config_of records).elements ≡ (config_before past).elements
            → AreModelsOf self.new (with_entry past.told t records) }
        ensures ranges { All IsInRange result.records }
        ensures octets { All HasOctet (map reply_in result.replies) }
    {
        take_all(self.servers.as_mut_slice(), p, now, m)
    }

    /// How many elements there are, at most 4.
    pub fn elements(&self) -> u8
        ensures value { result ≡ length self.now }
        ensures most { result ≤ 4 }
        ensures elements { (past : Past) → AreModelsOf self.now past → result ≡ (config_before past).elements }
    {
        self.servers.len() as u8
    }

    /// The Status that a publication of a model shows at a moment, in ticks of 10 ms, at most 2^48. The element is one by its place; a model
    /// that isn't the Generic OnOff Server is the Generic Level Server. It has an octet.
    pub fn status(&self, element: u8, model: u16, now: u64) -> Octets<11>
        requires element { element < length self.now }
        requires time { now ≤ 2 ^ 48 }
        ensures value { (past : Past) (c : Config) (row : PublishRow) → AreModelsOf self.now past
            → row.element.0 - c.unicast.0 ≡ element → row.model ≡ model → result ≡ status_of past c row now }
        ensures octet { 1 ≤ length result }
    {
        let servers = &self.servers.as_slice()[element as usize];
        if model == ONOFF_SERVER {
            servers.onoff.status(now)
        } else {
            servers.level.status(now)
        }
    }
}
