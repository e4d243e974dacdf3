//! What each record changes.
#![tactic(auto)]

use crate::keyed::put;
use crate::keys::{apply_net_to_apps, apply_to_apps, apply_to_nets};
use crate::labels::{apply_sub_to_labels, apply_to_labels};
use crate::lists::{
    apply_app_to_binds, apply_label_to_subs, apply_net_to_binds, apply_to_binds, apply_to_subs,
};
use crate::persist::Persist;
use crate::publications::{apply_app_to_publications, apply_net_to_publications};
use mesh_base::address::Address;
use mesh_base::iv_state::IvState;
use record_types::records::StoreRecord;
use thiserror::Error;

/// The table that a record would add to is full.
#[derive(Clone, Copy, Debug, PartialEq, Eq, Error)]
#[error("a table of the store is full")]
pub struct Limit {
    /// How many rows it has; of the replay list, how many other sources hold an entry.
    pub held: u32,
}

/// The feature that is the Default TTL, by its number in records.
const DEFAULT_TTL_FEATURE: u8 = 2;

impl Persist {
    ghost use Rattle.std.specs.Prelude.{◌≡◌, ◌⊎◌, ◌<◌, ◌^◌, ◌≤◌, ◌↔◌, List, [], ◌∷◌, ◌++◌, IsTrue, IsErr, IfErr, OnOk, OnErr};
    ghost use Rattle.record_types.specs.declared.records.StoreRecord.{StoreRecord};
    ghost use Rattle.record_types.specs.declared.records.StoreRecord.TheVariants as R;
    ghost use Rattle.store_definitions.specs.Config.{changed};
    ghost use Rattle.store_definitions.specs.Following.{PassesLimit};
    ghost use Rattle.store_definitions.specs.Ranges.{IsInRange, is_feature};
    ghost use Rattle.node_records.specs.Full.{IsFull, held_for, IsHeldByOthers};
    ghost use Rattle.node_records.specs.Meaning.{IsMeaningOf, IsSaid, DoesNotFall};
    ghost use Rattle.node_records.specs.Steps.{IsStep, IsOfTable, IsShortTtl};
    ghost use Rattle.node_records.specs.Tables.{config_in};

    /// A NetKey record, for which there is a place.
    #[tactic(auto, unfolding(store_definitions::specs::Config::changed))]
    fn apply_net_key(&mut self, op: u8, index: u16, key: &[u8; 16])
        requires { ¬ IsFull self.old (R.NetKey op index key.now) }
        ensures { IsStep self.old (R.NetKey op index key.now) self.new }
    {
        apply_to_nets(&mut self.nets, op, index, key);
        apply_net_to_binds(&mut self.binds, self.apps.as_slice(), op, index);
        apply_net_to_publications(&mut self.publications, self.apps.as_slice(), op, index);
        apply_net_to_apps(&mut self.apps, op, index);
    }

    /// An AppKey record, for which there is a place.
    #[tactic(auto, unfolding(store_definitions::specs::Config::changed))]
    fn apply_app_key(&mut self, op: u8, net: u16, index: u16, key: &[u8; 16])
        requires { ¬ IsFull self.old (R.AppKey op net index key.now) }
        ensures { IsStep self.old (R.AppKey op net index key.now) self.new }
    {
        apply_to_apps(&mut self.apps, op, net, index, key);
        apply_app_to_binds(&mut self.binds, op, index);
        apply_app_to_publications(&mut self.publications, op, index);
    }

    /// A Subscribe record, for which there is a place.
    #[tactic(auto, unfolding(store_definitions::specs::Config::changed))]
    fn apply_subscribe(&mut self, op: u8, element: Address, model: u16, address: Address)
        requires { ¬ IsFull self.old (R.Subscribe op element model address) }
        ensures { IsStep self.old (R.Subscribe op element model address) self.new }
    {
        apply_to_subs(&mut self.subs, op, element, model, address);
        apply_sub_to_labels(&mut self.labels, op, element, model);
    }

    /// A Label record, for which there is a place.
    #[tactic(auto, unfolding(store_definitions::specs::Config::changed))]
    fn apply_label(&mut self, op: u8, element: Address, model: u16, label: &[u8; 16])
        requires { ¬ IsFull self.old (R.Label op element model label.now) }
        ensures { IsStep self.old (R.Label op element model label.now) self.new }
    {
        apply_to_labels(&mut self.labels, op, element, model, label);
        apply_label_to_subs(&mut self.subs, op, element, model);
    }

    /// A Feature record.
    #[tactic(auto, unfolding(store_definitions::specs::Config::changed))]
    fn apply_feature(&mut self, which: u8, value: u16)
        requires { IsTrue (is_feature which value) }
        ensures { IsStep self.old (R.Feature which value) self.new }
    {
        let [high, low] = value.to_be_bytes();
        match which {
            1 => self.beacon = low,
            2 => self.ttl = low,
            3 => self.friend = low,
            4 => {
                self.relay = high;
                self.retransmit = low;
            }
            _ => self.transmit = low,
        }
    }

    /// A Model record.
    #[tactic(auto, unfolding(store_definitions::specs::Config::changed))]
    fn apply_model(&mut self, element: u8, model: u16, value: u16)
        requires { IsInRange (R.Model element model value) }
        ensures { IsStep self.old (R.Model element model value) self.new }
    {
        let place = usize::from(element);
        if model == 0x1000 {
            self.onoffs[place] = value as u8;
        } else {
            self.levels[place] = value;
        }
    }

    /// A record that changes a table, for which there is a place.
    #[tactic(auto, unfolding(store_definitions::specs::Config::changed))]
    fn step_table(&mut self, item: &StoreRecord)
        requires table { IsOfTable item.now }
        requires place { ¬ IsFull self.old item.now }
        ensures { IsStep self.old item.now self.new }
    {
        match item {
            StoreRecord::Replay { first, second } => {
                self.replay.apply(self.iv.current, first, second)
            }
            StoreRecord::NetKey { op, index, key } => self.apply_net_key(*op, *index, key),
            StoreRecord::AppKey {
                op,
                net,
                index,
                key,
            } => self.apply_app_key(*op, *net, *index, key),
            StoreRecord::Bind {
                op,
                element,
                model,
                app,
            } => apply_to_binds(&mut self.binds, *op, *element, *model, *app),
            StoreRecord::Subscribe {
                op,
                element,
                model,
                address,
            } => self.apply_subscribe(*op, *element, *model, *address),
            StoreRecord::Label {
                op,
                element,
                model,
                label,
            } => self.apply_label(*op, *element, *model, label),
            StoreRecord::Publish { row } => put(&mut self.publications, *row),
            _ => {}
        }
    }

    /// A record of any kind, for which there is a place.
    #[tactic(auto, unfolding(store_definitions::specs::Config::changed))]
    fn step(&mut self, item: &StoreRecord)
        requires range { IsInRange item.now }
        requires place { ¬ IsFull self.old item.now }
        ensures { IsStep self.old item.now self.new }
    {
        match item {
            StoreRecord::Identity {
                unicast,
                elements,
                dev_key,
            } => {
                self.unicast = *unicast;
                self.elements = *elements;
                self.dev_key = *dev_key;
            }
            StoreRecord::Numbers {
                current,
                progress,
                mark,
                hours,
                since,
            } => {
                self.iv = IvState {
                    current: *current,
                    progress: *progress,
                    hours: *hours,
                    since: *since,
                };
                self.mark = *mark;
            }
            StoreRecord::Hour { hours, since } => {
                self.iv.hours = *hours;
                self.iv.since = *since;
            }
            StoreRecord::Feature { which, value } => self.apply_feature(*which, *value),
            StoreRecord::Reset => self.reset = true,
            StoreRecord::Model {
                element,
                model,
                value,
            } => self.apply_model(*element, *model, *value),
            _ => self.step_table(item),
        }
    }

    /// The Default TTL that the value says with this record more. A Default TTL that it sets has 7 bits.
    #[tactic(auto, unfolding(store_definitions::specs::Config::changed))]
    pub fn ttl_after(&self, item: &StoreRecord) -> u8
        requires short { IsShortTtl item.now }
        ensures value { result ≡ (changed (config_in self.now) item.now).ttl }
        ensures short { self.now.ttl < 2 ^ 7 → result < 2 ^ 7 }
    {
        match item {
            StoreRecord::Feature { which, value } if *which == DEFAULT_TTL_FEATURE => *value as u8,
            _ => self.ttl,
        }
    }

    /// Takes one more record into the value; `Limit` exactly where the table that it would add to is full, and then the value is
    /// as before.
    ///
    /// The record's fields are in their ranges, and the known IV Index of a Numbers record isn't below the one held.
    pub fn apply(&mut self, item: &StoreRecord) -> Result<(), Limit>
        requires in_range { IsInRange item.now }
        requires current { DoesNotFall self.old item.now }
        ensures ok { OnOk result
            ((records : List StoreRecord) → IsMeaningOf records self.old
            → IsMeaningOf (records ++ item.now ∷ []) self.new) }
        ensures change { OnOk result (config_in self.new ≡ changed (config_in self.old) item.now) }
        ensures limit { IsErr result ↔ IsFull self.old item.now }
        ensures held { IfErr result (λ e. e.held ≡ held_for self.old item.now) }
        ensures passes { (records : List StoreRecord) → IsMeaningOf records self.old
            → IsErr result ↔ PassesLimit records item.now }
        ensures others { (records : List StoreRecord) → IsMeaningOf records self.old
            → IfErr result (λ e. IsHeldByOthers records item.now e.held) }
        ensures said { IsSaid self.old → IsSaid self.new }
        ensures unchanged { OnErr result (self.new ≡ self.old) }
    {
        self.check(item)?;
        self.step(item);
        Ok(())
    }
}
