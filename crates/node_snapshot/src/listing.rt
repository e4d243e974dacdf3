//! The records that say a value anew, and their slots.
#![tactic(auto)]

ghost use Rattle.std.specs.Prelude.{◌≡◌, ◌≤◌, length, map};
ghost use Rattle.record_types.specs.declared.records.StoreRecord.TheVariants as R;
ghost use Rattle.store_definitions.specs.Recovered.{record_text};
ghost use Rattle.node_records.specs.Meaning.{IsSaid};
ghost use Rattle.node_snapshot.specs.Passing.{passed};
ghost use Rattle.node_snapshot.specs.Sizes.{HasSizes};
ghost use Rattle.node_snapshot.specs.Snapshot.{IsSnapshot, names_of, snapshot_of};

use crate::names::pass_names;
use crate::parts::{
    Passed, pass, pass_apps, pass_binds, pass_features, pass_identity, pass_labels, pass_models,
    pass_nets, pass_publications, pass_reset, pass_subs,
};
use mesh_base::pair::Name;
use mesh_base::slot::Slot;
use node_limits::SNAPSHOT_RECORDS;
use node_records::Persist;
use record_texts::encode;
use record_types::records::StoreRecord;
use slot_journal::Items;
use std::marker::Model;

/// The slots of a snapshot. Each is made when it is asked for: none is held.
#[derive(Drop)]
pub struct SnapshotSlots<'a> {
    persist: &'a Persist,
    names: &'a [Name],
}

impl<'a> Model for SnapshotSlots<'a> {
    ghost use Rattle.std.specs.Prelude.{◌≡◌, List, map, All};
    ghost use Rattle.mesh_base.specs.declared.slot.Slot.{Slot};
    ghost use Rattle.store_definitions.specs.Ranges.{IsInRange};
    ghost use Rattle.store_definitions.specs.Recovered.{record_text};
    ghost use Rattle.node_snapshot.specs.Snapshot.{names_of, snapshot_of};

    ghost Value = { List Slot };

    ghost view = { λ s. map record_text (snapshot_of s.persist.now) };

    ghost invariant = { λ s. All IsInRange (snapshot_of s.persist.now) × (s.names.now ≡ names_of s.persist.now) };
}

impl Items for SnapshotSlots<'_> {
    ghost slots = { λ s. s };

    fn slot(&self, place: usize) -> Option<Slot> {
        match pass_all(self.persist, self.names, place) {
            Ok(_) => None,
            Err(item) => Some(encode(&item)),
        }
    }
}

/// The Numbers record of a value.
fn numbers_of(p: &Persist) -> StoreRecord
    ensures { result ≡ R.Numbers p.now.iv.current p.now.iv.progress p.now.mark p.now.iv.hours p.now.iv.since }
{
    StoreRecord::Numbers {
        current: p.iv.current,
        progress: p.iv.progress,
        mark: p.mark,
        hours: p.iv.hours,
        since: p.iv.since,
    }
}

/// A value's tables hold no more than their sizes.
fn has_sizes(p: &Persist)
    ensures { HasSizes p.now }
{
    let _nets = p.nets.len();
    let _apps = p.apps.len();
    let _binds = p.binds.len();
    let _subs = p.subs.len();
    let _labels = p.labels.len();
    let _publications = p.publications.len();
    let _replay = p.replay.len();
}

/// All records of a value. `names` are those of its replay list that aren't expired, by source.
#[tactic(auto, unfolding(crate::specs::Snapshot::snapshot_of))]
fn pass_all(p: &Persist, names: &[Name], place: usize) -> Passed
    requires names { names.now ≡ names_of p.now }
    ensures value { result ≡ passed (snapshot_of p.now) place }
{
    let left1 = pass_identity(p.unicast, p.elements, &p.dev_key, place)?;
    let left2 = pass(numbers_of(p), left1)?;
    let left3 = pass_nets(p.nets.as_slice(), left2)?;
    let left4 = pass_apps(p.apps.as_slice(), left3)?;
    let left5 = pass_binds(p.binds.as_slice(), left4)?;
    let left6 = pass_subs(p.subs.as_slice(), left5)?;
    let left7 = pass_labels(p.labels.as_slice(), left6)?;
    let left8 = pass_features(p, left7)?;
    let left9 = pass_models(&p.onoffs, &p.levels, left8)?;
    let left10 = pass_names(names, left9)?;
    let left11 = pass_reset(p.reset, left10)?;
    pass_publications(p.publications.as_slice(), left11)
}

/// The slots of the records that say a value anew, at most `SNAPSHOT_RECORDS`. They fold to the same value without expired entries of the replay list.
///
/// The value is one that records in range say, as a new one is, and each that `apply` leaves. The names are those that [`put_names`] puts.
pub fn snapshot<'a>(p: &'a Persist, names: &'a [Name]) -> SnapshotSlots<'a>
    requires said { IsSaid p.now }
    requires names { names.now ≡ names_of p.now }
    ensures value { result ≡ map record_text (snapshot_of p.now) }
    ensures says { IsSnapshot (snapshot_of p.now) p.now }
    ensures few { length result ≤ SNAPSHOT_RECORDS }
{
    has_sizes(p);
    SnapshotSlots { persist: p, names }
}
