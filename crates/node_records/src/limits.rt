//! Whether the table that a record adds to has a place for it.
#![tactic(auto)]

ghost use Rattle.std.specs.Prelude.{◌≡◌, ◌^◌, ◌⊎◌, ℕ, ◌<◌, ◌≤◌, ◌↔◌, ◌==◌, ◌&&◌, not, false, List, length, count_by, IsTrue, IsErr, IfErr, IsSomeAnd};
ghost use Rattle.node_records.specs.Growth as table;
ghost use Rattle.layer_definitions.specs.KeyRefresh.{net_index, app_index};
ghost use Rattle.layer_definitions.specs.Order.{put_by};
ghost use Rattle.store_definitions.specs.Config.{is_bind, is_sub, is_label, publication_index, nets_after, apps_after, binds_after, subs_after, labels_after};
ghost use Rattle.node_records.specs.Places.{live_of, live_with, LacksPlace};

use crate::applying::Limit;
use crate::keyed::{Keyed, adds};
use crate::labels::has_label;
use crate::lists::{has_bind, has_sub};
use crate::persist::Persist;
use crate::replay::ReplayList;
use mesh_base::address::Address;
use mesh_base::keys::{AppKeyRow, NetKeyRow};
use mesh_base::pair::Name;
use node_limits::{
    APPLICATION_KEYS, BINDINGS, GROUP_SUBSCRIPTIONS, LABEL_SUBSCRIPTIONS, NETWORK_KEYS,
    PUBLICATIONS, REPLAY_ENTRIES,
};
use record_types::records::{PublishRow, StoreRecord};

impl Persist {
    ghost use Rattle.std.specs.Prelude.{◌≡◌, ◌↔◌, List, IsErr, IfErr};
    ghost use Rattle.record_types.specs.declared.records.StoreRecord.{StoreRecord};
    ghost use Rattle.store_definitions.specs.Following.{PassesLimit};
    ghost use Rattle.node_records.specs.Full.{IsFull, held_for, IsHeldByOthers};
    ghost use Rattle.node_records.specs.Meaning.{IsMeaningOf};

    /// Whether there is a place for what a record adds: `Limit` exactly where `apply` would refuse the record, and with the same count.
    /// A store asks before it writes.
    pub fn check(&self, item: &StoreRecord) -> Result<(), Limit>
        ensures limit { IsErr result ↔ IsFull self.now item.now }
        ensures held { IfErr result (λ e. e.held ≡ held_for self.now item.now) }
        ensures passes { (records : List StoreRecord) → IsMeaningOf records self.now
            → IsErr result ↔ PassesLimit records item.now }
        ensures others { (records : List StoreRecord) → IsMeaningOf records self.now
            → IfErr result (λ e. IsHeldByOthers records item.now e.held) }
    {
        let _few = self.replay.len();
        self.check_table(item)
    }

    /// The same, table by table.
    fn check_table(&self, item: &StoreRecord) -> Result<(), Limit>
        ensures limit { IsErr result ↔ IsFull self.now item.now }
        ensures held { IfErr result (λ e. e.held ≡ held_for self.now item.now) }
    {
        match item {
            StoreRecord::NetKey { op, index, .. } => check_nets(self.nets.as_slice(), *op, *index),
            StoreRecord::AppKey { op, index, .. } => check_apps(self.apps.as_slice(), *op, *index),
            StoreRecord::Bind {
                op,
                element,
                model,
                app,
            } => check_binds(self.binds.as_slice(), *op, *element, *model, *app),
            StoreRecord::Subscribe {
                op,
                element,
                model,
                address,
            } => check_subs(self.subs.as_slice(), *op, *element, *model, *address),
            StoreRecord::Label {
                op,
                element,
                model,
                label,
            } => check_labels(self.labels.as_slice(), *op, *element, *model, label),
            StoreRecord::Publish { row } => check_publications(self.publications.as_slice(), row),
            StoreRecord::Replay { first, second } => {
                check_replay(&self.replay, self.iv.current, first, second)
            }
            _ => Ok(()),
        }
    }
}

/// The refusal of a table with so many rows, where it is full.
fn limit_where(full: bool, held: usize) -> Result<(), Limit>
    requires { held < 2 ^ 32 }
    ensures limit { IsErr result ↔ IsTrue full }
    ensures held { IfErr result (λ e. e.held ≡ held) }
{
    if full {
        return Err(Limit { held: held as u32 });
    }
    Ok(())
}

/// Whether a NetKey record would add a row that has no place.
fn passes_nets(rows: &[NetKeyRow], op: u8, index: u16) -> bool
    ensures { result ≡ (op == 1 && table.passes_keyed net_index NETWORK_KEYS index rows.now) }
{
    op == 1 && rows.len() == NETWORK_KEYS && adds(rows, u32::from(index))
}

/// Whether there is a place for what a NetKey record adds.
fn check_nets(rows: &[NetKeyRow], op: u8, index: u16) -> Result<(), Limit>
    requires { length rows.now ≤ NETWORK_KEYS }
    ensures limit { (key : List ℕ) → IsErr result ↔ (NETWORK_KEYS < length (nets_after op index key rows.now)) }
    ensures held { IfErr result (λ e. e.held ≡ length rows.now) }
{
    limit_where(passes_nets(rows, op, index), rows.len())
}

/// Whether an AppKey record would add a row that has no place.
fn passes_apps(rows: &[AppKeyRow], op: u8, index: u16) -> bool
    ensures { result ≡ (op == 1 && table.passes_keyed app_index APPLICATION_KEYS index rows.now) }
{
    op == 1 && rows.len() == APPLICATION_KEYS && adds(rows, u32::from(index))
}

/// Whether there is a place for what an AppKey record adds.
fn check_apps(rows: &[AppKeyRow], op: u8, index: u16) -> Result<(), Limit>
    requires { length rows.now ≤ APPLICATION_KEYS }
    ensures limit { (net : ℕ) (key : List ℕ) → IsErr result ↔ (APPLICATION_KEYS < length (apps_after op net index key rows.now)) }
    ensures held { IfErr result (λ e. e.held ≡ length rows.now) }
{
    limit_where(passes_apps(rows, op, index), rows.len())
}

/// Whether a Publish record would add a row that has no place.
fn passes_publications(rows: &[PublishRow], row: &PublishRow) -> bool
    ensures { result ≡ table.passes_keyed publication_index PUBLICATIONS (publication_index row.now) rows.now }
{
    rows.len() == PUBLICATIONS && adds(rows, row.number())
}

/// Whether there is a place for what a Publish record adds.
fn check_publications(rows: &[PublishRow], row: &PublishRow) -> Result<(), Limit>
    requires { length rows.now ≤ PUBLICATIONS }
    ensures limit { IsErr result ↔ (PUBLICATIONS < length (put_by publication_index row.now rows.now)) }
    ensures held { IfErr result (λ e. e.held ≡ length rows.now) }
{
    limit_where(passes_publications(rows, row), rows.len())
}

/// Whether a Bind record would add a row that has no place.
fn passes_binds(
    rows: &[(Address, u16, u16)],
    op: u8,
    element: Address,
    model: u16,
    app: u16,
) -> bool
    ensures { result ≡ (op == 1 && table.passes_pushed BINDINGS (is_bind element model app) rows.now) }
{
    op == 1 && rows.len() == BINDINGS && !has_bind(rows, element, model, app)
}

/// Whether there is a place for what a Bind record adds.
fn check_binds(
    rows: &[(Address, u16, u16)],
    op: u8,
    element: Address,
    model: u16,
    app: u16,
) -> Result<(), Limit>
    requires { length rows.now ≤ BINDINGS }
    ensures limit { IsErr result ↔ (BINDINGS < length (binds_after op element model app rows.now)) }
    ensures held { IfErr result (λ e. e.held ≡ length rows.now) }
{
    limit_where(passes_binds(rows, op, element, model, app), rows.len())
}

/// How many subscriptions are not of this model.
fn count_other_subs(rows: &[(Address, u16, Address)], element: Address, model: u16) -> usize
    ensures { result ≡ count_by (λ s. not (s.0.0 == element.0 && s.1 == model)) rows.now }
{
    rows.iter()
        .filter(|row| !(row.0.0 == element.0 && row.1 == model))
        .count()
}

/// Whether a Subscribe record would add a row that has no place. One that takes the place of all of its model adds to those of the others.
fn passes_subs(
    rows: &[(Address, u16, Address)],
    op: u8,
    element: Address,
    model: u16,
    address: Address,
) -> bool
    ensures { result
        ≡ table.passes_list GROUP_SUBSCRIPTIONS (is_sub element model address) (λ s. s.0.0 == element.0 && s.1 == model) op
        rows.now }
{
    (op == 1 && rows.len() == GROUP_SUBSCRIPTIONS && !has_sub(rows, element, model, address))
        || (op == 4 && count_other_subs(rows, element, model) == GROUP_SUBSCRIPTIONS)
}

/// Whether there is a place for what a Subscribe record adds.
fn check_subs(
    rows: &[(Address, u16, Address)],
    op: u8,
    element: Address,
    model: u16,
    address: Address,
) -> Result<(), Limit>
    requires { length rows.now ≤ GROUP_SUBSCRIPTIONS }
    ensures limit { IsErr result ↔ (GROUP_SUBSCRIPTIONS < length (subs_after op element model address rows.now)) }
    ensures held { IfErr result (λ e. e.held ≡ length rows.now) }
{
    limit_where(passes_subs(rows, op, element, model, address), rows.len())
}

/// How many labels are not of this model.
fn count_other_labels(rows: &[(Address, u16, [u8; 16])], element: Address, model: u16) -> usize
    ensures { result ≡ count_by (λ l. not (l.0.0 == element.0 && l.1 == model)) rows.now }
{
    rows.iter()
        .filter(|row| !(row.0.0 == element.0 && row.1 == model))
        .count()
}

/// Whether a Label record would add a row that has no place. One that takes the place of all of its model adds to those of the others.
fn passes_labels(
    rows: &[(Address, u16, [u8; 16])],
    op: u8,
    element: Address,
    model: u16,
    label: &[u8; 16],
) -> bool
    ensures { result
        ≡ table.passes_list LABEL_SUBSCRIPTIONS (is_label element model label.now)
        (λ l. l.0.0 == element.0 && l.1 == model) op rows.now }
{
    (op == 1 && rows.len() == LABEL_SUBSCRIPTIONS && !has_label(rows, element, model, label))
        || (op == 4 && count_other_labels(rows, element, model) == LABEL_SUBSCRIPTIONS)
}

/// Whether there is a place for what a Label record adds.
fn check_labels(
    rows: &[(Address, u16, [u8; 16])],
    op: u8,
    element: Address,
    model: u16,
    label: &[u8; 16],
) -> Result<(), Limit>
    requires { length rows.now ≤ LABEL_SUBSCRIPTIONS }
    ensures limit { IsErr result ↔ (LABEL_SUBSCRIPTIONS < length (labels_after op element model label.now rows.now)) }
    ensures held { IfErr result (λ e. e.held ≡ length rows.now) }
{
    limit_where(passes_labels(rows, op, element, model, label), rows.len())
}

/// Whether there is a place for the names of a Replay record, in their order.
fn check_replay(
    rows: &ReplayList,
    current: u32,
    first: &Name,
    second: &Option<Name>,
) -> Result<(), Limit>
    ensures limit { IsErr result ↔ (LacksPlace (live_of current rows.now) first.now
        ⊎ IsSomeAnd second.now (LacksPlace (live_with current (live_of current rows.now) first.now))) }
    ensures held { IfErr result (λ e. e.held ≡ REPLAY_ENTRIES) }
{
    let full = rows.lacks_place(current, first);
    let Some(name) = second else {
        return limit_where(full, REPLAY_ENTRIES)
    };
    limit_where(
        full || rows.lacks_place_after(current, first, name),
        REPLAY_ENTRIES,
    )
}
