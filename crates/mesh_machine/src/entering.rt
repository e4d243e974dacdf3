//! What handling an event does behind its records: the keys are derived anew where they changed.
#![tactic(auto)]

ghost use Rattle.std.specs.Prelude.{◌≡◌};
ghost use Rattle.std.specs.List.{list_any};
ghost use Rattle.event_plans.specs.Memory.{AreNodeTablesOf};
ghost use Rattle.mesh_hearing.specs.Tables.{IsFit};
ghost use Rattle.mesh_machine.specs.Keys.{HadKeys, changes_keys as changes_keys_in};
ghost use Rattle.mesh_reading.specs.Held.{AreHeldKeys};
ghost use Rattle.node_records.specs.Tables.{config_in};
ghost use Rattle.event_definitions.specs.History.{Past};

use event_plans::NodeTables;
use node_records::Persist;
use record_types::records::StoreRecord;

// Whether a record changes the keys or the labels. With all subscriptions of a model its labels go.
fn changes_keys(item: &StoreRecord) -> bool
    ensures { result ≡ changes_keys_in item.now }
{
    match item {
        StoreRecord::Identity { .. } => true,
        StoreRecord::NetKey { .. } => true,
        StoreRecord::AppKey { .. } => true,
        StoreRecord::Label { .. } => true,
        StoreRecord::Subscribe { op, .. } => *op == 3 || *op == 4,
        _ => false,
    }
}

// Whether one of these records changes the keys.
fn change_keys(records: &[StoreRecord]) -> bool
    ensures { result ≡ list_any changes_keys_in records.now }
{
    records.iter().any(|item| changes_keys(item))
}

/// Derives the keys anew where records changed what they are derived from. The models stay. `p` is what the records say with these ones.
pub(crate) fn renew(tables: &mut NodeTables, p: &Persist, records: &[StoreRecord])
    requires held { AreHeldKeys (config_in p.now) }
    requires had { HadKeys tables.old p.now records.now }
    ensures fit { IsFit tables.new.hearing p.now }
    ensures tables { (past : Past) → AreNodeTablesOf tables.old past → AreNodeTablesOf tables.new past }
    ensures unchanged { tables.new.models ≡ tables.old.models }
{
    if change_keys(records) {
        tables.renew_keys(p);
    }
}
