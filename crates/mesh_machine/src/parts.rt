//! What a machine keeps of its node, and how records are stored in it.
#![tactic(auto)]

ghost use Rattle.std.specs.Prelude.{◌≡◌, false, fold, OnOk, OnErr};
ghost use Rattle.event_records.specs.Putting.{AreMoves, ArePuttable};
ghost use Rattle.flash_model.specs.Arming.{FailsOnce};
ghost use Rattle.flash_model.specs.Chip.{Keeps};
ghost use Rattle.mesh_hearing.specs.Tables.{IsFit};
ghost use Rattle.mesh_machine.specs.Handling.{AreHalted, AreStored};
ghost use Rattle.mesh_reading.specs.Held.{AreHeldKeys};
ghost use Rattle.node_records.specs.Tables.{config_in};
ghost use Rattle.node_records.specs.declared.persist.Persist.{Persist as PersistValue};
ghost use Rattle.seq_reserve.specs.Reserving.{IsPublished};
ghost use Rattle.store_definitions.specs.Config.{changed};

use crate::entering::renew;
use entry_log::EntryLog;
use event_plans::{NodeTables, Records};
use event_storing::store_records;
use flash_model::Flash;
use seq_reserve::{KeepFault, Reserve};
use seq_word::Numbers;

/// What a machine keeps of its node.
#[derive(Drop)]
pub struct Parts {
    /// The store, with the seat that moves the mark.
    pub(crate) reserve: Reserve,
    /// The tables, the models and the friendships.
    pub(crate) tables: NodeTables,
    /// The history of this life.
    pub(crate) history: EntryLog,
}

/// Stores the records of an event in their order, and derives the keys anew where they changed. An error says that the flash failed; then the
/// first few of them may be stored, and the tables are as they were. The store takes records, each may be put behind those before it, and
/// what they leave says keys that may be held.
pub(crate) fn store<F: Flash>(
    parts: &mut Parts,
    n: &Numbers,
    flash: &mut F,
    records: &Records,
) -> Result<(), KeepFault>
    requires made { parts.old.reserve.keeper.which ≡ n.now.which }
    requires published { IsPublished parts.old.reserve.store parts.old.reserve.keeper }
    requires usable { parts.old.reserve.store.journal.closed ≡ false }
    requires may { ArePuttable parts.old.reserve.store.persist records.now }
    requires moves { AreMoves (config_in parts.old.reserve.store.persist) records.now }
    requires fit { IsFit parts.old.tables.hearing parts.old.reserve.store.persist }
    requires held { (q : PersistValue)
        → config_in q ≡ fold changed (config_in parts.old.reserve.store.persist) records.now → AreHeldKeys (config_in q) }
    ensures stored { OnOk result
        (AreStored records.now parts.old parts.new (F.chip flash.old) (F.chip flash.new)) }
    ensures halted { OnErr result
        (AreHalted records.now parts.old parts.new (F.chip flash.old) (F.chip flash.new)) }
    ensures published { IsPublished parts.new.reserve.store parts.new.reserve.keeper }
    ensures made { parts.new.reserve.keeper.which ≡ parts.old.reserve.keeper.which }
    ensures history { parts.new.history ≡ parts.old.history }
    ensures unread { (F.chip flash.new).reads ≡ (F.chip flash.old).reads }
    ensures once { FailsOnce (F.chip flash.old) (F.chip flash.new) }
    ensures frame { Keeps (F.chip flash.old) (F.chip flash.new) }
{
    store_records(&mut parts.reserve, n, flash, records)?;
    renew(
        &mut parts.tables,
        parts.reserve.store.persist(),
        records.as_slice(),
    );
    Ok(())
}
