// Room for a record: where all slots of the bank are used, the records that say the same are written into the other bank. Then the record
// is added.
ghost use Rattle.std.specs.Prelude.{◌≡◌, ◌+◌, ◌<◌, ◌≤◌, List, [], ◌∷◌, length, true, false, IsTrue, IsOk, OnOk, OnErr};
ghost use Rattle.flash_model.specs.Chip.{LeavesOnly};
ghost use Rattle.record_types.specs.declared.records.StoreRecord.{StoreRecord};
ghost use Rattle.node_records.specs.Meaning.{IsSaid};
ghost use Rattle.node_records.specs.Full.{IsFull};
ghost use Rattle.node_snapshot.specs.Snapshot.{snapshot_of};
ghost use Rattle.store_definitions.specs.Ranges.{IsInRange};
ghost use Rattle.node_store.specs.Calls.{compaction, only_slots, room_of, used_with_room};
ghost use Rattle.node_store.specs.Tie.{IsExactly, IsHeld, IsNotBelow, IsPut, IsStoreOf};
ghost use Rattle.node_store.specs.Writing.{CostsCalls, LeavesFlash, Puts};

use crate::store::Store;
use flash_model::{Flash, FlashFailed};
use node_limits::{BANK_RECORDS, COMPACTION_CALLS, SNAPSHOT_RECORDS};
use node_records::Persist;
use node_snapshot::{Names, put_names, snapshot};
use record_texts::encode;
use record_types::records::StoreRecord;
use slot_journal::Journal;

/// Compacts a journal to the records that say a value anew. At `Ok` they are durable. In every image that a cut at any moment leaves, the
/// records say the same.
pub fn compact<F: Flash>(
    journal: &mut Journal,
    persist: &Persist,
    flash: &mut F,
) -> Result<(), FlashFailed>
    requires said { IsSaid persist.now }
    requires usable { journal.old.closed ≡ false }
    ensures usable { OnOk result (journal.new.closed ≡ false) }
    ensures used { OnOk result (journal.new.used ≡ length (snapshot_of persist.now)) }
    ensures few { length (snapshot_of persist.now) ≤ SNAPSHOT_RECORDS }
    ensures format { OnOk result (journal.new.version ≡ 2) }
    ensures closed { OnErr result (journal.new ≡ record journal.old { closed = true }) }
    ensures cause { OnErr result ((F.chip flash.old).faults < (F.chip flash.new).faults) }
    ensures sure { IsTrue (F.chip flash.old).sure → IsOk result }
    ensures kept { (found : List StoreRecord)
        → IsExactly (F.chip flash.old) (record { journal = journal.old; persist = persist.now }) found
        → OnOk result (IsStoreOf (F.chip flash.new) (record { journal = journal.new; persist = persist.now }) found) }
    ensures any_moment { (found : List StoreRecord)
        → IsExactly (F.chip flash.old) (record { journal = journal.old; persist = persist.now }) found
        → LeavesOnly (F.chip flash.old) (F.chip flash.new) (IsHeld found) }
    ensures costs { CostsCalls (compaction persist.now) result (F.chip flash.old) (F.chip flash.new) }
    ensures leaves { LeavesFlash result (F.chip flash.old) (F.chip flash.new) }
{
    let mut names = Names::new();
    put_names(&mut names, persist);
    let slots = snapshot(persist, names.as_slice());
    match journal.compact(flash, &slots) {
        Ok(()) => Ok(()),
        Err(_) => Err(FlashFailed),
    }
}

impl Store {
    /// Compacts where all slots of the bank are used.
    pub(crate) fn make_room<F: Flash>(&mut self, flash: &mut F) -> Result<(), FlashFailed>
        requires usable { self.old.journal.closed ≡ false }
        ensures stays { self.new.persist ≡ self.old.persist }
        ensures usable { OnOk result (self.new.journal.closed ≡ false) }
        ensures used { OnOk result (self.new.journal.used ≡ used_with_room self.old) }
        ensures room { OnOk result (self.new.journal.used < 1023) }
        ensures closed { OnErr result (self.new.journal.closed ≡ true) }
        ensures cause { OnErr result ((F.chip flash.old).faults < (F.chip flash.new).faults) }
        ensures sure { IsTrue (F.chip flash.old).sure → IsOk result }
        ensures kept { (records : List StoreRecord) → IsStoreOf (F.chip flash.old) self.old records
            → OnOk result (IsStoreOf (F.chip flash.new) self.new records) }
        ensures any_moment { (records : List StoreRecord) → IsStoreOf (F.chip flash.old) self.old records
            → LeavesOnly (F.chip flash.old) (F.chip flash.new) (IsHeld records) }
        ensures costs { CostsCalls (room_of self.old) result (F.chip flash.old) (F.chip flash.new) }
        ensures bounded { (room_of self.old).calls ≤ COMPACTION_CALLS }
        ensures leaves { LeavesFlash result (F.chip flash.old) (F.chip flash.new) }
    {
        if self.journal.used() < BANK_RECORDS {
            return Ok(());
        }
        compact(&mut self.journal, &self.persist, flash)
    }

    /// Adds a record, for which there is a slot and a place.
    pub(crate) fn add<F: Flash>(
        &mut self,
        flash: &mut F,
        item: &StoreRecord,
    ) -> Result<(), FlashFailed>
        requires range { IsInRange item.now }
        requires rises { IsNotBelow self.old.persist item.now }
        requires place { ¬ IsFull self.old.persist item.now }
        requires usable { self.old.journal.closed ≡ false }
        requires room { self.old.journal.used < 1023 }
        ensures puts { OnOk result (Puts (item.now ∷ []) (F.chip flash.old) (F.chip flash.new) self.old self.new) }
        ensures used { OnOk result (self.new.journal.used ≡ self.old.journal.used + 1) }
        ensures refused { OnErr result (self.new.persist ≡ self.old.persist) }
        ensures closed { OnErr result (self.new.journal.closed ≡ true) }
        ensures cause { OnErr result ((F.chip flash.old).faults < (F.chip flash.new).faults) }
        ensures sure { IsTrue (F.chip flash.old).sure → IsOk result }
        ensures any_moment { (records : List StoreRecord) → IsStoreOf (F.chip flash.old) self.old records
            → LeavesOnly (F.chip flash.old) (F.chip flash.new) (IsPut records item.now) }
        ensures costs { CostsCalls (only_slots 1) result (F.chip flash.old) (F.chip flash.new) }
        ensures leaves { LeavesFlash result (F.chip flash.old) (F.chip flash.new) }
    {
        let slot = encode(item);
        let Ok(()) = self.journal.append(flash, &slot) else {
            return Err(FlashFailed);
        };
        self.persist.apply(item).unwrap();
        Ok(())
    }
}
