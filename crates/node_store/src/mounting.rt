// A store is found again on its flash.
ghost use Rattle.std.specs.Prelude.{◌≡◌, ◌↔◌, ◌⊎◌, ℕ, ◌+◌, ◌<◌, ◌≤◌, List, Err, false, IsTrue, IsOk, IfOk, IfErr, OnOk, OnErr};
ghost use Rattle.flash_model.specs.Arming.{Begins, BeginsAtMost, Erases, ErasesAtMost, FailsOnce, Programs, ProgramsAtMost, ReadsAtMost};
ghost use Rattle.flash_model.specs.Chip.{IsFresh, Keeps, LeavesOnly, Stays, count_of};
ghost use Rattle.node_limits.specs.declared.TheConstants.{BANK_RECORDS};
ghost use Rattle.record_types.specs.declared.records.StoreRecord.{StoreRecord};
ghost use Rattle.node_records.specs.Meaning.{DoesNotFall, IsSaid};
ghost use Rattle.slot_definitions.specs.Slots.{HasFormat};
ghost use Rattle.slot_journal.specs.Headers.{IsTidy};
ghost use Rattle.store_definitions.specs.Config.{config_of};
ghost use Rattle.store_definitions.specs.Wear.{COMPACTION_OCTETS, MOUNT_READS};
ghost use Rattle.node_store.specs.declared.mounting.StoreFault.{StoreFault};
ghost use Rattle.node_store.specs.Calls.{IsOpenedWith, compaction};
ghost use Rattle.node_store.specs.Causes.{IsFoundAs, IsNotFlash, IsReadCause, IsReset, IsSlotCause, IsStoreCause};
ghost use Rattle.node_store.specs.Mounted.{AreSaid, IsMounted, IsRefused, IsTaken};
ghost use Rattle.node_store.specs.Tie.{HasMark, Holds, IsExactly, IsHeld, IsStoreOf};
ghost use Rattle.node_store.specs.Writing.{CostsCalls};

use crate::room::compact;
use crate::store::Store;
use flash_model::{Flash, FlashFailed};
use mesh_base::slot::Slot;
use node_limits::{BANK_SECTORS, COMPACTION_CALLS, SNAPSHOT_RECORDS};
use node_records::Persist;
use record_texts::decode;
use record_types::records::StoreRecord;
use slot_journal::{Journal, NoMount};
use thiserror::Error;

/// The format of a bank whose Replay records have one name each.
const OLD_FORMAT: u8 = 1;

/// Why no store was mounted. Of several that hold the first is answered.
#[derive(Clone, Copy, Debug, PartialEq, Eq, Error)]
pub enum StoreFault {
    /// The flash failed in this call.
    #[error("the flash failed")]
    Flash,
    /// No bank has a sound header.
    #[error("no node was provisioned")]
    NoNode,
    /// A slot with gate 00 is no record, would make a table grow past its size, or lowers the known IV Index. `slot` is the number of the
    /// first such slot in its bank, from 1 to 1,023.
    #[error("slot {slot} is damaged")]
    Damaged { slot: u32 },
    /// There was a Node Reset.
    #[error("the node was reset")]
    WasReset,
}

impl From<FlashFailed> for StoreFault {
    ghost use Rattle.std.specs.Prelude.{◌≡◌};
    ghost use Rattle.node_store.specs.declared.mounting.StoreFault.TheVariants.{Flash};

    ghost from_gives = { λ _ e. e ≡ Flash };

    fn from(_: FlashFailed) -> Self {
        StoreFault::Flash
    }
}

impl From<NoMount> for StoreFault {
    ghost use Rattle.std.specs.Prelude.{◌≡◌};
    ghost use Rattle.node_store.specs.Faults.{store_fault_of};

    ghost from_gives = { λ fault e. e ≡ store_fault_of fault };

    fn from(fault: NoMount) -> Self {
        match fault {
            NoMount::Flash => StoreFault::Flash,
            NoMount::NoBank => StoreFault::NoNode,
        }
    }
}

impl Store {
    /// Finds the store of a node on its flash: it reads the headers and each slot of the bank. A bank of format 01 is migrated: the records
    /// that say the same are written into the other bank, in format 02 (`kept`, `any_moment`). Else it writes nothing (`stays`), nor where any of
    /// the errors below has a cause in what the flash holds, also where the flash fails before that is found (`finding`, `reset`).
    ///
    /// # Errors
    ///
    /// Of several that hold the first is answered (`exact`), and each is answered only where it holds (`cause`); after each but `Flash` the
    /// flash is as it was (`unchanged`).
    ///
    /// - `NoNode` where no bank has a sound header.
    /// - `Damaged` where a gated slot of the bank that counts is no record that may follow those before it; the first such slot is told.
    /// - `WasReset` where a Reset record is among the records.
    /// - `Flash` where the flash failed in this call. Give power again and mount once more.
    ///
    /// # Asks
    ///
    /// Nothing of any flash. Of the clauses with premises, a flash that went through a power cycle is fresh (`fresh` of `power_cycle`), and
    /// what any call on a journal or a store leaves of an erased flash is tidy.
    pub fn mount<F: Flash>(flash: &mut F) -> Result<Self, StoreFault>
        ensures cause { IfErr result (IsStoreCause (F.chip flash.old) (F.chip flash.new)) }
        ensures exact { IsTrue (F.chip flash.old).honest → (fault : StoreFault) → IsFoundAs (F.chip flash.old).now fault
            → (result ≡ Err StoreFault.Flash) ⊎ (result ≡ Err fault) }
        ensures mounted { IsTrue (F.chip flash.old).honest
            → IfOk result (λ s. IsMounted (F.chip flash.old).now s.persist) }
        ensures unchanged { IsTrue (F.chip flash.old).honest
            → IfErr result (λ e. IsNotFlash e → Stays (F.chip flash.old) (F.chip flash.new)) }
        ensures stays { IsTrue (F.chip flash.old).honest → ¬ HasFormat 1 (F.chip flash.old).now
            → Stays (F.chip flash.old) (F.chip flash.new) }
        ensures reset { IsTrue (F.chip flash.old).honest → IsReset (F.chip flash.old).now
            → Stays (F.chip flash.old) (F.chip flash.new)
            × (count_of (F.chip flash.new) ≡ count_of (F.chip flash.old)) }
        // whatever is answered
        ensures finding { IsTrue (F.chip flash.old).honest → (fault : StoreFault) → IsFoundAs (F.chip flash.old).now fault
            → Stays (F.chip flash.old) (F.chip flash.new)
            × (count_of (F.chip flash.new) ≡ count_of (F.chip flash.old)) }

        // Of a flash that holds records.
        ensures kept { IsFresh (F.chip flash.old) → IsTidy (F.chip flash.old).now → (records : List StoreRecord)
            → Holds (F.chip flash.old).now records → IfOk result (λ s. IsStoreOf (F.chip flash.new) s records) }
        ensures any_moment { IsFresh (F.chip flash.old) → IsTidy (F.chip flash.old).now → (records : List StoreRecord)
            → Holds (F.chip flash.old).now records → LeavesOnly (F.chip flash.old) (F.chip flash.new) (IsHeld records) }
        ensures same_mark { IsFresh (F.chip flash.old) → IsTidy (F.chip flash.old).now → (records : List StoreRecord)
            → Holds (F.chip flash.old).now records
            → LeavesOnly (F.chip flash.old) (F.chip flash.new) (HasMark (config_of records).mark) }

        // the program and erase calls of a compaction where the bank has format 01, and else none
        ensures calls { IsTrue (F.chip flash.old).honest
            → HasFormat 1 (F.chip flash.old).now
            → IfOk result
            (λ s. Begins (compaction s.persist).calls (F.chip flash.old) (F.chip flash.new)
            × Erases (compaction s.persist).erases (F.chip flash.old) (F.chip flash.new)
            × Programs (compaction s.persist).octets (F.chip flash.old) (F.chip flash.new)) }
        ensures most_calls { BeginsAtMost COMPACTION_CALLS (F.chip flash.old) (F.chip flash.new) }
        ensures most_erases { ErasesAtMost BANK_SECTORS (F.chip flash.old) (F.chip flash.new) }
        ensures most_octets { ProgramsAtMost COMPACTION_OCTETS (F.chip flash.old) (F.chip flash.new) }
        ensures most_reads { ReadsAtMost MOUNT_READS (F.chip flash.old) (F.chip flash.new) }
        ensures no_calls { IsTrue (F.chip flash.old).honest
            → ¬ HasFormat 1 (F.chip flash.old).now → count_of (F.chip flash.new) ≡ count_of (F.chip flash.old) }
        ensures wear { IsTrue (F.chip flash.old).honest
            → IfOk result
            (λ s. IsOpenedWith (F.chip flash.old).now (count_of (F.chip flash.old)) (count_of (F.chip flash.new)) s.journal.used) }

        // of every flash, honest or not
        ensures usable { IfOk result (λ s. s.journal.closed ≡ false) }
        ensures format { IfOk result (λ s. s.journal.version ≡ 2) }
        ensures no_fault { OnOk result ((F.chip flash.new).faults ≡ (F.chip flash.old).faults) }
        ensures once { FailsOnce (F.chip flash.old) (F.chip flash.new) }
        ensures refused { IfErr result
            (λ e. IsNotFlash e
            → ((F.chip flash.new).faults ≡ (F.chip flash.old).faults)
            × (count_of (F.chip flash.new) ≡ count_of (F.chip flash.old))) }
        ensures sure { IsTrue (F.chip flash.old).sure → IfErr result IsNotFlash }
        ensures frame { Keeps (F.chip flash.old) (F.chip flash.new) }
    {
        let journal = Journal::mount(flash)?;
        let persist = read_records(&journal, flash)?;
        if persist.reset {
            return Err(StoreFault::WasReset);
        }
        let journal = migrated(journal, &persist, flash)?;
        Ok(Store { journal, persist })
    }
}

/// A journal in format 02: one of format 01 is compacted to the records that say its value anew.
fn migrated<F: Flash>(
    journal: Journal,
    persist: &Persist,
    flash: &mut F,
) -> Result<Journal, FlashFailed>
    requires said { IsSaid persist.now }
    requires usable { journal.closed ≡ false }
    ensures format { IfOk result (λ j. j.version ≡ 2) }
    ensures room { journal.version ≡ 1 → IfOk result (λ j. j.used ≤ SNAPSHOT_RECORDS) }
    ensures usable { IfOk result (λ j. j.closed ≡ false) }
    ensures kept { (found : List StoreRecord)
        → IsExactly (F.chip flash.old) (record { journal = journal; persist = persist.now }) found
        → IfOk result (λ j. IsStoreOf (F.chip flash.new) (record { journal = j; persist = persist.now }) found) }
    ensures any_moment { (found : List StoreRecord)
        → IsExactly (F.chip flash.old) (record { journal = journal; persist = persist.now }) found
        → LeavesOnly (F.chip flash.old) (F.chip flash.new) (IsHeld found) }
    ensures unchanged { ¬ journal.version ≡ 1 → flash.new ≡ flash.old }
    ensures used { ¬ journal.version ≡ 1 → IfOk result (λ j. j.used ≡ journal.used) }
    ensures costs { journal.version ≡ 1
        → CostsCalls (compaction persist.now) result (F.chip flash.old) (F.chip flash.new) }
    ensures most_calls { BeginsAtMost COMPACTION_CALLS (F.chip flash.old) (F.chip flash.new) }
    ensures most_erases { ErasesAtMost BANK_SECTORS (F.chip flash.old) (F.chip flash.new) }
    ensures most_octets { ProgramsAtMost COMPACTION_OCTETS (F.chip flash.old) (F.chip flash.new) }
    ensures reads { (F.chip flash.new).reads ≡ (F.chip flash.old).reads }
    ensures no_fault { OnOk result ((F.chip flash.new).faults ≡ (F.chip flash.old).faults) }
    ensures cause { OnErr result ((F.chip flash.old).faults < (F.chip flash.new).faults) }
    ensures once { FailsOnce (F.chip flash.old) (F.chip flash.new) }
    ensures sure { IsTrue (F.chip flash.old).sure → IsOk result }
    ensures frame { Keeps (F.chip flash.old) (F.chip flash.new) }
{
    if journal.version() != OLD_FORMAT {
        return Ok(journal);
    }
    let mut journal = journal;
    compact(&mut journal, persist, flash)?;
    Ok(journal)
}

/// What the records of the gated slots of a journal say, up to its last used slot.
pub(crate) fn read_records<F: Flash>(
    journal: &Journal,
    flash: &mut F,
) -> Result<Persist, StoreFault>
    ensures cause { IfErr result (IsReadCause (F.chip flash.old) (F.chip flash.new) journal.now) }
    ensures value { IsTrue (F.chip flash.old).honest
        → IfOk result (AreSaid (F.chip flash.old).now journal.now.bank journal.now.version journal.now.used) }
    ensures said { IfOk result IsSaid }
    ensures stays { IsTrue (F.chip flash.old).honest → Stays (F.chip flash.old) (F.chip flash.new) }
    ensures calls { (F.chip flash.new).changes ≡ (F.chip flash.old).changes }
    ensures unerased { (F.chip flash.new).erases ≡ (F.chip flash.old).erases }
    ensures unprogrammed { (F.chip flash.new).octets ≡ (F.chip flash.old).octets }
    ensures most_reads { ReadsAtMost BANK_RECORDS (F.chip flash.old) (F.chip flash.new) }
    ensures no_fault { OnOk result ((F.chip flash.new).faults ≡ (F.chip flash.old).faults) }
    ensures once { FailsOnce (F.chip flash.old) (F.chip flash.new) }
    ensures refused { IfErr result (λ e. IsNotFlash e → (F.chip flash.new).faults ≡ (F.chip flash.old).faults) }
    ensures sure { IsTrue (F.chip flash.old).sure → IfErr result IsNotFlash }
    ensures frame { Keeps (F.chip flash.old) (F.chip flash.new) }
{
    let mut persist = Persist::new();
    for k in 0..journal.used() {
        read_slot(journal, flash, k + 1, &mut persist)?;
    }
    Ok(persist)
}

/// One more slot of a journal, number `n`.
fn read_slot<F: Flash>(
    journal: &Journal,
    flash: &mut F,
    n: u32,
    persist: &mut Persist,
) -> Result<(), StoreFault>
    requires some { 0 < n }
    requires within { n ≤ journal.now.used }
    requires few { journal.now.used ≤ 1023 }
    ensures cause { IfErr result (IsSlotCause (F.chip flash.old) (F.chip flash.new) journal.now n persist.old) }
    ensures value { IsTrue (F.chip flash.old).honest → (k : ℕ) → n ≡ k + 1
        → AreSaid (F.chip flash.old).now journal.now.bank journal.now.version k persist.old
        → OnOk result (AreSaid (F.chip flash.old).now journal.now.bank journal.now.version n persist.new) }
    ensures said { IsSaid persist.old → IsSaid persist.new }
    ensures stays { IsTrue (F.chip flash.old).honest → Stays (F.chip flash.old) (F.chip flash.new) }
    ensures calls { (F.chip flash.new).changes ≡ (F.chip flash.old).changes }
    ensures unerased { (F.chip flash.new).erases ≡ (F.chip flash.old).erases }
    ensures unprogrammed { (F.chip flash.new).octets ≡ (F.chip flash.old).octets }
    ensures most_reads { ReadsAtMost 1 (F.chip flash.old) (F.chip flash.new) }
    ensures no_fault { OnOk result ((F.chip flash.new).faults ≡ (F.chip flash.old).faults) }
    ensures once { FailsOnce (F.chip flash.old) (F.chip flash.new) }
    ensures refused { IfErr result (λ e. IsNotFlash e → (F.chip flash.new).faults ≡ (F.chip flash.old).faults) }
    ensures sure { IsTrue (F.chip flash.old).sure → IfErr result IsNotFlash }
    ensures frame { Keeps (F.chip flash.old) (F.chip flash.new) }
{
    let Some(slot) = journal.slot(flash, n)? else {
        return Ok(());
    };
    take(persist, n, &slot, journal.version())
}

/// One more record: what slot `n` holds, if a record that may follow the others has its text.
fn take(persist: &mut Persist, n: u32, slot: &Slot, format: u8) -> Result<(), StoreFault>
    ensures taken { OnOk result (IsTaken format persist.old slot.now persist.new) }
    ensures said { IsSaid persist.old → IsSaid persist.new }
    ensures damaged { OnErr result ((result ≡ Err (StoreFault.Damaged n)) × IsRefused format persist.old slot.now) }
{
    let damaged = StoreFault::Damaged { slot: n };
    let Ok(item) = decode(slot, format) else {
        return Err(damaged);
    };
    if !rises(persist, &item) {
        return Err(damaged);
    }
    match persist.apply(&item) {
        Ok(()) => Ok(()),
        Err(_) => Err(damaged),
    }
}

/// Whether a record keeps the known IV Index, or raises it.
fn rises(persist: &Persist, item: &StoreRecord) -> bool
    ensures { IsTrue result ↔ DoesNotFall persist.now item.now }
{
    match item {
        StoreRecord::Numbers { current, .. } => *current >= persist.iv.current,
        _ => true,
    }
}
