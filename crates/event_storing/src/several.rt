//! The records of an event are put, one after another.
#![tactic(auto)]

ghost use Rattle.std.specs.Prelude.{◌≡◌, ◌≢◌, ℕ, ◌+◌, ◌*◌, ◌≤◌, List, [], ◌++◌, length, true, false, Ok, Err, OnErr, OnOk};
ghost use Rattle.flash_model.specs.Chip.{count_of};
ghost use Rattle.event_records.specs.Putting.{AreMoves, ArePuttable};
ghost use Rattle.event_storing.specs.Storing.{HasRisen, advances_of, moved_to};
ghost use Rattle.node_records.specs.Meaning.{IsSaid};
ghost use Rattle.node_records.specs.Tables.{config_in};
ghost use Rattle.node_store.specs.Calls.{only_slots};
ghost use Rattle.node_store.specs.Several.{CostsEach, CostsSome};
ghost use Rattle.node_store.specs.Tie.{IsFront, IsStoreOf};
ghost use Rattle.node_store.specs.Writing.{CostsCalls, CutLeaves, FailsAtFlash, LeavesFlash, OnlyAnswers, Puts};
ghost use Rattle.record_types.specs.declared.records.StoreRecord.{StoreRecord};
ghost use Rattle.seq_reserve.specs.Reserving.{IsDurable, IsPublished};
ghost use Rattle.store_definitions.specs.Wear.{CostsAndUses, CostsAtMost};

use crate::one::store_one;
use event_records::Records;
use flash_model::Flash;
use node_store::Store;
use record_types::records::StoreRecord;
use seq_reserve::{KeepFault, Reserve};
use seq_word::Numbers;

/// That what a store says is the meaning of records in range, as a clause that a proof can cite.
fn says(store: &Store)
    ensures said { IsSaid store.now.persist }
{
    store.persist();
}

/// Puts records behind the others, one after another, where the store takes records.
fn store_each<F: Flash>(
    reserve: &mut Reserve,
    n: &Numbers,
    flash: &mut F,
    items: &[StoreRecord],
) -> Result<(), KeepFault>
    requires made { reserve.old.keeper.which ≡ n.now.which }
    requires published { IsPublished reserve.old.store reserve.old.keeper }
    requires usable { reserve.old.store.journal.closed ≡ false }
    requires said { IsSaid reserve.old.store.persist }
    requires may { ArePuttable reserve.old.store.persist items.now }
    requires moves { AreMoves (config_in reserve.old.store.persist) items.now }

    ensures fails { FailsAtFlash result KeepFault.Flash (F.chip flash.old) (F.chip flash.new) reserve.new.store }
    ensures puts { OnOk result
        (Puts items.now (F.chip flash.old) (F.chip flash.new) reserve.old.store reserve.new.store) }
    ensures advanced { OnOk result
        (moved_to reserve.new.keeper
        ≡ moved_to reserve.old.keeper ++ advances_of (config_in reserve.old.store.persist) items.now) }
    ensures risen { OnOk result (HasRisen reserve.old.keeper reserve.new.keeper) }
    ensures cut { CutLeaves (λ records. IsFront records items.now) (F.chip flash.old) (F.chip flash.new)
        reserve.old.store }
    ensures durable { (records : List StoreRecord) → IsStoreOf (F.chip flash.old) reserve.old.store records
        → IsDurable (F.chip flash.new) reserve.new.keeper.mark }
    // each record costs what a put of it does, where those before it were put
    ensures each { OnOk result
        (CostsEach items.now (F.chip flash.old) (F.chip flash.new) reserve.old.store reserve.new.store) }
    // and where the flash fails, each image holds those that were put before, or one more
    ensures some { OnErr result
        (CostsSome items.now (F.chip flash.old) (F.chip flash.new) reserve.old.store reserve.new.store) }
    // two program calls of 32 octets together for each record where there is room for all, and else those of compactions besides
    ensures costs { reserve.old.store.journal.used + length items.now ≤ 1023
        → CostsCalls (only_slots (length items.now)) result (F.chip flash.old) (F.chip flash.new) }
    ensures wear { OnOk result
        (CostsAndUses reserve.old.store.journal.used (length items.now) (count_of (F.chip flash.old)) (count_of (F.chip flash.new))
        reserve.new.store.journal.used) }
    ensures most_wear { CostsAtMost reserve.old.store.journal.used (length items.now) (count_of (F.chip flash.old))
        (count_of (F.chip flash.new)) }
    ensures leaves { LeavesFlash result (F.chip flash.old) (F.chip flash.new) }
    // for the next call
    ensures published { IsPublished reserve.new.store reserve.new.keeper }
    ensures made { reserve.new.keeper.which ≡ reserve.old.keeper.which }
{
    for item in items {
        store_one(reserve, n, flash, item)?;
    }
    Ok(())
}

/// Puts the records of an event behind the others, in their order; the record of a new IV state through the reserve, which publishes its
/// mark and moves the counter once it is durable. At `Ok` all are durable. The first that isn't put ends it: `Closed` where an earlier
/// write failed, and `Flash` where the flash failed in this call, which closes the store. Never does a table have no place.
///
/// In every image that a cut at any moment leaves, and in each that stands after the call whatever its result, the records say what those of
/// before say with the first few of the new ones behind them. So the mark that is recovered doesn't fall, and it is never below the keeper's.
///
/// `n` was made with this reserve. Each record may be put behind those before it, and each Numbers record is a move to an IV state that may
/// follow; the functions of `event_records` give both. Of the clauses on content, the store is one of this flash.
pub fn store_records<F: Flash>(
    reserve: &mut Reserve,
    n: &Numbers,
    flash: &mut F,
    records: &Records,
) -> Result<(), KeepFault>
    requires made { reserve.old.keeper.which ≡ n.now.which }
    requires published { IsPublished reserve.old.store reserve.old.keeper }
    requires may { ArePuttable reserve.old.store.persist records.now }
    requires moves { AreMoves (config_in reserve.old.store.persist) records.now }

    ensures closed { reserve.old.store.journal.closed ≡ true → records.now ≢ []
        → OnlyAnswers result (Err KeepFault.Closed) reserve.old reserve.new flash.old flash.new }
    ensures none { records.now ≡ [] → OnlyAnswers result (Ok tt) reserve.old reserve.new flash.old flash.new }
    ensures fails { reserve.old.store.journal.closed ≡ false
        → FailsAtFlash result KeepFault.Flash (F.chip flash.old) (F.chip flash.new) reserve.new.store }
    ensures puts { reserve.old.store.journal.closed ≡ false
        → OnOk result
        (Puts records.now (F.chip flash.old) (F.chip flash.new) reserve.old.store reserve.new.store) }
    ensures advanced { OnOk result
        (moved_to reserve.new.keeper
        ≡ moved_to reserve.old.keeper ++ advances_of (config_in reserve.old.store.persist) records.now) }
    ensures risen { OnOk result (HasRisen reserve.old.keeper reserve.new.keeper) }
    ensures cut { CutLeaves (λ before. IsFront before records.now) (F.chip flash.old) (F.chip flash.new)
        reserve.old.store }
    ensures fronts { (before : List StoreRecord) → IsStoreOf (F.chip flash.old) reserve.old.store before
        → (image : List ℕ) → (F.chip flash.new).images image → IsFront before records.now image }
    ensures durable { (before : List StoreRecord) → IsStoreOf (F.chip flash.old) reserve.old.store before
        → IsDurable (F.chip flash.new) reserve.new.keeper.mark }
    // each record costs what a put of it does, where those before it were put
    ensures each { reserve.old.store.journal.closed ≡ false
        → OnOk result
        (CostsEach records.now (F.chip flash.old) (F.chip flash.new) reserve.old.store reserve.new.store) }
    // and where the flash fails, each image holds those that were put before, or one more
    ensures some { reserve.old.store.journal.closed ≡ false
        → OnErr result
        (CostsSome records.now (F.chip flash.old) (F.chip flash.new) reserve.old.store reserve.new.store) }
    // two program calls of 32 octets together for each record where there is room for all, and else those of compactions besides
    ensures costs { reserve.old.store.journal.used + length records.now ≤ 1023
        → CostsCalls (only_slots (length records.now)) result (F.chip flash.old) (F.chip flash.new) }
    ensures wear { reserve.old.store.journal.closed ≡ false
        → OnOk result
        (CostsAndUses reserve.old.store.journal.used (length records.now) (count_of (F.chip flash.old)) (count_of (F.chip flash.new))
        reserve.new.store.journal.used) }
    ensures most_wear { CostsAtMost reserve.old.store.journal.used (length records.now) (count_of (F.chip flash.old))
        (count_of (F.chip flash.new)) }
    ensures leaves { LeavesFlash result (F.chip flash.old) (F.chip flash.new) }
    // for the next call
    ensures published { IsPublished reserve.new.store reserve.new.keeper }
    ensures made { reserve.new.keeper.which ≡ reserve.old.keeper.which }
{
    if records.is_empty() {
        return Ok(());
    }
    if reserve.store.is_closed() {
        return Err(KeepFault::Closed);
    }
    says(&reserve.store);
    store_each(reserve, n, flash, records.as_slice())
}
