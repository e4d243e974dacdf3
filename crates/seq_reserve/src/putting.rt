//! A Numbers record is put.
#![tactic(auto)]

ghost use Rattle.std.specs.Prelude.{◌≡◌, ℕ, ◌+◌, List, [], ◌∷◌, true, false, Err, OnOk, OnErr};
ghost use Rattle.flash_model.specs.Chip.{count_of};
ghost use Rattle.mesh_world.specs.World.{World};
ghost use Rattle.mesh_world.specs.World.WorldStep.{Reserve};
ghost use Rattle.node_records.specs.Meaning.{IsSaid};
ghost use Rattle.node_store.specs.Calls.{calls_of, used_with_room};
ghost use Rattle.node_store.specs.Tie.{IsNotBelow, IsPut, IsStoreOf};
ghost use Rattle.node_store.specs.Writing.{CostsCalls, CutLeaves, FailsAtFlash, LeavesFlash, OnlyAnswers, Puts};
ghost use Rattle.record_types.specs.declared.records.StoreRecord.{StoreRecord};
ghost use Rattle.record_types.specs.declared.records.StoreRecord.TheVariants as R;
ghost use Rattle.seq_reserve.specs.Reserving.{IsDurable, IsNumbers, numbers_step};
ghost use Rattle.store_definitions.specs.Ranges.{IsInRange};
ghost use Rattle.store_definitions.specs.Wear.{CostsAndUses, CostsAtMost};
ghost use Rattle.store_world.specs.Standing.{GoesBy, IsWorldOf};

use crate::keep_fault::KeepFault;
use flash_model::Flash;
use node_store::Store;
use record_types::records::StoreRecord;

/// Puts a Numbers record. It adds to no table, so no limit refuses it.
pub(crate) fn put_numbers<F: Flash>(
    store: &mut Store,
    flash: &mut F,
    item: &StoreRecord,
) -> Result<(), KeepFault>
    requires numbers { IsNumbers item.now }
    requires range { IsInRange item.now }
    requires rises { IsNotBelow store.old.persist item.now }
    requires said { IsSaid store.old.persist }

    ensures closed { store.old.journal.closed ≡ true
        → OnlyAnswers result (Err KeepFault.Closed) store.old store.new flash.old flash.new }
    ensures fails { store.old.journal.closed ≡ false
        → FailsAtFlash result KeepFault.Flash (F.chip flash.old) (F.chip flash.new) store.new }
    ensures refused { OnErr result (store.new.persist ≡ store.old.persist) }
    ensures puts { OnOk result (Puts (item.now ∷ []) (F.chip flash.old) (F.chip flash.new) store.old store.new) }
    ensures used { OnOk result (store.new.journal.used ≡ used_with_room store.old + 1) }
    ensures steps { (w : World) (published : ℕ) → IsWorldOf w store.old.persist published
        → OnOk result (GoesBy (numbers_step item.now) w store.new.persist published) }
    ensures cut { CutLeaves (λ records. IsPut records item.now) (F.chip flash.old) (F.chip flash.new) store.old }
    ensures safe { (records : List StoreRecord) → IsStoreOf (F.chip flash.old) store.old records
        → IsDurable (F.chip flash.new) store.old.persist.mark }
    ensures durable { (records : List StoreRecord) → IsStoreOf (F.chip flash.old) store.old records
        → OnOk result (IsDurable (F.chip flash.new) store.new.persist.mark) }
    ensures costs { CostsCalls (calls_of store.old) result (F.chip flash.old) (F.chip flash.new) }
    ensures wear { OnOk result
        (CostsAndUses store.old.journal.used 1 (count_of (F.chip flash.old)) (count_of (F.chip flash.new))
        store.new.journal.used) }
    ensures most_wear { CostsAtMost store.old.journal.used 1 (count_of (F.chip flash.old)) (count_of (F.chip flash.new)) }
    ensures leaves { LeavesFlash result (F.chip flash.old) (F.chip flash.new) }
{
    store.put(flash, item)?;
    Ok(())
}
