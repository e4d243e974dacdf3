//! One record is put.
#![tactic(auto)]

ghost use Rattle.std.specs.Prelude.{◌≡◌, ◌+◌, List, [], ◌∷◌, ◌++◌, false, OnErr, OnOk};
ghost use Rattle.flash_model.specs.Chip.{count_of};
ghost use Rattle.event_records.specs.Putting.{IsMove};
ghost use Rattle.event_storing.specs.Storing.{HasRisen, advance_to, moved_to, state_said};
ghost use Rattle.node_records.specs.Full.{IsFull};
ghost use Rattle.node_records.specs.Tables.{config_in};
ghost use Rattle.node_store.specs.Calls.{calls_of, used_with_room};
ghost use Rattle.node_store.specs.Tie.{IsNoNumbers, IsPut, IsStoreOf};
ghost use Rattle.node_store.specs.Writing.{CostsCalls, CutLeaves, FailsAtFlash, LeavesFlash, Puts};
ghost use Rattle.record_types.specs.declared.records.StoreRecord.{StoreRecord};
ghost use Rattle.seq_reserve.specs.Reserving.{IsDurable, IsPublished};
ghost use Rattle.store_definitions.specs.Ranges.{IsInRange};
ghost use Rattle.store_definitions.specs.Wear.{CostsAndUses, CostsAtMost};

use flash_model::Flash;
use mesh_base::iv_state::IvState;
use record_types::records::StoreRecord;
use seq_reserve::{KeepFault, Reserve};
use seq_word::Numbers;

/// The IV state that a Numbers record says.
fn state(item: &StoreRecord) -> Option<IvState>
    ensures value { result ≡ state_said item.now }
{
    match item {
        StoreRecord::Numbers {
            current,
            progress,
            hours,
            since,
            ..
        } => Some(IvState {
            current: *current,
            progress: *progress,
            hours: *hours,
            since: *since,
        }),
        _ => None,
    }
}

/// Puts a record that says no mark. The store takes records and the record's table has a place, so only the flash can fail.
fn put_other<F: Flash>(
    reserve: &mut Reserve,
    flash: &mut F,
    item: &StoreRecord,
) -> Result<(), KeepFault>
    requires published { IsPublished reserve.old.store reserve.old.keeper }
    requires usable { reserve.old.store.journal.closed ≡ false }
    requires none { IsNoNumbers item.now }
    requires range { IsInRange item.now }
    requires place { IsFull reserve.old.store.persist item.now → ⊥ }

    ensures fails { FailsAtFlash result KeepFault.Flash (F.chip flash.old) (F.chip flash.new) reserve.new.store }
    ensures puts { OnOk result
        (Puts (item.now ∷ []) (F.chip flash.old) (F.chip flash.new) reserve.old.store reserve.new.store) }
    ensures refused { OnErr result (reserve.new.store.persist ≡ reserve.old.store.persist) }
    ensures used { OnOk result (reserve.new.store.journal.used ≡ used_with_room reserve.old.store + 1) }
    ensures cut { CutLeaves (λ records. IsPut records item.now) (F.chip flash.old) (F.chip flash.new) reserve.old.store }
    ensures durable { (records : List StoreRecord) → IsStoreOf (F.chip flash.old) reserve.old.store records
        → IsDurable (F.chip flash.new) reserve.new.keeper.mark }
    ensures costs { CostsCalls (calls_of reserve.old.store) result (F.chip flash.old) (F.chip flash.new) }
    ensures keeper { reserve.new.keeper ≡ reserve.old.keeper }
    ensures wear { OnOk result
        (CostsAndUses reserve.old.store.journal.used 1 (count_of (F.chip flash.old)) (count_of (F.chip flash.new))
        reserve.new.store.journal.used) }
    ensures most_wear { CostsAtMost reserve.old.store.journal.used 1 (count_of (F.chip flash.old))
        (count_of (F.chip flash.new)) }
    ensures leaves { LeavesFlash result (F.chip flash.old) (F.chip flash.new) }
    // for the next call
    ensures published { IsPublished reserve.new.store reserve.new.keeper }
{
    reserve.store.put(flash, item)?;
    Ok(())
}

/// Puts a record behind the others: that of a new IV state through the reserve, any other into the store alone. The store takes records, the
/// record may be put, and `n` was made with this reserve.
pub(crate) fn store_one<F: Flash>(
    reserve: &mut Reserve,
    n: &Numbers,
    flash: &mut F,
    item: &StoreRecord,
) -> Result<(), KeepFault>
    requires made { reserve.old.keeper.which ≡ n.now.which }
    requires published { IsPublished reserve.old.store reserve.old.keeper }
    requires usable { reserve.old.store.journal.closed ≡ false }
    requires range { IsInRange item.now }
    requires place { IsFull reserve.old.store.persist item.now → ⊥ }
    requires moves { IsMove (config_in reserve.old.store.persist) item.now }

    ensures fails { FailsAtFlash result KeepFault.Flash (F.chip flash.old) (F.chip flash.new) reserve.new.store }
    ensures puts { OnOk result
        (Puts (item.now ∷ []) (F.chip flash.old) (F.chip flash.new) reserve.old.store reserve.new.store) }
    ensures refused { OnErr result (reserve.new.store.persist ≡ reserve.old.store.persist) }
    ensures used { OnOk result (reserve.new.store.journal.used ≡ used_with_room reserve.old.store + 1) }
    ensures advanced { OnOk result
        (moved_to reserve.new.keeper
        ≡ moved_to reserve.old.keeper ++ advance_to (config_in reserve.old.store.persist) (state_said item.now)) }
    ensures risen { OnOk result (HasRisen reserve.old.keeper reserve.new.keeper) }
    ensures cut { CutLeaves (λ records. IsPut records item.now) (F.chip flash.old) (F.chip flash.new) reserve.old.store }
    ensures durable { (records : List StoreRecord) → IsStoreOf (F.chip flash.old) reserve.old.store records
        → IsDurable (F.chip flash.new) reserve.new.keeper.mark }
    ensures costs { CostsCalls (calls_of reserve.old.store) result (F.chip flash.old) (F.chip flash.new) }
    ensures wear { OnOk result
        (CostsAndUses reserve.old.store.journal.used 1 (count_of (F.chip flash.old)) (count_of (F.chip flash.new))
        reserve.new.store.journal.used) }
    ensures most_wear { CostsAtMost reserve.old.store.journal.used 1 (count_of (F.chip flash.old))
        (count_of (F.chip flash.new)) }
    ensures leaves { LeavesFlash result (F.chip flash.old) (F.chip flash.new) }
    // for the next call
    ensures published { IsPublished reserve.new.store reserve.new.keeper }
    ensures made { reserve.new.keeper.which ≡ reserve.old.keeper.which }
{
    match state(item) {
        Some(to) => reserve.move_iv(n, flash, &to),
        None => put_other(reserve, flash, item),
    }
}
