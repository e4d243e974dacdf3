//! A message is accepted: its record is put.
#![tactic(auto)]

ghost use Rattle.std.specs.Prelude.{◌≡◌, ℕ, ◌+◌, ◌^◌, ◌<◌, List, [], ◌∷◌, true, false, Err, Some, IfSome, OnOk, OnErr};
ghost use Rattle.flash_model.specs.Chip.{LeavesOnly, count_of};
ghost use Rattle.mesh_world.specs.World.{World};
ghost use Rattle.mesh_world.specs.World.WorldStep.{Accept};
ghost use Rattle.node_records.specs.Meaning.{IsMeaningOf};
ghost use Rattle.node_records.specs.Tables.{config_in, entry_in};
ghost use Rattle.node_store.specs.Calls.{calls_of, used_with_room};
ghost use Rattle.node_store.specs.Tie.{HasMark, IsPut, IsStoreOf};
ghost use Rattle.node_store.specs.Writing.{CostsCalls, CutLeaves, FailsAtFlash, LeavesFlash, OnlyAnswers, Puts};
ghost use Rattle.record_types.specs.declared.records.StoreRecord.{StoreRecord};
ghost use Rattle.rpl_journal.specs.Accepting.{accepting, IsNoNewer, IsReadUnder};
ghost use Rattle.store_definitions.specs.Entries.{others_held};
ghost use Rattle.store_definitions.specs.Following.{HasNoPlace};
ghost use Rattle.store_definitions.specs.Ranges.{IsInRange};
ghost use Rattle.store_definitions.specs.Wear.{CostsAndUses, CostsAtMost};
ghost use Rattle.store_world.specs.Standing.{entry_with, GoesBy, IsAboveKept, IsWorldOf};

use crate::checking::{Old, check};
use flash_model::Flash;
use mesh_base::pair::{Name, Pair};
use node_records::Limit;
use node_store::{PutFault, Store};
use record_types::records::StoreRecord;
use thiserror::Error;

/// Why a message wasn't accepted. Of several that hold the first is answered.
#[derive(Clone, Copy, Debug, PartialEq, Eq, Error)]
pub enum AcceptFault {
    /// An earlier write failed: mount the flash again.
    #[error("an earlier write to the store failed")]
    Closed,
    /// It isn't newer than the entry of its source, `kept`.
    #[error("the message isn't newer than the last one accepted of its source")]
    Old { kept: Pair },
    /// Its source has no entry, and the replay list is full of other sources' unexpired entries; `held` of them have one.
    #[error("the replay list is full: {held} other sources have an entry")]
    ListFull { held: u32 },
    /// The flash failed in this call. The store is closed from then on.
    #[error("the flash failed")]
    Flash,
}

impl From<Old> for AcceptFault {
    ghost use Rattle.std.specs.Prelude.{◌≡◌};
    ghost use Rattle.rpl_journal.specs.declared.accepting.AcceptFault.TheVariants as Fault;

    ghost from_gives = { λ old e. e ≡ Fault.Old old.kept };

    fn from(old: Old) -> Self {
        AcceptFault::Old { kept: old.kept }
    }
}

impl From<Limit> for AcceptFault {
    ghost use Rattle.std.specs.Prelude.{◌≡◌};
    ghost use Rattle.rpl_journal.specs.declared.accepting.AcceptFault.TheVariants as Fault;

    ghost from_gives = { λ limit e. e ≡ Fault.ListFull limit.held };

    fn from(limit: Limit) -> Self {
        AcceptFault::ListFull { held: limit.held }
    }
}

impl From<PutFault> for AcceptFault {
    ghost use Rattle.std.specs.Prelude.{◌≡◌};
    ghost use Rattle.rpl_journal.specs.Faults.{accept_fault_of};

    ghost from_gives = { λ fault e. e ≡ accept_fault_of fault };

    fn from(fault: PutFault) -> Self {
        match fault {
            PutFault::Closed => AcceptFault::Closed,
            PutFault::Limit { held } => AcceptFault::ListFull { held },
            PutFault::Flash => AcceptFault::Flash,
        }
    }
}

/// What the type of a name says of its fields, as clauses that a proof can cite.
fn name_fits(name: Name)
    ensures src { name.src.0 < 2 ^ 16 }
    ensures iv { name.pair.iv < 2 ^ 32 }
{}

/// The record of a message.
fn record_of(name: &Name) -> StoreRecord
    requires { name.now.pair.seq < 2 ^ 24 }
    ensures value { result ≡ accepting name.now }
    ensures range { IsInRange result }
{
    name_fits(*name);
    StoreRecord::Replay {
        first: *name,
        second: None,
    }
}

/// Accepts a message: its pair becomes the entry of its source, and no other entry changes (`value`). At `Ok` that is durable (`puts.durable`), so
/// after a power cut at any later moment neither the message nor an older one of its source is accepted. Deliver it only then.
///
/// `name` is the source with the pair, of a segmented message with its SeqAuth.
///
/// # Errors
///
/// Of several that hold the first is answered. After each the store says what it said before (`refused`).
///
/// - `Closed` exactly where an earlier write failed: nothing changes (`closed`). Mount the flash again.
/// - `Old` where the source has an entry, which is told, and the pair isn't newer: nothing changes (`old`). At Ok it was newer (`newer`).
/// - `ListFull` where the source has no entry, and as many others have one as the replay list has entries, so many as are told: nothing changes (`full`). A place comes when an
///   entry expires.
/// - `Flash` where the flash failed in this call: the store is closed from then on (`fails.cause`). The flash may hold the entry, or not. Don't
///   deliver the message then: where the entry is there, it is lost.
///
/// # Asks
///
/// - `read`: the IV Index of the name is the known one or one less, as of every PDU that is read (`ok` of `read` in `network_layer`).
/// - `seq`: SEQ is below 2^24, as of every PDU that is read and of every SeqAuth.
///
/// The clauses on content are of a store of this flash (`IsStoreOf`; `puts.kept`).
pub fn accept<F: Flash>(store: &mut Store, flash: &mut F, name: &Name) -> Result<(), AcceptFault>
    requires read { IsReadUnder store.old.persist.iv.current name.now }
    requires seq { name.now.pair.seq < 2 ^ 24 }

    ensures closed { store.old.journal.closed ≡ true
        → OnlyAnswers result (Err AcceptFault.Closed) store.old store.new flash.old flash.new }
    ensures old { store.old.journal.closed ≡ false
        → IfSome (entry_in store.old.persist name.now.src.0)
        (λ kept. IsNoNewer (Some kept) name.now.pair
        → OnlyAnswers result (Err (AcceptFault.Old kept)) store.old store.new flash.old flash.new) }
    ensures full { store.old.journal.closed ≡ false → (records : List StoreRecord)
        → IsMeaningOf records store.old.persist → HasNoPlace records name.now
        → OnlyAnswers result (Err (AcceptFault.ListFull (others_held records name.now.src.0))) store.old store.new
        flash.old flash.new }
    ensures fails { store.old.journal.closed ≡ false
        → IsAboveKept (entry_in store.old.persist name.now.src.0) name.now.pair → (records : List StoreRecord)
        → IsMeaningOf records store.old.persist → ¬ HasNoPlace records name.now
        → FailsAtFlash result AcceptFault.Flash (F.chip flash.old) (F.chip flash.new) store.new }
    ensures refused { OnErr result (store.new.persist ≡ store.old.persist) }
    ensures newer { OnOk result (IsAboveKept (entry_in store.old.persist name.now.src.0) name.now.pair) }
    ensures value { OnOk result
        ((src : ℕ) → entry_in store.new.persist src ≡ entry_with name.now (entry_in store.old.persist) src) }
    ensures same_config { config_in store.new.persist ≡ config_in store.old.persist }
    ensures puts { OnOk result
        (Puts (accepting name.now ∷ []) (F.chip flash.old) (F.chip flash.new) store.old store.new) }
    ensures used { OnOk result (store.new.journal.used ≡ used_with_room store.old + 1) }
    ensures steps { (w : World) (published : ℕ) → IsWorldOf w store.old.persist published
        → OnOk result (GoesBy (Accept name.now ∷ []) w store.new.persist published) }
    ensures cut { CutLeaves (λ records. IsPut records (accepting name.now)) (F.chip flash.old) (F.chip flash.new)
        store.old }
    ensures same_mark { (records : List StoreRecord) → IsStoreOf (F.chip flash.old) store.old records
        → LeavesOnly (F.chip flash.old) (F.chip flash.new) (HasMark store.old.persist.mark) }
    // the calls of one record put
    ensures costs { CostsCalls (calls_of store.old) result (F.chip flash.old) (F.chip flash.new) }
    ensures wear { OnOk result
        (CostsAndUses store.old.journal.used 1 (count_of (F.chip flash.old)) (count_of (F.chip flash.new))
        store.new.journal.used) }
    ensures most_wear { CostsAtMost store.old.journal.used 1 (count_of (F.chip flash.old)) (count_of (F.chip flash.new)) }
    ensures leaves { LeavesFlash result (F.chip flash.old) (F.chip flash.new) }
{
    if store.is_closed() {
        return Err(AcceptFault::Closed);
    }
    check(store.persist(), name)?;
    let item = record_of(name);
    store.persist().check(&item)?;
    store.put(flash, &item)?;
    Ok(())
}
