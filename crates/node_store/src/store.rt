// The store: the journal that keeps its records, and what they say.
ghost use Rattle.std.specs.Prelude.{◌≡◌, ◌+◌, ◌≤◌, List, [], ◌∷◌, true, false, Err, OnOk, OnErr};
ghost use Rattle.flash_model.specs.Arming.{BeginsAtMost};
ghost use Rattle.flash_model.specs.Chip.{LeavesOnly, count_of};
ghost use Rattle.record_types.specs.declared.records.StoreRecord.{StoreRecord};
ghost use Rattle.node_records.specs.Meaning.{IsSaid};
ghost use Rattle.node_records.specs.Full.{IsFull, held_for};
ghost use Rattle.store_definitions.specs.Ranges.{IsInRange};
ghost use Rattle.store_definitions.specs.Wear.{CostsAndUses, CostsAtMost};
ghost use Rattle.node_store.specs.Calls.{calls_of, used_with_room};
ghost use Rattle.node_store.specs.Numbers.{HasNumbers};
ghost use Rattle.node_store.specs.Tie.{HasMark, IsNoNumbers, IsNotBelow, IsPut, IsStoreOf};
ghost use Rattle.node_store.specs.Writing.{CostsCalls, CutLeaves, FailsAtFlash, LeavesFlash, OnlyAnswers, Puts};

use flash_model::{Flash, FlashFailed};
use node_limits::PUT_CALLS;
use node_records::laws::value_law;
use node_records::{Limit, Persist};
use record_types::records::StoreRecord;
use slot_journal::Journal;
use std::marker::Model;
use thiserror::Error;

/// Why a record wasn't put.
#[derive(Clone, Copy, Debug, PartialEq, Eq, Error)]
pub enum PutFault {
    /// An earlier write failed: mount the flash again.
    #[error("an earlier write to the store failed")]
    Closed,
    /// The table that would grow is full.
    #[error("the table of {held} is full")]
    Limit { held: u32 },
    /// The flash failed in this call. The store is closed from then on.
    #[error("the flash failed")]
    Flash,
}

impl From<FlashFailed> for PutFault {
    ghost use Rattle.std.specs.Prelude.{◌≡◌};
    ghost use Rattle.node_store.specs.declared.store.PutFault.TheVariants.{Flash};

    ghost from_gives = { λ _ e. e ≡ Flash };

    fn from(_: FlashFailed) -> Self {
        PutFault::Flash
    }
}

impl From<Limit> for PutFault {
    ghost use Rattle.std.specs.Prelude.{◌≡◌};
    ghost use Rattle.node_store.specs.declared.store.PutFault.TheVariants as Fault;

    ghost from_gives = { λ limit e. e ≡ Fault.Limit limit.held };

    fn from(limit: Limit) -> Self {
        PutFault::Limit { held: limit.held }
    }
}

/// The store of a node. The flash stays with the caller, and is passed to each call.
///
/// Its records are those of a bank of format 02, and what they say is the meaning of records in range.
#[derive(Drop)]
pub struct Store {
    pub(crate) journal: Journal,
    pub(crate) persist: Persist,
}

impl Model for Store {
    ghost use Rattle.std.specs.Prelude.{◌≡◌};
    ghost use Rattle.node_records.specs.Meaning.{IsSaid};
    ghost use Rattle.node_store.specs.View.{StoreView};

    ghost Value = { StoreView };

    ghost view = { λ s. record { journal = s.journal; persist = s.persist } };

    ghost invariant = { λ s. IsSaid s.persist × (s.journal.version ≡ 2) };
}

impl Store {
    /// What the records of the store say. Whatever the flash, the numbers are in range: the known IV Index has 32 bits and there is one to
    /// send with, the mark is a word under it, and the hours have 16 bits.
    pub fn persist(&self) -> &Persist
        ensures value { result.now ≡ self.now.persist }
        ensures said { IsSaid self.now.persist }
        ensures numbers { HasNumbers self.now.persist }
    {
        value_law();
        &self.persist
    }

    /// How many slots of the bank are used.
    pub fn used(&self) -> u32
        ensures value { result ≡ self.now.journal.used }
        ensures few { self.now.journal.used ≤ 1023 }
    {
        self.journal.used()
    }

    /// Whether an earlier write failed. Such a store takes no record: mount the flash again.
    pub fn is_closed(&self) -> bool
        ensures value { result ≡ self.now.journal.closed }
    {
        self.journal.is_closed()
    }

    /// Puts a record behind the others. At `Ok` it is durable (`puts.durable`). In every image that a cut at any moment leaves, the records say
    /// what those of before say, or what these say with the new one last (`cut.any_moment`); so the mark doesn't fall (`cut.mark`).
    ///
    /// Where all 1,023 slots of the bank are used, the records that say the same are written into the other bank first (`used`). It reads
    /// nothing (`leaves.reads`).
    ///
    /// # Errors
    ///
    /// After each the store says what it said before (`refused`).
    ///
    /// - `Closed` exactly where an earlier write failed: store and flash stay as they are (`closed`). Mount the flash again.
    /// - `Limit` exactly where the store isn't closed and the table that would grow is full: store and flash stay as they are (`limit`). It
    ///   tells how many rows there are. `check` of [`Persist`] tells it before.
    /// - `Flash` where the flash failed in this call: the store is closed from then on (`fails.cause`). The flash may hold the record, or not.
    ///
    /// # Asks
    ///
    /// - `range`: the fields of the record are in their ranges. `is_in_range` of `record_texts` tells whether they are.
    /// - `rises`: the known IV Index and the mark of a Numbers record aren't below those that the store says. `refill` and `move_iv` of
    ///   `seq_reserve` make such records; of any other record nothing is asked.
    ///
    /// The clauses on content are of a store of this flash (`IsStoreOf`): `provision` gives it over a fresh flash, `mount` over a fresh and
    /// tidy one that holds records, and each Ok keeps it (`puts.kept`), if nothing else writes there.
    pub fn put<F: Flash>(&mut self, flash: &mut F, item: &StoreRecord) -> Result<(), PutFault>
        requires range { IsInRange item.now }
        requires rises { IsNotBelow self.old.persist item.now }

        ensures closed { self.old.journal.closed ≡ true
            → OnlyAnswers result (Err PutFault.Closed) self.old self.new flash.old flash.new }
        ensures limit { self.old.journal.closed ≡ false → IsFull self.old.persist item.now
            → OnlyAnswers result (Err (PutFault.Limit (held_for self.old.persist item.now))) self.old self.new flash.old
            flash.new }
        ensures fails { self.old.journal.closed ≡ false → ¬ IsFull self.old.persist item.now
            → FailsAtFlash result PutFault.Flash (F.chip flash.old) (F.chip flash.new) self.new }
        ensures refused { OnErr result (self.new.persist ≡ self.old.persist) }
        ensures said { IsSaid self.new.persist }
        ensures puts { OnOk result (Puts (item.now ∷ []) (F.chip flash.old) (F.chip flash.new) self.old self.new) }
        ensures used { OnOk result (self.new.journal.used ≡ used_with_room self.old + 1) }
        ensures cut { CutLeaves (λ records. IsPut records item.now) (F.chip flash.old) (F.chip flash.new) self.old }
        ensures same_mark { (records : List StoreRecord) → IsStoreOf (F.chip flash.old) self.old records
            → IsNoNumbers item.now → LeavesOnly (F.chip flash.old) (F.chip flash.new) (HasMark self.old.persist.mark) }
        // two program calls, behind those of a compaction where all slots are used
        ensures costs { CostsCalls (calls_of self.old) result (F.chip flash.old) (F.chip flash.new) }
        ensures bounded { BeginsAtMost PUT_CALLS (F.chip flash.old) (F.chip flash.new) }
        ensures wear { OnOk result
            (CostsAndUses self.old.journal.used 1 (count_of (F.chip flash.old)) (count_of (F.chip flash.new)) self.new.journal.used) }
        ensures most_wear { CostsAtMost self.old.journal.used 1 (count_of (F.chip flash.old)) (count_of (F.chip flash.new)) }
        ensures leaves { LeavesFlash result (F.chip flash.old) (F.chip flash.new) }
    {
        if self.journal.is_closed() {
            return Err(PutFault::Closed);
        }
        self.persist.check(item)?;
        self.make_room(flash)?;
        self.add(flash, item)?;
        Ok(())
    }
}
