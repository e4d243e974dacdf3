//! The store and the seat that moves the mark.
#![tactic(auto)]

ghost use Rattle.std.specs.Prelude.{◌≡◌, ◌≢◌, ℕ, ◌+◌, ◌*◌, ◌^◌, ◌<◌, ◌≤◌, List, [], ◌∷◌, ◌++◌, true, false, Ok, Err, IfOk, OnOk, OnErr, max};
ghost use Rattle.flash_model.specs.Chip.{count_of};
ghost use Rattle.mesh_base.specs.IvState.{HasTransmit, transmit_of};
ghost use Rattle.mesh_world.specs.World.{World};
ghost use Rattle.node_records.specs.Tables.{config_in};
ghost use Rattle.node_store.specs.Calls.{calls_of, used_with_room};
ghost use Rattle.node_store.specs.Tie.{IsPut, IsStoreOf};
ghost use Rattle.node_store.specs.Writing.{CostsCalls, CutLeaves, FailsAtFlash, LeavesFlash, OnlyAnswers, Puts};
ghost use Rattle.record_types.specs.declared.records.StoreRecord.{StoreRecord};
ghost use Rattle.seq_reserve.specs.Reserving.{first_word, IsDurable, IsPublished, moving, refilling};
ghost use Rattle.seq_word.specs.Seen.{IsAbove, IsFoundBy, fresh, went_to};
ghost use Rattle.seq_word.specs.Word.{seq_of};
ghost use Rattle.store_definitions.specs.Numbers.{fill_of, moved};
ghost use Rattle.store_definitions.specs.Wear.{CostsAndUses, CostsAtMost};
ghost use Rattle.store_world.specs.Standing.{GoesBy, IsWorldOf};

use crate::keep_fault::KeepFault;
use crate::putting::put_numbers;
use crate::records::{fill_record, move_record, raises};
use flash_model::Flash;
use mesh_base::iv_state::IvState;
use node_store::Store;
use seq_word::{Drawer, Dry, Keeper, Numbers};
use std::alloc::{AllocError, Global};

/// The store of a node, and the seat that moves the mark of its numbers. The flash stays with the caller, and so do the words that the
/// bearers draw from.
///
/// The keeper's mark is the stored one. Through the field `store` no record with a mark is put.
#[derive(Drop)]
pub struct Reserve {
    pub store: Store,
    pub keeper: Keeper,
}

impl Reserve {
    /// Opens the words of a store that was provisioned or mounted: the next number is the stored mark, and so is the mark. No number that
    /// may have been drawn before is below it. The words come with a first seat that draws. An error says that memory ran out; the store is
    /// dropped then, and is mounted again.
    pub fn start(alloc: Global, store: Store) -> Result<(Reserve, Numbers, Drawer), AllocError>
        ensures opened { IfOk result (λ t. t.1.opened ≡ store.persist.mark) }
        ensures keeper { IfOk result
            (λ t. t.0.keeper ≡ record { which = t.1.which; mark = store.persist.mark; advances = [] }) }
        ensures drawer { IfOk result (λ t. t.2 ≡ fresh t.1.which [] 1024) }
        ensures store { IfOk result (λ t. t.0.store ≡ store) }
        ensures published { IfOk result (λ t. IsPublished t.0.store t.0.keeper) }
    {
        let mark = store.persist().mark;
        let (numbers, keeper, drawer) = Numbers::start(alloc, mark)?;
        Ok((Reserve { store, keeper }, numbers, drawer))
    }

    /// Tells a seat that draws where the keeper has moved the counter to so far, and that the keeper's mark is above what it has drawn: `inform` of
    /// `seq_word`.
    pub fn inform(&mut self, n: &Numbers, d: &mut Drawer)
        requires made { self.old.keeper.which ≡ n.now.which }
        requires drawer_made { d.old.which ≡ n.now.which }
        ensures same { self.new ≡ self.old }
        ensures informed { d.new ≡ record d.old { informed = d.old.informed ++ went_to self.old.keeper.advances } }
        ensures below { IsAbove d.old self.old.keeper.mark }
    {
        n.inform(&mut self.keeper, d);
    }

    /// Reserves 256 numbers more where the mark that a draw reached is the keeper's: a mark that much higher becomes durable under the stored
    /// IV state, and is published only then (`filled`, `durable`). Where it is another mark a refill came between, and nothing changes
    /// (`nothing`). It answers the keeper's mark (`value`).
    ///
    /// It takes what the draw answered: so none is stored without one, and the mark is at most 256 above the counter (`near` of `close`). The seat
    /// that drew owes a draw once the mark is published (`owes`): so the mark is less than 256 above, where no seat owes one (`paid` of `close`).
    ///
    /// # Errors
    ///
    /// After each the keeper's mark and what the store says are as before (`refused`), so that draws go on below that mark.
    ///
    /// - `Closed` where an earlier write failed and that mark is the keeper's: nothing changes (`closed`). Mount the flash again.
    /// - `Flash` where the flash failed in this call: the store is closed from then on (`fails.cause`). The flash may hold the higher mark, or not.
    ///
    /// # Asks
    ///
    /// - `made`: `n` was made with this reserve, by `start`; each call keeps it so (`made`).
    /// - `published`: the keeper's mark is the stored one. `start` gives it, and each call keeps it (`published`).
    /// - `drawer_made`, `found`: `dry` is of the last draw of this seat, at `n`.
    /// - `unspent`: SEQ of its mark is below 2^24; else the IV Index has no number left. A mark that a draw told may have that SEQ where it was
    ///   seen before the counter moved on: don't refill then, but draw again, as `draw` of `node_bearer` does.
    ///
    /// The clauses on content are of a store of this flash (`IsStoreOf`; `puts.kept`).
    pub fn refill<F: Flash>(
        &mut self,
        n: &Numbers,
        flash: &mut F,
        d: &mut Drawer,
        dry: Dry,
    ) -> Result<u64, KeepFault>
        requires made { self.old.keeper.which ≡ n.now.which }
        requires drawer_made { d.old.which ≡ n.now.which }
        requires found { IsFoundBy dry d.old }
        requires published { IsPublished self.old.store self.old.keeper }
        requires unspent { seq_of dry.mark < 2 ^ 24 }

        ensures value { IfOk result (λ mark. mark ≡ self.new.keeper.mark) }
        ensures nothing { dry.mark ≢ self.old.keeper.mark
            → OnlyAnswers result (Ok self.old.keeper.mark) self.old self.new flash.old flash.new }
        ensures closed { dry.mark ≡ self.old.keeper.mark → self.old.store.journal.closed ≡ true
            → OnlyAnswers result (Err KeepFault.Closed) self.old self.new flash.old flash.new }
        ensures fails { dry.mark ≡ self.old.keeper.mark → self.old.store.journal.closed ≡ false
            → FailsAtFlash result KeepFault.Flash (F.chip flash.old) (F.chip flash.new) self.new.store }
        ensures refused { OnErr result
            ((self.new.keeper ≡ self.old.keeper) × (self.new.store.persist ≡ self.old.store.persist)) }
        ensures filled { dry.mark ≡ self.old.keeper.mark
            → OnOk result (self.new.keeper ≡ record self.old.keeper { mark = dry.mark + 256 }) }
        ensures owes { dry.mark ≡ self.old.keeper.mark
            → OnOk result (d.new ≡ record d.old { owes = max d.old.owes (dry.next + 1) }) }
        ensures stays { dry.mark ≢ self.old.keeper.mark → d.new ≡ d.old }
        ensures failed { OnErr result (d.new ≡ d.old) }
        ensures puts { dry.mark ≡ self.old.keeper.mark
            → OnOk result
            (Puts (fill_of (config_in self.old.store.persist) ∷ []) (F.chip flash.old) (F.chip flash.new) self.old.store
            self.new.store) }
        ensures used { dry.mark ≡ self.old.keeper.mark
            → OnOk result (self.new.store.journal.used ≡ used_with_room self.old.store + 1) }
        ensures steps { (w : World) → IsWorldOf w self.old.store.persist self.old.keeper.mark
            → dry.mark ≡ self.old.keeper.mark
            → OnOk result (GoesBy (refilling self.old.store.persist) w self.new.store.persist self.new.keeper.mark) }
        ensures cut { CutLeaves (λ records. IsPut records (fill_of (config_in self.old.store.persist)))
            (F.chip flash.old) (F.chip flash.new) self.old.store }
        ensures durable { (records : List StoreRecord) → IsStoreOf (F.chip flash.old) self.old.store records
            → IsDurable (F.chip flash.new) self.new.keeper.mark }
        // the calls of one record put
        ensures costs { dry.mark ≡ self.old.keeper.mark
            → CostsCalls (calls_of self.old.store) result (F.chip flash.old) (F.chip flash.new) }
        ensures wear { dry.mark ≡ self.old.keeper.mark
            → OnOk result
            (CostsAndUses self.old.store.journal.used 1 (count_of (F.chip flash.old)) (count_of (F.chip flash.new))
            self.new.store.journal.used) }
        ensures most_wear { CostsAtMost self.old.store.journal.used 1 (count_of (F.chip flash.old))
            (count_of (F.chip flash.new)) }
        ensures leaves { LeavesFlash result (F.chip flash.old) (F.chip flash.new) }
        // for the next call
        ensures published { IsPublished self.new.store self.new.keeper }
        ensures made { self.new.keeper.which ≡ self.old.keeper.which }
    {
        let seen = dry.mark();
        let mark = self.store.persist().mark;
        if seen != mark {
            return Ok(mark);
        }
        let item = fill_record(self.store.persist());
        put_numbers(&mut self.store, flash, &item)?;
        let mark = self.store.persist().mark;
        n.publish(&mut self.keeper, d, dry);
        Ok(mark)
    }

    /// Stores a new IV state (`puts.change`). Where its transmit IV Index rises, the first word under it becomes the mark: it is durable, then
    /// published, and then the counter moves there (`durable`, `advanced`). Else the mark stays (`stays`).
    ///
    /// # Errors
    ///
    /// After each the keeper's mark and what the store says are as before (`refused`).
    ///
    /// - `Closed` where an earlier write failed: nothing changes (`closed`). Mount the flash again.
    /// - `Flash` where the flash failed in this call: the store is closed from then on (`fails.cause`). The flash may hold the new state, or not.
    ///
    /// # Asks
    ///
    /// - `made`, `published`: as of `refill`.
    /// - `transmit`: there is an IV Index to send with, so no update is in progress under IV Index 0.
    /// - `current`, `rises`: neither the known nor the transmit IV Index falls. The steps of `iv_update` are so (`steps_law`).
    ///
    /// The clauses on content are of a store of this flash (`IsStoreOf`; `puts.kept`).
    pub fn move_iv<F: Flash>(
        &mut self,
        n: &Numbers,
        flash: &mut F,
        to: &IvState,
    ) -> Result<(), KeepFault>
        requires made { self.old.keeper.which ≡ n.now.which }
        requires published { IsPublished self.old.store self.old.keeper }
        requires transmit { HasTransmit to.now }
        requires current { self.old.store.persist.iv.current ≤ to.now.current }
        requires rises { transmit_of self.old.store.persist.iv ≤ transmit_of to.now }

        ensures closed { self.old.store.journal.closed ≡ true
            → OnlyAnswers result (Err KeepFault.Closed) self.old self.new flash.old flash.new }
        ensures fails { self.old.store.journal.closed ≡ false
            → FailsAtFlash result KeepFault.Flash (F.chip flash.old) (F.chip flash.new) self.new.store }
        ensures refused { OnErr result
            ((self.new.keeper ≡ self.old.keeper) × (self.new.store.persist ≡ self.old.store.persist)) }
        ensures stays { transmit_of self.old.store.persist.iv ≡ transmit_of to.now → self.new.keeper ≡ self.old.keeper }
        ensures advanced { transmit_of self.old.store.persist.iv < transmit_of to.now
            → OnOk result
            ((self.new.keeper.mark ≡ first_word to.now)
            × ((found : ℕ)
            × (self.new.keeper.advances ≡ self.old.keeper.advances ++ (found, first_word to.now) ∷ []))) }
        ensures puts { OnOk result
            (Puts (moved (config_in self.old.store.persist) to.now ∷ []) (F.chip flash.old) (F.chip flash.new)
            self.old.store self.new.store) }
        ensures used { OnOk result (self.new.store.journal.used ≡ used_with_room self.old.store + 1) }
        ensures steps { (w : World) → IsWorldOf w self.old.store.persist self.old.keeper.mark
            → OnOk result
            (GoesBy (moving self.old.store.persist to.now) w self.new.store.persist self.new.keeper.mark) }
        ensures cut { CutLeaves (λ records. IsPut records (moved (config_in self.old.store.persist) to.now))
            (F.chip flash.old) (F.chip flash.new) self.old.store }
        ensures durable { (records : List StoreRecord) → IsStoreOf (F.chip flash.old) self.old.store records
            → IsDurable (F.chip flash.new) self.new.keeper.mark }
        // the calls of one record put
        ensures costs { CostsCalls (calls_of self.old.store) result (F.chip flash.old) (F.chip flash.new) }
        ensures wear { OnOk result
            (CostsAndUses self.old.store.journal.used 1 (count_of (F.chip flash.old)) (count_of (F.chip flash.new))
            self.new.store.journal.used) }
        ensures most_wear { CostsAtMost self.old.store.journal.used 1 (count_of (F.chip flash.old))
            (count_of (F.chip flash.new)) }
        ensures leaves { LeavesFlash result (F.chip flash.old) (F.chip flash.new) }
        // for the next call
        ensures published { IsPublished self.new.store self.new.keeper }
        ensures made { self.new.keeper.which ≡ self.old.keeper.which }
    {
        let rises = raises(self.store.persist(), to);
        let item = move_record(self.store.persist(), to);
        put_numbers(&mut self.store, flash, &item)?;
        go_on(n, &mut self.keeper, rises, to.transmit());
        Ok(())
    }
}

/// Where the transmit IV Index rises to `iv`, publishes the first word under it as the mark, and then moves the counter there.
fn go_on(n: &Numbers, keeper: &mut Keeper, rises: bool, iv: u32)
    requires made { keeper.old.which ≡ n.now.which }
    requires up { rises ≡ true → keeper.old.mark ≤ iv * 2 ^ 25 }

    ensures stays { rises ≡ false → keeper.new ≡ keeper.old }
    ensures published { rises ≡ true → keeper.new.mark ≡ iv * 2 ^ 25 }
    ensures advanced { rises ≡ true
        → (found : ℕ) × (keeper.new.advances ≡ keeper.old.advances ++ (found, iv * 2 ^ 25) ∷ []) }
    ensures frame { keeper.new.which ≡ keeper.old.which }
{
    if rises {
        n.advance(keeper, iv);
    }
}
