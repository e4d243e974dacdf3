// Several records are put, one after another.
ghost use Rattle.std.specs.Prelude.{◌≡◌, ◌+◌, ◌*◌, ◌≤◌, length, true, false, Err, OnErr, OnOk};
ghost use Rattle.flash_model.specs.Chip.{count_of};
ghost use Rattle.flash_model.specs.Arming.{BeginsAtMost};
ghost use Rattle.node_store.specs.Calls.{only_slots};
ghost use Rattle.node_store.specs.Several.{CostsEach, CostsSome, MayPut};
ghost use Rattle.node_store.specs.Tie.{IsFront};
ghost use Rattle.node_store.specs.Writing.{CostsCalls, CutLeaves, FailsAtFlash, LeavesFlash, OnlyAnswers, Puts};
ghost use Rattle.store_definitions.specs.Wear.{CostsAndUses, CostsAtMost};

use crate::store::{PutFault, Store};
use flash_model::Flash;
use node_limits::PUT_CALLS;
use record_types::records::StoreRecord;

impl Store {
    /// Puts records behind the others, in their order. At `Ok` all are durable. In every image that a cut at any moment leaves, the records
    /// say what those of before say with the first few of the new ones behind them. It reads nothing.
    ///
    /// Each record may be put behind those before it, so it passes no limit.
    pub fn put_all<F: Flash>(
        &mut self,
        flash: &mut F,
        items: &[StoreRecord],
    ) -> Result<(), PutFault>
        requires may { MayPut self.old.persist items.now }

        ensures closed { self.old.journal.closed ≡ true
            → OnlyAnswers result (Err PutFault.Closed) self.old self.new flash.old flash.new }
        ensures fails { self.old.journal.closed ≡ false
            → FailsAtFlash result PutFault.Flash (F.chip flash.old) (F.chip flash.new) self.new }
        ensures puts { OnOk result (Puts items.now (F.chip flash.old) (F.chip flash.new) self.old self.new) }
        ensures cut { CutLeaves (λ records. IsFront records items.now) (F.chip flash.old) (F.chip flash.new) self.old }
        // each record costs what a put of it does, where those before it were put
        ensures each { OnOk result (CostsEach items.now (F.chip flash.old) (F.chip flash.new) self.old self.new) }
        ensures some { self.old.journal.closed ≡ false
            → OnErr result (CostsSome items.now (F.chip flash.old) (F.chip flash.new) self.old self.new) }
        // two program calls for each record where there is room for all, and never more than a compaction takes for each
        ensures costs { self.old.journal.used + length items.now ≤ 1023
            → CostsCalls (only_slots (length items.now)) result (F.chip flash.old) (F.chip flash.new) }
        ensures bounded { BeginsAtMost (PUT_CALLS * length items.now) (F.chip flash.old) (F.chip flash.new) }
        ensures wear { OnOk result
            (CostsAndUses self.old.journal.used (length items.now) (count_of (F.chip flash.old)) (count_of (F.chip flash.new))
            self.new.journal.used) }
        ensures most_wear { CostsAtMost self.old.journal.used (length items.now) (count_of (F.chip flash.old))
            (count_of (F.chip flash.new)) }
        ensures leaves { LeavesFlash result (F.chip flash.old) (F.chip flash.new) }
    {
        if self.is_closed() {
            return Err(PutFault::Closed);
        }
        for item in items {
            self.put(flash, item)?;
        }
        Ok(())
    }
}
