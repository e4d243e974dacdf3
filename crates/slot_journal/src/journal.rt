// The journal: which bank counts, how many of its slots are used, and whether a write failed.
ghost use Rattle.std.specs.Prelude.{◌≡◌, ◌⊎◌, ℕ, ◌+◌, ◌*◌, ◌<◌, ◌≤◌, true, false, Err, IsTrue, IsOk, IfOk, OnOk, OnErr};
ghost use Rattle.flash_model.specs.Arming.{Begins, BeginsAtMost, FailsOnce, Programs, ProgramsAtMost, ReadsAtMost};
ghost use Rattle.flash_model.specs.Chip.{Keeps, LeavesOnly, Stays};
ghost use Rattle.slot_definitions.specs.Slots.{gated, text_at, recovered};
ghost use Rattle.slot_journal.specs.Tie.{IsJournalOf, IsAppended, with_last};

use crate::text::{SLOT_OCTETS, gated_slot, read_slot, write_slot};
use flash_model::{Flash, FlashFailed};
use mesh_base::slot::Slot;
use node_limits::{BANK_RECORDS, BANK_SLOTS};
use std::marker::Model;
use thiserror::Error;

/// Why a slot wasn't appended.
#[derive(Clone, Copy, Debug, PartialEq, Eq, Error)]
pub enum AppendFault {
    /// An earlier write failed: mount the flash again.
    #[error("an earlier write to the journal failed")]
    Closed,
    /// The bank has no slot left.
    #[error("all {used} slots of the bank are used")]
    Full { used: u32 },
    /// The flash failed in this call. The journal is closed from then on.
    #[error("the flash failed")]
    Flash,
}

impl From<FlashFailed> for AppendFault {
    ghost use Rattle.std.specs.Prelude.{◌≡◌};
    ghost use Rattle.slot_journal.specs.declared.journal.AppendFault.TheVariants.{Flash};

    ghost from_gives = { λ _ e. e ≡ Flash };

    fn from(_: FlashFailed) -> Self {
        AppendFault::Flash
    }
}

/// A journal on a flash. The flash stays with the caller, and is passed to each call.
#[derive(Drop)]
pub struct Journal {
    pub(crate) bank: u32,
    pub(crate) used: u32,
    pub(crate) closed: bool,
    pub(crate) generation: u32,
    pub(crate) version: u8,
}

impl Model for Journal {
    ghost use Rattle.std.specs.Prelude.{◌≡◌, ◌⊎◌, ◌≤◌};
    ghost use Rattle.slot_journal.specs.View.{JournalView};

    ghost Value = { JournalView };

    ghost view = { λ j. record {
      bank = j.bank;
      used = j.used;
      closed = j.closed;
      generation = j.generation;
      version = j.version;
    } };

    ghost invariant = { λ j. (j.bank ≤ 1) × (j.used ≤ 1023) × ((j.version ≡ 1) ⊎ (j.version ≡ 2)) };
}

impl Journal {
    /// How many slots are used, up to the last that has an octet other than ff.
    pub fn used(&self) -> u32
        ensures value { result ≡ self.now.used }
        ensures few { self.now.used ≤ 1023 }
    {
        self.used
    }

    /// Whether an earlier write failed.
    pub fn is_closed(&self) -> bool
        ensures { result ≡ self.now.closed }
    {
        self.closed
    }

    /// The format of the bank that counts, 1 or 2.
    pub fn version(&self) -> u8
        ensures value { result ≡ self.now.version }
        ensures known { (self.now.version ≡ 1) ⊎ (self.now.version ≡ 2) }
    {
        self.version
    }

    /// What slot `n` holds, from 1 to `used`. It is nothing where the slot's gate isn't 00: a cut left it torn.
    pub fn slot<F: Flash>(&self, flash: &mut F, n: u32) -> Result<Option<Slot>, FlashFailed>
        requires some { 0 < n }
        requires within { n ≤ self.now.used }

        ensures value { IfOk result (λ slot. slot ≡ gated (text_at (F.chip flash.old).now (1024 * self.now.bank + n))) }
        ensures stays { IsTrue (F.chip flash.old).honest → Stays (F.chip flash.old) (F.chip flash.new) }

        // it makes no program or erase call, and at most one read call
        ensures calls { (F.chip flash.new).changes ≡ (F.chip flash.old).changes }
        ensures unerased { (F.chip flash.new).erases ≡ (F.chip flash.old).erases }
        ensures unprogrammed { (F.chip flash.new).octets ≡ (F.chip flash.old).octets }
        ensures most_reads { ReadsAtMost 1 (F.chip flash.old) (F.chip flash.new) }

        // of every flash, honest or not
        ensures no_fault { OnOk result ((F.chip flash.new).faults ≡ (F.chip flash.old).faults) }
        ensures cause { OnErr result ((F.chip flash.old).faults < (F.chip flash.new).faults) }
        ensures once { FailsOnce (F.chip flash.old) (F.chip flash.new) }
        ensures sure { IsTrue (F.chip flash.old).sure → IsOk result }
        ensures frame { Keeps (F.chip flash.old) (F.chip flash.new) }
    {
        let text = read_slot(flash, BANK_SLOTS * self.bank + n)?;
        Ok(gated_slot(&text))
    }

    /// Appends a slot. At `Ok` it is durable (`durable`). In every image that a cut at any moment leaves, what is held is that of
    /// before, or this with the new slot last (`any_moment`). It reads nothing (`reads`).
    ///
    /// # Errors
    ///
    /// - `Closed` exactly where an earlier write failed: nothing changes (`closed`). Mount the flash again.
    /// - `Full` where all 1,023 slots of the bank are used: nothing changes (`full`). Compact the journal.
    /// - `Flash` where the flash failed in this call: the journal is closed from then on, and as it was in all else (`cause`). What is held
    ///   may have the slot, or not.
    ///
    /// # Asks
    ///
    /// Nothing of any flash. The clauses on content are of a journal of this flash (`IsJournalOf`): `format` gives it over a fresh flash,
    /// `mount` over a fresh and tidy one, and each Ok keeps it (`kept`), if nothing else writes there.
    pub fn append<F: Flash>(&mut self, flash: &mut F, item: &Slot) -> Result<(), AppendFault>
        ensures closed { self.old.closed ≡ true
            → (result ≡ Err AppendFault.Closed) × (self.new ≡ self.old) × (flash.new ≡ flash.old) }
        ensures full { self.old.closed ≡ false → self.old.used ≡ 1023
            → (result ≡ Err (AppendFault.Full 1023)) × (self.new ≡ self.old) × (flash.new ≡ flash.old) }
        ensures cause { self.old.closed ≡ false → self.old.used < 1023
            → OnErr result
            ((result ≡ Err AppendFault.Flash) × (self.new ≡ record self.old { closed = true })
            × ((F.chip flash.old).faults < (F.chip flash.new).faults)) }
        ensures ok { OnOk result (self.new ≡ record self.old { used = self.old.used + 1 }) }

        // Of a journal of this flash.
        ensures kept { IsJournalOf (F.chip flash.old) self.old → OnOk result (IsJournalOf (F.chip flash.new) self.new) }
        ensures durable { IsJournalOf (F.chip flash.old) self.old
            → OnOk result (recovered (F.chip flash.new).now ≡ with_last item.now (recovered (F.chip flash.old).now)) }
        ensures any_moment { IsJournalOf (F.chip flash.old) self.old
            → LeavesOnly (F.chip flash.old) (F.chip flash.new)
            (IsAppended (recovered (F.chip flash.old).now) item.now) }

        // two program calls, of 32 octets together, and at most these where it fails
        ensures calls { OnOk result (Begins 2 (F.chip flash.old) (F.chip flash.new)) }
        ensures most_calls { BeginsAtMost 2 (F.chip flash.old) (F.chip flash.new) }
        ensures unerased { (F.chip flash.new).erases ≡ (F.chip flash.old).erases }
        ensures octets { OnOk result (Programs SLOT_OCTETS (F.chip flash.old) (F.chip flash.new)) }
        ensures most_octets { ProgramsAtMost SLOT_OCTETS (F.chip flash.old) (F.chip flash.new) }

        // of every flash, honest or not
        ensures reads { (F.chip flash.new).reads ≡ (F.chip flash.old).reads }
        ensures no_fault { OnOk result ((F.chip flash.new).faults ≡ (F.chip flash.old).faults) }
        ensures once { FailsOnce (F.chip flash.old) (F.chip flash.new) }
        ensures sure { IsTrue (F.chip flash.old).sure → self.old.closed ≡ false → self.old.used < 1023 → IsOk result }
        ensures frame { Keeps (F.chip flash.old) (F.chip flash.new) }
    {
        if self.closed {
            return Err(AppendFault::Closed);
        }
        if self.used == BANK_RECORDS {
            return Err(AppendFault::Full { used: self.used });
        }
        self.closed = true;
        write_slot(flash, BANK_SLOTS * self.bank + (self.used + 1), item)?;
        self.closed = false;
        self.used += 1;
        Ok(())
    }
}
