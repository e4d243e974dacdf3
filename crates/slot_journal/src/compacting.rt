// A compaction: the bank that doesn't count is erased, filled, and given a header with the next generation.
ghost use Rattle.std.specs.Prelude.{◌≡◌, ℕ, ◌+◌, ◌-◌, ◌*◌, ◌%◌, ◌<◌, ◌≤◌, length, true, false, Err, Some, IsTrue, IsOk, OnOk, OnErr};
ghost use Rattle.flash_model.specs.Octets.{IsContent};
ghost use Rattle.flash_model.specs.Arming.{Begins, BeginsAtMost, Erases, ErasesAtMost, FailsOnce, Programs, ProgramsAtMost};
ghost use Rattle.flash_model.specs.Chip.{IsFresh, Keeps, LeavesOnly};
ghost use Rattle.slot_definitions.specs.Slots.{recovered};
ghost use Rattle.slot_journal.specs.Tie.{IsJournalOf, IsCompacted};
ghost use Rattle.slot_journal.specs.Banks.{IsErasing, IsErasedTo};

use crate::filling::fill_bank;
use crate::header::{FORMAT, header};
use crate::items::Items;
use crate::journal::Journal;
use crate::text::{SLOT_OCTETS, write_slot};
use flash_model::{Flash, FlashFailed};
use node_limits::{BANK_RECORDS, BANK_SECTORS, BANK_SLOTS};
use thiserror::Error;

/// Why a journal wasn't compacted.
#[derive(Clone, Copy, Debug, PartialEq, Eq, Error)]
pub enum CompactFault {
    /// An earlier write failed: mount the flash again.
    #[error("an earlier write to the journal failed")]
    Closed,
    /// The flash failed in this call. The journal is closed from then on.
    #[error("the flash failed")]
    Flash,
}

impl From<FlashFailed> for CompactFault {
    ghost use Rattle.std.specs.Prelude.{◌≡◌};
    ghost use Rattle.slot_journal.specs.declared.compacting.CompactFault.TheVariants.{Flash};

    ghost from_gives = { λ _ e. e ≡ Flash };

    fn from(_: FlashFailed) -> Self {
        CompactFault::Flash
    }
}

impl Journal {
    /// Writes these items into the other bank, in format 2, and lets that bank count by the next generation. At `Ok` they are
    /// durable (`durable`). In every image that a cut at any moment leaves, what is held is that of before, or these items
    /// (`any_moment`). It reads nothing (`reads`).
    ///
    /// # Errors
    ///
    /// - `Closed` exactly where an earlier write failed: nothing changes (`closed`). Mount the flash again.
    /// - `Flash` where the flash failed in this call: the journal is closed from then on, and as it was in all else (`cause`). What is held
    ///   may be the items, or what it was.
    ///
    /// # Asks
    ///
    /// At most as many items as a bank has room for; the snapshot of a node has fewer (`few` of `snapshot` in `node_snapshot`). The clauses on content are of a
    /// journal of this flash, as those of `append`.
    pub fn compact<F: Flash, S: Items>(
        &mut self,
        flash: &mut F,
        items: &S,
    ) -> Result<(), CompactFault>
        requires { length (S.slots items.now) ≤ BANK_RECORDS }

        ensures closed { self.old.closed ≡ true
            → (result ≡ Err CompactFault.Closed) × (self.new ≡ self.old) × (flash.new ≡ flash.old) }
        ensures cause { self.old.closed ≡ false
            → OnErr result
            ((result ≡ Err CompactFault.Flash) × (self.new ≡ record self.old { closed = true })
            × ((F.chip flash.old).faults < (F.chip flash.new).faults)) }
        ensures ok { OnOk result
            (self.new
            ≡ record {
              bank = 1 - self.old.bank;
              used = length (S.slots items.now);
              closed = false;
              generation = (self.old.generation + 1) % 4294967296;
              version = 2;
            }) }

        // Of a journal of this flash.
        ensures kept { IsJournalOf (F.chip flash.old) self.old → OnOk result (IsJournalOf (F.chip flash.new) self.new) }
        ensures durable { IsJournalOf (F.chip flash.old) self.old
            → OnOk result (recovered (F.chip flash.new).now ≡ Some (record { format = 2; slots = S.slots items.now })) }
        ensures any_moment { IsJournalOf (F.chip flash.old) self.old
            → LeavesOnly (F.chip flash.old) (F.chip flash.new)
            (IsCompacted (recovered (F.chip flash.old).now) (S.slots items.now)) }

        // the erase calls of a bank, two program calls of 32 octets together for each item and two for the header, and at most these where it fails
        ensures calls { OnOk result (Begins (10 + 2 * length (S.slots items.now)) (F.chip flash.old) (F.chip flash.new)) }
        ensures most_calls { BeginsAtMost (10 + 2 * length (S.slots items.now)) (F.chip flash.old) (F.chip flash.new) }
        ensures erases { OnOk result (Erases BANK_SECTORS (F.chip flash.old) (F.chip flash.new)) }
        ensures most_erases { ErasesAtMost BANK_SECTORS (F.chip flash.old) (F.chip flash.new) }
        ensures octets { OnOk result (Programs (SLOT_OCTETS * (1 + length (S.slots items.now))) (F.chip flash.old) (F.chip flash.new)) }
        ensures most_octets { ProgramsAtMost (SLOT_OCTETS * (1 + length (S.slots items.now))) (F.chip flash.old) (F.chip flash.new) }

        // of every flash, honest or not
        ensures reads { (F.chip flash.new).reads ≡ (F.chip flash.old).reads }
        ensures no_fault { OnOk result ((F.chip flash.new).faults ≡ (F.chip flash.old).faults) }
        ensures once { FailsOnce (F.chip flash.old) (F.chip flash.new) }
        ensures sure { IsTrue (F.chip flash.old).sure → self.old.closed ≡ false → IsOk result }
        ensures frame { Keeps (F.chip flash.old) (F.chip flash.new) }
    {
        if self.closed {
            return Err(CompactFault::Closed);
        }
        self.closed = true;
        let bank = 1 - self.bank;
        let generation = self.generation.wrapping_add(1);
        erase_bank(flash, bank)?;
        let used = fill_bank(flash, bank, items)?;
        write_slot(flash, BANK_SLOTS * bank, &header(FORMAT, generation))?;
        *self = Journal {
            bank,
            used,
            closed: false,
            generation,
            version: FORMAT,
        };
        Ok(())
    }
}

/// Erases the sectors of a bank, 0 or 1, in ascending order.
fn erase_bank<F: Flash>(flash: &mut F, bank: u32) -> Result<(), FlashFailed>
    requires { bank ≤ 1 }
    ensures erased { IsFresh (F.chip flash.old) → IsContent (F.chip flash.old).now
        → OnOk result (IsErasedTo bank 8 (F.chip flash.old).now (F.chip flash.new)) }
    ensures any_moment { IsFresh (F.chip flash.old) → IsContent (F.chip flash.old).now
        → LeavesOnly (F.chip flash.old) (F.chip flash.new) (IsErasing bank (F.chip flash.old).now) }
    ensures calls { OnOk result (Begins BANK_SECTORS (F.chip flash.old) (F.chip flash.new)) }
    ensures most_calls { BeginsAtMost BANK_SECTORS (F.chip flash.old) (F.chip flash.new) }
    ensures erases { OnOk result (Erases BANK_SECTORS (F.chip flash.old) (F.chip flash.new)) }
    ensures most_erases { ErasesAtMost BANK_SECTORS (F.chip flash.old) (F.chip flash.new) }
    ensures unprogrammed { (F.chip flash.new).octets ≡ (F.chip flash.old).octets }
    ensures reads { (F.chip flash.new).reads ≡ (F.chip flash.old).reads }
    ensures no_fault { OnOk result ((F.chip flash.new).faults ≡ (F.chip flash.old).faults) }
    ensures cause { OnErr result ((F.chip flash.old).faults < (F.chip flash.new).faults) }
    ensures once { FailsOnce (F.chip flash.old) (F.chip flash.new) }
    ensures sure { IsTrue (F.chip flash.old).sure → IsOk result }
    ensures frame { Keeps (F.chip flash.old) (F.chip flash.new) }
{
    for k in 0..BANK_SECTORS {
        flash.erase(BANK_SECTORS * bank + k)?;
    }
    Ok(())
}
