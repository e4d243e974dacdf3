// A blank flash becomes a journal: its items first, then the header of bank 0, so that nothing counts before all is there.
ghost use Rattle.std.specs.Prelude.{◌≡◌, ◌⊎◌, ℕ, ◌+◌, ◌*◌, ◌<◌, ◌≤◌, List, length, false, Some, IsTrue, IsOk, IfOk, IfErr, OnOk, OnErr};
ghost use Rattle.flash_model.specs.Arming.{Begins, BeginsAtMost, FailsOnce, Programs, ProgramsAtMost};
ghost use Rattle.flash_model.specs.Chip.{IsFresh, Keeps, LeavesOnly, Stays, count_of};
ghost use Rattle.slot_definitions.specs.Slots.{recovered};
ghost use Rattle.slot_journal.specs.Tie.{IsJournalOf};
ghost use Rattle.slot_journal.specs.Format.{IsErased, IsFirstSet, IsFormatted, IsScanned};
ghost use Rattle.slot_journal.specs.Causes.{IsFormatCause, IsNotErased};

use crate::filling::fill_bank;
use crate::header::header;
use crate::journal::Journal;
use crate::text::{SLOT_OCTETS, read_slot, write_slot};
use flash_model::{Flash, FlashFailed};
use mesh_base::slot::Slot;
use node_limits::{BANK_RECORDS, BANK_SLOTS};
use thiserror::Error;

/// The generation of a journal that is made.
const GENERATION: u32 = 1;

/// Why no journal was made.
#[derive(Clone, Copy, Debug, PartialEq, Eq, Error)]
pub enum FormatFault {
    /// The flash failed in this call.
    #[error("the flash failed")]
    Flash,
    /// An octet of the flash isn't ff. `at` is the first.
    #[error("the flash is not erased at {at}")]
    NotErased { at: u32 },
}

impl From<FlashFailed> for FormatFault {
    ghost use Rattle.std.specs.Prelude.{◌≡◌};
    ghost use Rattle.slot_journal.specs.declared.formatting.FormatFault.TheVariants.{Flash};

    ghost from_gives = { λ _ e. e ≡ Flash };

    fn from(_: FlashFailed) -> Self {
        FormatFault::Flash
    }
}

impl Journal {
    /// Writes a journal with these items, at most as many as a bank has room for, onto an erased flash: into bank 0, in format 1 or 2, with generation 1.
    pub fn format<F: Flash>(flash: &mut F, items: &[Slot], format: u8) -> Result<Self, FormatFault>
        requires few { length items.now ≤ BANK_RECORDS }
        requires known { (format ≡ 1) ⊎ (format ≡ 2) }

        ensures cause { IfErr result (IsFormatCause (F.chip flash.old) (F.chip flash.new)) }
        ensures erased { IsTrue (F.chip flash.old).honest → OnOk result (IsErased (F.chip flash.old).now) }
        ensures unchanged { IsTrue (F.chip flash.old).honest → ¬ IsErased (F.chip flash.old).now
            → Stays (F.chip flash.old) (F.chip flash.new) }
        ensures no_calls { IsTrue (F.chip flash.old).honest → ¬ IsErased (F.chip flash.old).now
            → count_of (F.chip flash.new) ≡ count_of (F.chip flash.old) }
        ensures value { IfOk result
            (λ j. j ≡ record { bank = 0; used = length items.now; closed = false; generation = 1; version = format }) }
        ensures kept { IsFresh (F.chip flash.old) → IfOk result (IsJournalOf (F.chip flash.new)) }
        ensures durable { IsFresh (F.chip flash.old)
            → OnOk result (recovered (F.chip flash.new).now ≡ Some (record { format = format; slots = items.now })) }
        ensures any_moment { IsFresh (F.chip flash.old) → IsErased (F.chip flash.old).now
            → LeavesOnly (F.chip flash.old) (F.chip flash.new) (IsFormatted format items.now) }

        // two program calls for each item and two for the header, and at most these where it fails
        ensures calls { OnOk result (Begins (2 * length items.now + 2) (F.chip flash.old) (F.chip flash.new)) }
        ensures most_calls { BeginsAtMost (2 * length items.now + 2) (F.chip flash.old) (F.chip flash.new) }
        ensures unerased { (F.chip flash.new).erases ≡ (F.chip flash.old).erases }
        ensures octets { OnOk result (Programs (SLOT_OCTETS * (length items.now + 1)) (F.chip flash.old) (F.chip flash.new)) }
        ensures most_octets { ProgramsAtMost (SLOT_OCTETS * (length items.now + 1)) (F.chip flash.old) (F.chip flash.new) }

        // of every flash, honest or not
        ensures no_fault { OnOk result ((F.chip flash.new).faults ≡ (F.chip flash.old).faults) }
        ensures once { FailsOnce (F.chip flash.old) (F.chip flash.new) }
        ensures sure { IsTrue (F.chip flash.old).sure → IfErr result IsNotErased }
        ensures frame { Keeps (F.chip flash.old) (F.chip flash.new) }
    {
        if let Some(at) = first_written(flash)? {
            return Err(FormatFault::NotErased { at });
        }
        let used = fill_bank(flash, 0, &items)?;
        write_slot(flash, 0, &header(format, GENERATION))?;
        Ok(Journal {
            bank: 0,
            used,
            closed: false,
            generation: GENERATION,
            version: format,
        })
    }
}

/// The first octet of a flash that isn't ff.
fn first_written<F: Flash>(flash: &mut F) -> Result<Option<u32>, FlashFailed>
    ensures value { IsTrue (F.chip flash.old).honest → IfOk result (IsScanned (F.chip flash.old).now) }
    ensures stays { IsTrue (F.chip flash.old).honest → Stays (F.chip flash.old) (F.chip flash.new) }
    ensures calls { (F.chip flash.new).changes ≡ (F.chip flash.old).changes }
    ensures unerased { (F.chip flash.new).erases ≡ (F.chip flash.old).erases }
    ensures unprogrammed { (F.chip flash.new).octets ≡ (F.chip flash.old).octets }
    ensures no_fault { OnOk result ((F.chip flash.new).faults ≡ (F.chip flash.old).faults) }
    ensures cause { OnErr result ((F.chip flash.old).faults < (F.chip flash.new).faults) }
    ensures once { FailsOnce (F.chip flash.old) (F.chip flash.new) }
    ensures sure { IsTrue (F.chip flash.old).sure → IsOk result }
    ensures frame { Keeps (F.chip flash.old) (F.chip flash.new) }
{
    for n in 0..2 * BANK_SLOTS {
        let text = read_slot(flash, n)?;
        if let Some(k) = first_set(&text) {
            return Ok(Some(32 * n + k));
        }
    }
    Ok(None)
}

/// The first octet of a slot that isn't ff.
fn first_set(text: &[u8; SLOT_OCTETS]) -> Option<u32>
    ensures { IsFirstSet text.now result }
{
    let k = text.iter().position(|octet| *octet != 0xff)?;
    Some(k as u32)
}
