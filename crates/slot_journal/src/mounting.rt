// A journal is found again on its flash.
ghost use Rattle.std.specs.Prelude.{◌≡◌, ℕ, ◌+◌, ◌<◌, ◌≤◌, false, Some, IsTrue, IsOk, IfOk, IfErr, OnOk, OnErr};
ghost use Rattle.flash_model.specs.Arming.{FailsOnce, ReadsAtMost};
ghost use Rattle.flash_model.specs.Chip.{IsFresh, Keeps, Stays};
ghost use Rattle.node_limits.specs.declared.TheConstants.{BANK_RECORDS};
ghost use Rattle.slot_definitions.specs.Slots.{slots_to, recovered, IsUsed};
ghost use Rattle.slot_journal.specs.Headers.{IsTidy};
ghost use Rattle.slot_journal.specs.Tie.{IsJournalOf, IsMounted};
ghost use Rattle.slot_journal.specs.Causes.{IsMountCause};

use crate::header::choose;
use crate::journal::Journal;
use crate::text::{is_blank, read_slot};
use flash_model::{Flash, FlashFailed};
use node_limits::BANK_SLOTS;
use thiserror::Error;

/// Why no journal was mounted.
#[derive(Clone, Copy, Debug, PartialEq, Eq, Error)]
pub enum NoMount {
    /// The flash failed in this call.
    #[error("the flash failed")]
    Flash,
    /// No bank has a sound header.
    #[error("no bank has a sound header")]
    NoBank,
}

impl From<FlashFailed> for NoMount {
    ghost use Rattle.std.specs.Prelude.{◌≡◌};
    ghost use Rattle.slot_journal.specs.declared.mounting.NoMount.TheVariants.{Flash};

    ghost from_gives = { λ _ e. e ≡ Flash };

    fn from(_: FlashFailed) -> Self {
        NoMount::Flash
    }
}

impl Journal {
    /// Finds the journal on a flash. It writes nothing.
    pub fn mount<F: Flash>(flash: &mut F) -> Result<Self, NoMount>
        ensures cause { IfErr result (IsMountCause (F.chip flash.old) (F.chip flash.new)) }
        ensures mounted { IsTrue (F.chip flash.old).honest → IfOk result (IsMounted (F.chip flash.old).now) }
        ensures value { IsTrue (F.chip flash.old).honest
            → IfOk result
            (λ j. recovered (F.chip flash.old).now
            ≡ Some (record { format = j.version; slots = slots_to (F.chip flash.old).now j.bank j.used })) }
        ensures kept { IsFresh (F.chip flash.old) → IsTidy (F.chip flash.old).now
            → IfOk result (IsJournalOf (F.chip flash.new)) }
        ensures stays { IsTrue (F.chip flash.old).honest → Stays (F.chip flash.old) (F.chip flash.new) }

        // it makes no program or erase call, and reads the two headers and at most each slot of a bank
        ensures calls { (F.chip flash.new).changes ≡ (F.chip flash.old).changes }
        ensures unerased { (F.chip flash.new).erases ≡ (F.chip flash.old).erases }
        ensures unprogrammed { (F.chip flash.new).octets ≡ (F.chip flash.old).octets }
        ensures most_reads { ReadsAtMost (BANK_SLOTS + 1) (F.chip flash.old) (F.chip flash.new) }

        // of every flash, honest or not
        ensures no_fault { OnOk result ((F.chip flash.new).faults ≡ (F.chip flash.old).faults) }
        ensures once { FailsOnce (F.chip flash.old) (F.chip flash.new) }
        ensures usable { IfOk result (λ j. j.closed ≡ false) }
        ensures sure { IsTrue (F.chip flash.old).sure → IfErr result (λ e. e ≡ NoMount.NoBank) }
        ensures frame { Keeps (F.chip flash.old) (F.chip flash.new) }
    {
        let first = read_slot(flash, 0)?;
        let second = read_slot(flash, BANK_SLOTS)?;
        let Some(counting) = choose(&first, &second) else {
            return Err(NoMount::NoBank);
        };
        let used = count_used(flash, counting.bank)?;
        Ok(Journal {
            bank: counting.bank,
            used,
            closed: false,
            generation: counting.generation,
            version: counting.format,
        })
    }
}

// The number of the last slot of a bank that has an octet other than ff, and 0 where there is none.
fn count_used<F: Flash>(flash: &mut F, bank: u32) -> Result<u32, FlashFailed>
    requires { bank ≤ 1 }
    ensures few { IfOk result (λ used. used ≤ 1023) }
    ensures value { IsTrue (F.chip flash.old).honest → IfOk result (IsUsed (F.chip flash.old).now bank) }
    ensures stays { IsTrue (F.chip flash.old).honest → Stays (F.chip flash.old) (F.chip flash.new) }
    ensures calls { (F.chip flash.new).changes ≡ (F.chip flash.old).changes }
    ensures unerased { (F.chip flash.new).erases ≡ (F.chip flash.old).erases }
    ensures unprogrammed { (F.chip flash.new).octets ≡ (F.chip flash.old).octets }
    ensures most_reads { ReadsAtMost BANK_RECORDS (F.chip flash.old) (F.chip flash.new) }
    ensures no_fault { OnOk result ((F.chip flash.new).faults ≡ (F.chip flash.old).faults) }
    ensures cause { OnErr result ((F.chip flash.old).faults < (F.chip flash.new).faults) }
    ensures once { FailsOnce (F.chip flash.old) (F.chip flash.new) }
    ensures sure { IsTrue (F.chip flash.old).sure → IsOk result }
    ensures frame { Keeps (F.chip flash.old) (F.chip flash.new) }
{
    let mut used = 0;
    for n in 1..BANK_SLOTS {
        let text = read_slot(flash, BANK_SLOTS * bank + n)?;
        if !is_blank(&text) {
            used = n;
        }
    }
    Ok(used)
}
