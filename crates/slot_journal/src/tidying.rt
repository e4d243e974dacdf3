// A flash whose octets come from outside: whether its headers are such that no cut in an erase can make one count.
ghost use Rattle.std.specs.Prelude.{◌≡◌, IsTrue, IfErr, OnOk};
ghost use Rattle.flash_model.specs.Arming.{FailsOnce};
ghost use Rattle.flash_model.specs.Chip.{Keeps, Stays};
ghost use Rattle.slot_journal.specs.Headers.{IsTidy, IsUntidyCause};
ghost use Rattle.slot_journal.specs.declared.tidying.Untidy.TheVariants as untidy;

use crate::header::can_count;
use crate::text::read_slot;
use flash_model::{Flash, FlashFailed};
use node_limits::BANK_SLOTS;
use thiserror::Error;

/// Why a flash isn't tidy.
#[derive(Clone, Copy, Debug, PartialEq, Eq, Error)]
pub enum Untidy {
    /// The flash failed in this call.
    #[error("the flash failed")]
    Flash,
    /// A cut in the erase of this bank, 0 or 1, can make its header count, which doesn't count now. No call on a journal leaves such a header.
    #[error("the header of bank {bank} could come to count")]
    Header { bank: u32 },
}

impl From<FlashFailed> for Untidy {
    ghost use Rattle.std.specs.Prelude.{◌≡◌};
    ghost use Rattle.slot_journal.specs.declared.tidying.Untidy.TheVariants.{Flash};

    ghost from_gives = { λ _ e. e ≡ Flash };

    fn from(_: FlashFailed) -> Self {
        Untidy::Flash
    }
}

/// Whether a flash whose octets come from outside is tidy, as each call on a journal leaves it and as each asks for it. It writes nothing.
///
/// # Errors
///
/// - `Header` where a cut in an erase can make the header of a bank count that doesn't count; bank 0 is told first.
/// - `Flash` where the flash failed in this call.
pub fn check_tidy<F: Flash>(flash: &mut F) -> Result<(), Untidy>
    ensures tidy { IsTrue (F.chip flash.old).honest → OnOk result (IsTidy (F.chip flash.old).now) }
    ensures cause { IfErr result (IsUntidyCause (F.chip flash.old) (F.chip flash.new)) }
    ensures stays { IsTrue (F.chip flash.old).honest → Stays (F.chip flash.old) (F.chip flash.new) }

    // it makes no program or erase call
    ensures calls { (F.chip flash.new).changes ≡ (F.chip flash.old).changes }
    ensures unerased { (F.chip flash.new).erases ≡ (F.chip flash.old).erases }
    ensures unprogrammed { (F.chip flash.new).octets ≡ (F.chip flash.old).octets }

    // of every flash, honest or not
    ensures no_fault { OnOk result ((F.chip flash.new).faults ≡ (F.chip flash.old).faults) }
    ensures once { FailsOnce (F.chip flash.old) (F.chip flash.new) }
    ensures sure { IsTrue (F.chip flash.old).sure → IfErr result (λ e. e ≡ untidy.Flash → ⊥) }
    ensures frame { Keeps (F.chip flash.old) (F.chip flash.new) }
{
    let first = read_slot(flash, 0)?;
    let second = read_slot(flash, BANK_SLOTS)?;
    if can_count(&first) {
        return Err(Untidy::Header { bank: 0 });
    }
    if can_count(&second) {
        return Err(Untidy::Header { bank: 1 });
    }
    Ok(())
}
