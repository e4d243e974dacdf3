// Items are written into a blank bank, all before its header.
ghost use Rattle.std.specs.Prelude.{◌≡◌, ℕ, ◌*◌, ◌<◌, ◌≤◌, List, length, IsTrue, IsOk, IfOk, OnOk, OnErr};
ghost use Rattle.flash_model.specs.Arming.{Begins, BeginsAtMost, FailsOnce, Programs, ProgramsAtMost};
ghost use Rattle.flash_model.specs.Chip.{Keeps, LeavesOnly};
ghost use Rattle.slot_journal.specs.Banks.{IsBankBare, IsBankFilled};

use crate::items::Items;
use crate::text::{SLOT_OCTETS, write_slot};
use flash_model::{Flash, FlashFailed};
use node_limits::{BANK_RECORDS, BANK_SLOTS};

/// Writes items, at most as many as a bank has room for, into the slots 1 on of a blank bank, 0 or 1. It answers how many there were.
pub fn fill_bank<F: Flash, S: Items>(
    flash: &mut F,
    bank: u32,
    items: &S,
) -> Result<u32, FlashFailed>
    requires low { bank ≤ 1 }
    requires few { length (S.slots items.now) ≤ BANK_RECORDS }
    ensures count { IfOk result (λ n. n ≡ length (S.slots items.now)) }
    ensures filled { (base : List ℕ) → IsBankFilled bank (S.slots items.now) 0 base (F.chip flash.old)
        → OnOk result (IsBankFilled bank (S.slots items.now) (length (S.slots items.now)) base (F.chip flash.new)) }
    ensures any_moment { (base : List ℕ) → IsBankFilled bank (S.slots items.now) 0 base (F.chip flash.old)
        → LeavesOnly (F.chip flash.old) (F.chip flash.new) (IsBankBare bank base) }
    ensures calls { OnOk result (Begins (2 * length (S.slots items.now)) (F.chip flash.old) (F.chip flash.new)) }
    ensures most_calls { BeginsAtMost (2 * length (S.slots items.now)) (F.chip flash.old) (F.chip flash.new) }
    ensures unerased { (F.chip flash.new).erases ≡ (F.chip flash.old).erases }
    ensures octets { OnOk result (Programs (SLOT_OCTETS * length (S.slots items.now)) (F.chip flash.old) (F.chip flash.new)) }
    ensures most_octets { ProgramsAtMost (SLOT_OCTETS * length (S.slots items.now)) (F.chip flash.old) (F.chip flash.new) }
    ensures reads { (F.chip flash.new).reads ≡ (F.chip flash.old).reads }
    ensures no_fault { OnOk result ((F.chip flash.new).faults ≡ (F.chip flash.old).faults) }
    ensures cause { OnErr result ((F.chip flash.old).faults < (F.chip flash.new).faults) }
    ensures once { FailsOnce (F.chip flash.old) (F.chip flash.new) }
    ensures sure { IsTrue (F.chip flash.old).sure → IsOk result }
    ensures frame { Keeps (F.chip flash.old) (F.chip flash.new) }
{
    let mut count = 0;
    while let Some(slot) = items.slot(count as usize) {
        write_slot(flash, BANK_SLOTS * bank + (count + 1), &slot)?;
        count += 1;
    }
    Ok(count)
}
