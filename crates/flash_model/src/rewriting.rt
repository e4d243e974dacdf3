// Two calls in a row, over any flash: what a cut leaves at each moment of both.
ghost use Rattle.std.specs.Prelude.{◌≡◌, ℕ, ◌<◌, ◌≤◌, length, IsTrue, IsOk, OnOk, OnErr};
ghost use Rattle.flash_model.specs.Chip.{IsDone, Keeps, LeavesOnly};
ghost use Rattle.flash_model.specs.Arming.{Begins, BeginsAtMost, Erases, ErasesAtMost, FailsOnce, Programs, ProgramsAtMost};
ghost use Rattle.flash_model.specs.Rewrite.{rewritten, IsRewrite};

use crate::flash::{Flash, FlashFailed, SECTOR_OCTETS, SECTORS};

/// Erases a sector, 0 to 15, and programs octets from its start on, 1 to 4,096 of them.
pub fn rewrite<F: Flash>(flash: &mut F, sector: u32, bytes: &[u8]) -> Result<(), FlashFailed>
    requires sector { sector < SECTORS }
    requires some { 0 < length bytes.now }
    requires one_sector { length bytes.now ≤ SECTOR_OCTETS }

    ensures ok { IsTrue (F.chip flash.old).honest
        → OnOk result (IsDone (rewritten sector bytes.now) (F.chip flash.old) (F.chip flash.new)) }
    ensures any_moment { IsTrue (F.chip flash.old).honest
        → LeavesOnly (F.chip flash.old) (F.chip flash.new) (IsRewrite sector bytes.now (F.chip flash.old).images) }

    // of every flash, honest or not: two program and erase calls, one of them an erase, and at most these where it fails
    ensures calls { OnOk result (Begins 2 (F.chip flash.old) (F.chip flash.new)) }
    ensures most_calls { BeginsAtMost 2 (F.chip flash.old) (F.chip flash.new) }
    ensures erases { OnOk result (Erases 1 (F.chip flash.old) (F.chip flash.new)) }
    ensures most_erases { ErasesAtMost 1 (F.chip flash.old) (F.chip flash.new) }
    ensures octets { OnOk result (Programs (length bytes.now) (F.chip flash.old) (F.chip flash.new)) }
    ensures most_octets { ProgramsAtMost (length bytes.now) (F.chip flash.old) (F.chip flash.new) }
    ensures reads { (F.chip flash.new).reads ≡ (F.chip flash.old).reads }
    ensures no_fault { OnOk result ((F.chip flash.new).faults ≡ (F.chip flash.old).faults) }
    ensures cause { OnErr result ((F.chip flash.old).faults < (F.chip flash.new).faults) }
    ensures once { FailsOnce (F.chip flash.old) (F.chip flash.new) }
    ensures sure { IsTrue (F.chip flash.old).sure → IsOk result }
    ensures frame { Keeps (F.chip flash.old) (F.chip flash.new) }
{
    flash.erase(sector)?;
    flash.program(SECTOR_OCTETS * sector, bytes)
}
