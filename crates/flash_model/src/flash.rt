// The chip behind a journal, and the chip on a bench, where power can be cut within a call.
//
// Clearing: a program call only clears bits, and only of its range; an erase sets all bits, and only of its sector.
// Tearing: power that fails within such a call leaves each bit of the range as it was or as it was to be. What it left is
// stable: it reads the same until the next program or erase.
// Durability: what a call that returned Ok wrote is there in every image from then on.
// Counting: a flash counts its faults, and since the last power cycle its read calls, its program and erase calls, of these the erase calls, and the
// octets that the program calls were given. An Ok leaves the count of faults, so no fault is swallowed; a call that fails raises it by one.
// So a caller that writes a record with its gate still ff, and clears the gate in a call of its own, finds the record whole
// or its gate not 00, wherever power failed.
//
// That a chip is such a flash is the premise `honest`; a flash in memory is proved to be one.
ghost use Rattle.std.specs.Prelude.{◌≡◌, ℕ, ◌+◌, ◌*◌, ◌%◌, ◌<◌, ◌≤◌, List, length, min, false, slice_range, IsTrue, IsOk, OnOk, OnErr, None, Some};
ghost use Rattle.flash_model.specs.Octets.{IsContent, programmed, erased};
ghost use Rattle.flash_model.specs.Chip.{Chip, Elapses, IsCut, IsDone, IsFresh, Keeps, KeepsCount, Stays};
ghost use Rattle.flash_model.specs.Arming.{Begins, Erases, FailsOnce, IsCarriedOut, IsExplained, ObeysArm, ObeysCut, Programs};

use thiserror::Error;

/// Octets of a chip.
pub const FLASH_OCTETS: u32 = 65536;

/// Octets of a sector, the unit of an erase.
pub const SECTOR_OCTETS: u32 = 4096;

/// Sectors of a chip.
pub const SECTORS: u32 = 16;

/// A call of a flash failed. Its count of faults rose in that call.
#[derive(Clone, Copy, Debug, PartialEq, Eq, Error)]
#[error("the flash failed")]
pub struct FlashFailed;

/// NOR flash of 16 sectors of 4,096 octets. Erased octets are ff, and a program call only clears bits.
///
/// For who implements it, the crate's head says clause by clause what an adapter must give.
pub trait Flash {
    // What contracts know of the chip.
    ghost chip: { Self → Chip };

    /// Reads `buf.len()` octets from offset `at` on. It changes nothing (`stays`), and is counted (`reads`) as no other call
    /// (`uncalled`, `unerased`, `unprogrammed`).
    ///
    /// # Errors
    ///
    /// `FlashFailed` where the chip failed in this call: the count of faults rose by one (`cause`, `once`). `buf` may hold anything then.
    fn read(&mut self, at: u32, buf: &mut [u8]) -> Result<(), FlashFailed>
        requires within { at + length buf.old ≤ FLASH_OCTETS }

        ensures value { OnOk result (buf.new ≡ slice_range (chip self.old).now at (at + length buf.old)) }
        ensures stays { IsTrue (chip self.old).honest → Stays (chip self.old) (chip self.new) }

        // of every flash, honest or not
        ensures reads { (chip self.new).reads ≡ min ((chip self.old).reads + 1) 4294967295 }
        ensures uncalled { (chip self.new).changes ≡ (chip self.old).changes }
        ensures unerased { (chip self.new).erases ≡ (chip self.old).erases }
        ensures unprogrammed { (chip self.new).octets ≡ (chip self.old).octets }
        ensures no_fault { OnOk result ((chip self.new).faults ≡ (chip self.old).faults) }
        ensures cause { OnErr result ((chip self.old).faults < (chip self.new).faults) }
        ensures once { FailsOnce (chip self.old) (chip self.new) }
        ensures sure { IsTrue (chip self.old).sure → IsOk result }
        ensures frame { Keeps (chip self.old) (chip self.new) }
        ensures by_arm { IsTrue (chip self.old).steady → ObeysCut (chip self.old) (chip self.new) result };

    /// Programs octets from offset `at` on: each becomes old AND new (`ok`), and is durable then. The range has at least one octet and lies in
    /// one sector.
    ///
    /// # Errors
    ///
    /// `FlashFailed` where the chip failed in this call: the count of faults rose by one (`cause`, `once`). Each bit of the range is old or
    /// new then, all else as it was (`any_moment`).
    fn program(&mut self, at: u32, bytes: &[u8]) -> Result<(), FlashFailed>
        requires some { 0 < length bytes.now }
        requires within { at + length bytes.now ≤ FLASH_OCTETS }
        requires one_sector { at % SECTOR_OCTETS + length bytes.now ≤ SECTOR_OCTETS }

        ensures ok { IsTrue (chip self.old).honest
            → OnOk result (IsDone (programmed at bytes.now) (chip self.old) (chip self.new)) }
        ensures any_moment { IsTrue (chip self.old).honest
            → IsCut (programmed at bytes.now) (chip self.old) (chip self.new) }

        // of every flash, honest or not
        ensures reads { (chip self.new).reads ≡ (chip self.old).reads }
        ensures begins { Begins 1 (chip self.old) (chip self.new) }
        ensures unerased { (chip self.new).erases ≡ (chip self.old).erases }
        ensures octets { Programs (length bytes.now) (chip self.old) (chip self.new) }
        ensures no_fault { OnOk result ((chip self.new).faults ≡ (chip self.old).faults) }
        ensures cause { OnErr result ((chip self.old).faults < (chip self.new).faults) }
        ensures once { FailsOnce (chip self.old) (chip self.new) }
        ensures sure { IsTrue (chip self.old).sure → IsOk result }
        ensures frame { Keeps (chip self.old) (chip self.new) }
        ensures by_arm { IsTrue (chip self.old).steady
            → ObeysArm (programmed at bytes.now) (chip self.old) (chip self.new) result };

    /// Erases a sector, 0 to 15: each of its octets becomes ff (`ok`), and is durable then.
    ///
    /// # Errors
    ///
    /// `FlashFailed` where the chip failed in this call: the count of faults rose by one (`cause`, `once`). Each bit of the sector is the old
    /// one or 1 then, all else as it was (`any_moment`).
    fn erase(&mut self, sector: u32) -> Result<(), FlashFailed>
        requires sector { sector < SECTORS }

        ensures ok { IsTrue (chip self.old).honest
            → OnOk result (IsDone (erased sector) (chip self.old) (chip self.new)) }
        ensures any_moment { IsTrue (chip self.old).honest → IsCut (erased sector) (chip self.old) (chip self.new) }

        // of every flash, honest or not
        ensures reads { (chip self.new).reads ≡ (chip self.old).reads }
        ensures begins { Begins 1 (chip self.old) (chip self.new) }
        ensures erases { Erases 1 (chip self.old) (chip self.new) }
        ensures unprogrammed { (chip self.new).octets ≡ (chip self.old).octets }
        ensures no_fault { OnOk result ((chip self.new).faults ≡ (chip self.old).faults) }
        ensures cause { OnErr result ((chip self.old).faults < (chip self.new).faults) }
        ensures once { FailsOnce (chip self.old) (chip self.new) }
        ensures sure { IsTrue (chip self.old).sure → IsOk result }
        ensures frame { Keeps (chip self.old) (chip self.new) }
        ensures by_arm { IsTrue (chip self.old).steady
            → ObeysArm (erased sector) (chip self.old) (chip self.new) result };

    // What is read of an honest flash is one of its images.
    ghost reads_image: { (f : Self) → IsTrue (chip f).honest → (chip f).images (chip f).now };

    // Whatever a cut of an honest flash leaves, or might have left, is 65,536 octets.
    ghost content: { (f : Self) (t : ℕ) (c : List ℕ) → IsTrue (chip f).honest → (chip f).since t c → IsContent c };

    // This moment is one of those since an earlier one.
    ghost counts_now: { (f : Self) (t : ℕ) (c : List ℕ) → t ≤ (chip f).moment → (chip f).images c
        → (chip f).since t c };

    // No more than ffffffff program and erase calls are counted.
    ghost counted: { (f : Self) → (chip f).changes ≤ 4294967295 };

    // The erase calls are among them.
    ghost counted_erases: { (f : Self) → (chip f).erases ≤ (chip f).changes };

    // No more than ffffffff octets of program calls are counted.
    ghost counted_octets: { (f : Self) → (chip f).octets ≤ 4294967295 };

    // Since this moment there is no other.
    ghost only_now: { (f : Self) (c : List ℕ) → (chip f).since (chip f).moment c → (chip f).images c };
}

/// A flash on a bench: power can be cut within one of its calls, and given again. An adapter to a chip whose calls it can't have torn says
/// that it isn't steady: then an order to tear a call has to be kept (`setting`, `left`), and promises no fault.
pub trait Bench: Flash + Send + Drop {
    /// Orders that a later call is torn. Of a steady flash, after `calls` more program and erase calls the next one is: of its octets each
    /// bit whose bit in `mask` is 1 takes its new value, the others stay, and it fails. Every later call fails, until the power cycle
    /// (`by_arm` of [`Flash`]).
    ///
    /// # Asks
    ///
    /// No such order was given since the last power cycle.
    fn arm(&mut self, calls: u32, mask: u8)
        requires { (Self.chip self.old).setting.arm ≡ None }
        ensures setting { (Self.chip self.new).setting
            ≡ record (Self.chip self.old).setting {
              arm = Some (record { calls = calls; mask = mask; changes = (Self.chip self.old).changes });
            } }
        ensures left { (Self.chip self.new).left ≡ calls }
        ensures not_sure { (Self.chip self.new).sure ≡ false }
        ensures stays { IsTrue (Self.chip self.old).honest → Stays (Self.chip self.old) (Self.chip self.new) }
        ensures changes { (Self.chip self.new).changes ≡ (Self.chip self.old).changes }
        ensures erases { (Self.chip self.new).erases ≡ (Self.chip self.old).erases }
        ensures octets { (Self.chip self.new).octets ≡ (Self.chip self.old).octets }
        ensures reads { (Self.chip self.new).reads ≡ (Self.chip self.old).reads }
        ensures frame { KeepsCount (Self.chip self.old) (Self.chip self.new) };

    /// Cuts power and gives it again. What is then read is one of the images from before, and the arm is gone.
    fn power_cycle(&mut self)
        ensures image { IsTrue (Self.chip self.old).honest → (Self.chip self.old).images (Self.chip self.new).now }
        ensures fresh { IsTrue (Self.chip self.old).honest → IsFresh (Self.chip self.new) }
        ensures any_moment { IsTrue (Self.chip self.old).honest
            → Elapses (Self.chip self.old) (Self.chip self.new) (Self.chip self.old).images }
        ensures setting { (Self.chip self.new).setting
            ≡ record {
              faults = (Self.chip self.old).faults;
              arm = None;
              saved = (Self.chip self.new).now;
              moment = (Self.chip self.new).moment;
              called = 0;
              programmed = 0;
              cycles = (Self.chip self.old).setting.cycles + 1;
            } }
        ensures changes { (Self.chip self.new).changes ≡ 0 }
        ensures erases { (Self.chip self.new).erases ≡ 0 }
        ensures octets { (Self.chip self.new).octets ≡ 0 }
        ensures reads { (Self.chip self.new).reads ≡ 0 }
        ensures sure { IsTrue (Self.chip self.old).steady → IsTrue (Self.chip self.new).sure }
        ensures frame { KeepsCount (Self.chip self.old) (Self.chip self.new) };

    /// How many program and erase calls were begun since the last power cycle (`begins`, `uncalled` of [`Flash`]). Once it is ffffffff it grows
    /// no more.
    fn changes(&self) -> u32
        ensures { result ≡ (Self.chip self.now).changes };

    // A steady flash has failed since the last power cycle only by an arm.
    ghost explained: { (b : Self) → IsExplained (Self.chip b) };

    // A steady flash with an arm has counted at most the calls since that come before the torn one, and one more for each time that it failed since the
    // last power cycle.
    ghost carried: { (b : Self) → IsCarriedOut (Self.chip b) };
}
