// A flash over a mirror in memory and a place.
//
// A program or erase call is done on the goal first, in memory: that is what the place is to hold. Then the place takes the range. Where it does,
// the mirror is done so too, and is what the place holds. Where it refuses, the mirror stays and fails from then on, and the place holds each
// bit of the mirror's or of the goal's.
ghost use Rattle.std.specs.Prelude.{◌≡◌, ◌+◌, ◌%◌, ◌<◌, ◌≤◌, ℕ, All, List, [], length, map, replicate, true, false, IfOk, IsOk, IsTrue, None, Some, slice_range};
ghost use Rattle.std.proofs.Common.{inl};
ghost use Rattle.std.proofs.Math.Nat.{le_refl};
ghost use Rattle.flash_model.specs.Chip.{IsFresh, Keeps, Stays};
ghost use Rattle.file_flash.specs.Backing.{WasPut, WasTorn};
ghost use Rattle.file_flash.specs.Backed.{IsMirrored, IsTied, IsTimed, TornSince, backed_chip, time_at};
ghost use Rattle.file_flash.specs.Handed.{IsHandedOut};
ghost use Rattle.file_flash.specs.Noted.{AreFew, AreFronts, AreKinds, AreLean, AreNoted, AreOnChip, IsInside, MayBeCut, Put, and_put, octets_given, program_put, put_of, written};
ghost use Rattle.file_flash.specs.Laws.{content_law, counts_now_law, cut_prop, kinds_prop, only_now_law};

use crate::backing::Backing;
use crate::noted::{NotedPlace, Write};
use crate::saved::Keeper;
use flash_model::{Bench, FLASH_OCTETS, Flash, FlashFailed, MemFlash, SECTOR_OCTETS, SECTORS};
use std::alloc::{AllocError, Global};

/// Octets of a sector.
const SECTOR: usize = SECTOR_OCTETS as usize;

/// A flash over a place. What is read comes from a mirror in memory. Each program and erase call is durable on the place before it answers. Once
/// the place refused a write each call fails, until the place is opened anew.
#[derive(Drop)]
pub struct FileFlash<F: Bench, B: Backing> {
    mirror: F,
    /// What the place is to hold after the call that is under way.
    goal: F,
    backing: B,
    /// Whether the place refused a write.
    failed: bool,
    /// What was read when it was made, or when its writes were handed out last; and each call of it.
    saved: Keeper,
    ghost mirrored: { IsMirrored (F.chip mirror) (F.chip goal) failed },
    ghost tied: { IsTied failed (F.chip mirror) (F.chip goal) (B.held backing) },
    ghost noted: { AreNoted (B.waiting backing) saved.octets (F.chip mirror).now },
    ghost few: { AreFew (B.waiting backing) saved.called (F.chip mirror).changes },
    ghost lean: { AreLean (B.waiting backing) saved.programmed (F.chip mirror).octets },
    ghost timed: { IsTimed saved (F.chip mirror).moment },
    ghost kinds: { AreKinds (B.waiting backing) saved.octets } by { kinds_prop (B.waiting backing) saved.octets },
    ghost fronts: { MayBeCut (B.waiting backing) saved.octets (TornSince saved.calls saved.moment) } by { cut_prop (B.waiting backing) saved.octets (TornSince saved.calls saved.moment) },
}

/// A flash whose writes are made by its caller.
pub type NotedFlash = FileFlash<MemFlash, NotedPlace>;

impl<B: Backing> FileFlash<MemFlash, B> {
    /// A flash over a place, with the image of 65,536 octets that was read of it (`told`). A new one's are all ff. No write waits there.
    pub fn new(alloc: Global, backing: B, image: &[u8]) -> Result<Self, AllocError>
        requires size { length image.now ≡ FLASH_OCTETS }
        requires told { (c : List ℕ) → B.held backing ≡ Some c → c ≡ image.now }
        requires none { (puts : List Put) → B.waiting backing ≡ Some puts → puts ≡ [] }

        ensures now { IfOk result (λ f. (⟦<FileFlash<MemFlash, B> as Flash>⟧.chip f).now ≡ image.now) }
        ensures fresh { IfOk result (λ f. IsFresh (⟦<FileFlash<MemFlash, B> as Flash>⟧.chip f)) }
        ensures setting { IfOk result
            (λ f. (⟦<FileFlash<MemFlash, B> as Flash>⟧.chip f).setting
            ≡ record {
              faults = (⟦<FileFlash<MemFlash, B> as Flash>⟧.chip f).faults;
              arm = None;
              saved = image.now;
              moment = (⟦<FileFlash<MemFlash, B> as Flash>⟧.chip f).moment;
              called = 0;
              programmed = 0;
              cycles = 0;
            }) }
        ensures changes { IfOk result (λ f. (⟦<FileFlash<MemFlash, B> as Flash>⟧.chip f).changes ≡ 0) }
        ensures erases { IfOk result (λ f. (⟦<FileFlash<MemFlash, B> as Flash>⟧.chip f).erases ≡ 0) }
        ensures octets { IfOk result (λ f. (⟦<FileFlash<MemFlash, B> as Flash>⟧.chip f).octets ≡ 0) }
        ensures reads { IfOk result (λ f. (⟦<FileFlash<MemFlash, B> as Flash>⟧.chip f).reads ≡ 0) }
    {
        let mut mirror = MemFlash::new(alloc)?;
        fill(&mut mirror, image);
        let mut goal = MemFlash::new(alloc)?;
        fill(&mut goal, image);
        let mut saved = Keeper::new(alloc)?;
        saved.save(&mirror);
        Ok(FileFlash {
            mirror,
            goal,
            backing,
            failed: false,
            saved,
        })
    }
}

impl<F: Bench, B: Backing> FileFlash<F, B> {
    /// The place. Whoever comes next finds an image of this flash there (`image`).
    pub fn backing(&self) -> &B
        ensures image { (c : List ℕ) → B.held result.now ≡ Some c → (⟦<FileFlash<F, B> as Flash>⟧.chip self.now).images c }
    {
        &self.backing
    }
}

impl<F: Bench> FileFlash<F, NotedPlace> {
    /// The writes since this was called last, or since the flash was made, in their order: made one after another on what was read then, they give
    /// what is read now (`writes`), each within one sector, and none without an octet (`inside`). A program write gives its octets on a chip too, where it clears bits alone
    /// (`on_chip`). Each front of them, with its last write torn or whole, is content that a power cut might have left since then
    /// (`fronts`). They are at most so many as program and erase calls were counted since then, as long as that count isn't
    /// ffffffff (`few`), and those that are no erase have at most so many octets as program calls were given since then, with the same proviso of that
    /// count (`lean`). None waits any more then (`none`). Nothing else changes than what is saved, and it takes no memory. A
    /// flash that failed hands out its writes too: none of the call in which it failed.
    ///
    /// Whoever takes them makes them durable, in their order, before anything leaves that this flash was written for.
    pub fn take_writes(&mut self) -> Vec<Write>
        ensures writes { written (map put_of result.items) (⟦<FileFlash<F, NotedPlace> as Flash>⟧.chip self.old).setting.saved
            ≡ (⟦<FileFlash<F, NotedPlace> as Flash>⟧.chip self.old).now }
        ensures inside { All IsInside result.items }
        ensures on_chip { AreOnChip (map put_of result.items) (⟦<FileFlash<F, NotedPlace> as Flash>⟧.chip self.old).setting.saved }
        ensures fronts { AreFronts (map put_of result.items) (⟦<FileFlash<F, NotedPlace> as Flash>⟧.chip self.old).setting.saved
            ((⟦<FileFlash<F, NotedPlace> as Flash>⟧.chip self.old).since (⟦<FileFlash<F, NotedPlace> as Flash>⟧.chip self.old).setting.moment) }
        ensures noted { Some (map put_of result.items) ≡ ⟦<NotedPlace as Backing>⟧.waiting self.old.backing }
        ensures none { ⟦<NotedPlace as Backing>⟧.waiting self.new.backing ≡ Some [] }
        ensures few { (⟦<FileFlash<F, NotedPlace> as Flash>⟧.chip self.old).changes < 4294967295
            → (⟦<FileFlash<F, NotedPlace> as Flash>⟧.chip self.old).setting.called + length result.items
            ≤ (⟦<FileFlash<F, NotedPlace> as Flash>⟧.chip self.old).changes }
        ensures lean { (⟦<FileFlash<F, NotedPlace> as Flash>⟧.chip self.old).octets < 4294967295
            → (⟦<FileFlash<F, NotedPlace> as Flash>⟧.chip self.old).setting.programmed + octets_given (map put_of result.items)
            ≤ (⟦<FileFlash<F, NotedPlace> as Flash>⟧.chip self.old).octets }
        ensures frame { IsHandedOut (⟦<FileFlash<F, NotedPlace> as Flash>⟧.chip self.old)
            (⟦<FileFlash<F, NotedPlace> as Flash>⟧.chip self.new) }
    {
        self.saved.save(&self.mirror);
        self.backing.take()
    }
}

/// The laws of the writes that a place notes for the caller of its flash, since they were handed out last, or since the flash was made. At most so many
/// wait as program and erase calls were counted since then, as long as that count isn't ffffffff (`few`), so none where none was. Those that are no erase
/// have at most so many octets as program calls were given since then, with the same proviso of that count (`lean`). Each gives its
/// octets on a chip too (`kinds`). Each front of them, with its last write torn or whole, is content that a power cut might have left
/// since then (`fronts`). It does nothing.
pub fn waiting_law<F: Bench, B: Backing>()
    ensures few { (f : FileFlash F B ⟦<F as Flash>⟧ ⟦<B as Backing>⟧) → AreFew (B.waiting f.backing)
        (⟦<FileFlash<F, B> as Flash>⟧.chip f).setting.called (⟦<FileFlash<F, B> as Flash>⟧.chip f).changes }
    ensures lean { (f : FileFlash F B ⟦<F as Flash>⟧ ⟦<B as Backing>⟧) → AreLean (B.waiting f.backing)
        (⟦<FileFlash<F, B> as Flash>⟧.chip f).setting.programmed (⟦<FileFlash<F, B> as Flash>⟧.chip f).octets }
    ensures kinds { (f : FileFlash F B ⟦<F as Flash>⟧ ⟦<B as Backing>⟧) → AreKinds (B.waiting f.backing)
        (⟦<FileFlash<F, B> as Flash>⟧.chip f).setting.saved }
    ensures fronts { (f : FileFlash F B ⟦<F as Flash>⟧ ⟦<B as Backing>⟧) → MayBeCut (B.waiting f.backing)
        (⟦<FileFlash<F, B> as Flash>⟧.chip f).setting.saved
        ((⟦<FileFlash<F, B> as Flash>⟧.chip f).since (⟦<FileFlash<F, B> as Flash>⟧.chip f).setting.moment) }
{}

/// Programs an image into an erased flash that doesn't fail, and cycles its power, so that none of it is counted.
fn fill<F: Bench>(flash: &mut F, image: &[u8])
    requires size { length image.now ≡ FLASH_OCTETS }
    requires erased { (F.chip flash.old).now ≡ replicate 65536 255 }
    requires fresh { IsFresh (F.chip flash.old) }
    requires sure { IsTrue (F.chip flash.old).sure }
    requires steady { IsTrue (F.chip flash.old).steady }

    ensures now { (F.chip flash.new).now ≡ image.now }
    ensures fresh { IsFresh (F.chip flash.new) }
    ensures sure { IsTrue (F.chip flash.new).sure }
    ensures steady { IsTrue (F.chip flash.new).steady }
    ensures setting { (F.chip flash.new).setting
        ≡ record {
          faults = (F.chip flash.new).faults;
          arm = None;
          saved = image.now;
          moment = (F.chip flash.new).moment;
          called = 0;
          programmed = 0;
          cycles = (F.chip flash.old).setting.cycles + 1;
        } }
    ensures changes { (F.chip flash.new).changes ≡ 0 }
    ensures erases { (F.chip flash.new).erases ≡ 0 }
    ensures octets { (F.chip flash.new).octets ≡ 0 }
    ensures reads { (F.chip flash.new).reads ≡ 0 }
{
    for sector in 0..SECTORS {
        let at = SECTOR * sector as usize;
        // it is sure, so this is Ok
        let _ = flash.program(SECTOR_OCTETS * sector, &image[at..at + SECTOR]);
    }
    flash.power_cycle();
}

/// Puts on the place what a range of a flash holds. Whether the place took it.
fn put_range<F: Flash, B: Backing>(
    goal: &mut F,
    backing: &mut B,
    at: u32,
    len: usize,
    range: &mut [u8],
) -> Result<bool, FlashFailed>
    requires len { length range.old ≡ len }
    requires some { 0 < len }
    requires within { at + len ≤ FLASH_OCTETS }
    requires one_sector { at % SECTOR_OCTETS + len ≤ SECTOR_OCTETS }
    ensures taken { IfOk result
        (λ taken. taken ≡ true
        → WasPut at (slice_range (F.chip goal.old).now at (at + len)) (B.held backing.old) (B.held backing.new)) }
    ensures refused { IfOk result
        (λ taken. taken ≡ false
        → WasTorn at (slice_range (F.chip goal.old).now at (at + len)) (B.held backing.old) (B.held backing.new)) }
    ensures noted { IfOk result
        (λ taken. taken ≡ true
        → B.waiting backing.new ≡ and_put (program_put at (slice_range (F.chip goal.old).now at (at + len))) (B.waiting backing.old)) }
    ensures unnoted { IfOk result (λ taken. taken ≡ false → B.waiting backing.new ≡ B.waiting backing.old) }
    ensures stays { IsTrue (F.chip goal.old).honest → Stays (F.chip goal.old) (F.chip goal.new) }
    ensures sure { IsTrue (F.chip goal.old).sure → IsOk result }
    ensures frame { Keeps (F.chip goal.old) (F.chip goal.new) }
{
    goal.read(at, range)?;
    Ok(backing.put(at, range).is_ok())
}

impl<F: Bench, B: Backing> Flash for FileFlash<F, B> {
    ghost chip = { λ f. backed_chip (F.chip f.mirror) (F.chip f.goal) f.failed f.saved };

    ghost reads_image = { λ f honest. inl (F.reads_image f.mirror honest) };

    ghost content = { λ f t c honest. content_law (F.chip f.mirror) (F.chip f.goal) f.failed f.saved t c f.timed
        (λ u d since. F.content f.mirror u d honest since)
        (F.content f.mirror (F.chip f.mirror).moment (F.chip f.mirror).now honest
        (F.counts_now f.mirror (F.chip f.mirror).moment (F.chip f.mirror).now (le_refl (F.chip f.mirror).moment) (F.reads_image f.mirror honest)))
        (F.content f.goal (F.chip f.goal).moment (F.chip f.goal).now f.mirrored.sound
        (F.counts_now f.goal (F.chip f.goal).moment (F.chip f.goal).now (le_refl (F.chip f.goal).moment) (F.reads_image f.goal f.mirrored.sound))) };

    ghost counts_now = { λ f t c le image. counts_now_law (F.chip f.mirror) (F.chip f.goal) f.failed f.saved t c
        (λ is. F.counts_now f.mirror (time_at f.saved.calls (F.chip f.mirror).moment t) c (f.timed.earlier t) is) image };

    ghost counted = { λ f. F.counted f.mirror };

    ghost counted_erases = { λ f. F.counted_erases f.mirror };

    ghost counted_octets = { λ f. F.counted_octets f.mirror };

    ghost only_now = { λ f c. only_now_law (F.chip f.mirror) (F.chip f.goal) f.failed f.saved c (F.only_now f.mirror c) };

    fn read(&mut self, at: u32, buf: &mut [u8]) -> Result<(), FlashFailed> {
        self.saved.note(&self.mirror, &self.goal);
        self.mirror.read(at, buf)
    }

    fn program(&mut self, at: u32, bytes: &[u8]) -> Result<(), FlashFailed> {
        if self.failed {
            self.saved.note(&self.mirror, &self.goal);
            return self.mirror.program(at, bytes);
        }
        let mut range = [0u8; SECTOR];
        let range = &mut range[..bytes.len()];
        self.goal.program(at, bytes)?;
        self.saved.note(&self.mirror, &self.goal);
        if put_range(&mut self.goal, &mut self.backing, at, bytes.len(), range)? {
            self.mirror.program(at, bytes)
        } else {
            self.failed = true;
            self.mirror.arm(0, 0);
            self.mirror.program(at, bytes)
        }
    }

    fn erase(&mut self, sector: u32) -> Result<(), FlashFailed> {
        if self.failed {
            self.saved.note(&self.mirror, &self.goal);
            return self.mirror.erase(sector);
        }
        self.goal.erase(sector)?;
        self.saved.note(&self.mirror, &self.goal);
        match self.backing.erase_sector(sector) {
            Ok(()) => self.mirror.erase(sector),
            Err(_) => {
                self.failed = true;
                self.mirror.arm(0, 0);
                self.mirror.erase(sector)
            }
        }
    }
}
