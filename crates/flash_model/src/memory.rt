// A flash in memory. Each call is done at once, so its one image is what it holds; an arm tears a call in the middle.
ghost use Rattle.std.specs.Prelude.{◌≡◌, ℕ, ◌+◌, ◌-◌, ◌<◌, ◌≤◌, List, min, true, false, IfOk, IsTrue, replicate, refl};
ghost use Rattle.std.proofs.Common.{inl};
ghost use Rattle.flash_model.specs.Octets.{IsContent};
ghost use Rattle.flash_model.specs.Chip.{IsFresh};
ghost use Rattle.flash_model.specs.Past.{HadBeen, noted};
ghost use Rattle.flash_model.specs.Course.{course_of, nearer_arm, is_failing, call_of, is_reached_by, is_ahead, is_nearer};
ghost use Rattle.flash_model.specs.Memory.{mem_chip, carried_by, each_content, only_octets, explained_by};

use crate::armed::{Armed, Course, nearer, next_course};
use crate::flash::{Bench, FLASH_OCTETS, Flash, FlashFailed, SECTOR_OCTETS};
use crate::octets::{blank_octets, program_octets};
use crate::past::{CYCLED, FAILED, Recorder};
use std::alloc::{AllocError, Global};

/// A flash in memory that power can be cut from. It fails by an arm alone, and takes memory only when it is made.
#[derive(Drop)]
pub struct MemFlash {
    octets: Vec<u8>,
    past: Recorder,
    changes: u32,
    erases: u32,
    programmed: u32,
    reads: u32,
    arm: Option<Armed>,
    failed: bool,
    ghost content: { IsContent octets.items },
    ghost contents: { (c : List ℕ) → HadBeen past.contents c → IsContent c },
    ghost whole: { failed ≡ false → past.faults ≡ past.cycled },
    ghost cut: { failed ≡ true → (past.cycled < past.faults) × (is_reached_by arm changes ≡ true) },
    ghost ahead: { failed ≡ false → is_ahead arm changes ≡ true },
    ghost few: { changes ≤ 4294967295 },
    ghost fewer: { erases ≤ changes },
    ghost counted: { programmed ≤ 4294967295 },
    ghost within: { is_nearer arm (past.faults - past.cycled) changes ≡ true },
}

impl MemFlash {
    /// An erased flash.
    pub fn new(alloc: Global) -> Result<Self, AllocError>
        ensures erased { IfOk result (λ m. (⟦<MemFlash as Flash>⟧.chip m).now ≡ replicate 65536 255) }
        ensures fresh { IfOk result (λ m. IsFresh (⟦<MemFlash as Flash>⟧.chip m)) }
        ensures sure { IfOk result (λ m. IsTrue (⟦<MemFlash as Flash>⟧.chip m).sure) }
        ensures steady { IfOk result (λ m. IsTrue (⟦<MemFlash as Flash>⟧.chip m).steady) }
        ensures unarmed { IfOk result
            (λ m. (⟦<MemFlash as Flash>⟧.chip m).setting
            ≡ record {
              faults = (⟦<MemFlash as Flash>⟧.chip m).faults;
              arm = None;
              saved = replicate 65536 255;
              moment = (⟦<MemFlash as Flash>⟧.chip m).moment;
              called = 0;
              programmed = 0;
              cycles = 0;
            }) }
        ensures changes { IfOk result (λ m. (⟦<MemFlash as Flash>⟧.chip m).changes ≡ 0) }
        ensures erases { IfOk result (λ m. (⟦<MemFlash as Flash>⟧.chip m).erases ≡ 0) }
        ensures programmed { IfOk result (λ m. (⟦<MemFlash as Flash>⟧.chip m).octets ≡ 0) }
        ensures reads { IfOk result (λ m. (⟦<MemFlash as Flash>⟧.chip m).reads ≡ 0) }
    {
        let octets = vec![in alloc; 0xff; FLASH_OCTETS as usize]?;
        let past = Recorder::new(alloc)?;
        Ok(MemFlash {
            octets,
            past,
            changes: 0,
            erases: 0,
            programmed: 0,
            reads: 0,
            arm: None,
            failed: false,
        })
    }

    // Counts and notes a program or erase call, before it writes.
    fn begin(&mut self) -> Course
        ensures course { result ≡ course_of self.old.failed self.old.arm }
        ensures octets { self.new.octets ≡ self.old.octets }
        ensures past { self.new.past ≡ noted (call_of result) self.old.octets.items self.old.past }
        ensures changes { self.new.changes ≡ min (self.old.changes + 1) 4294967295 }
        ensures arm { self.new.arm ≡ nearer_arm self.old.arm }
        ensures failed { self.new.failed ≡ is_failing result }
        ensures reads { self.new.reads ≡ self.old.reads }
        ensures erases { self.new.erases ≡ self.old.erases }
        ensures programmed { self.new.programmed ≡ self.old.programmed }
    {
        let course = next_course(self.failed, self.arm);
        self.past.note(course.noted_as(), &self.octets);
        self.changes = self.changes.saturating_add(1);
        self.arm = nearer(self.arm);
        self.failed = course.fails();
        course
    }
}

impl Flash for MemFlash {
    ghost chip = { λ m. mem_chip m.past m.octets.items m.changes m.erases m.programmed m.reads m.arm };

    ghost reads_image = { λ m honest. refl };

    ghost content = { λ m t c honest. each_content m.octets.items m.past.contents t c m.content m.contents };

    ghost counts_now = { λ m t c le image. inl image };

    ghost counted = { λ m. m.few };

    ghost counted_erases = { λ m. m.fewer };

    ghost counted_octets = { λ m. m.counted };

    ghost only_now = { λ m c. only_octets m.octets.items m.past.contents c };

    fn read(&mut self, at: u32, buf: &mut [u8]) -> Result<(), FlashFailed> {
        self.reads = self.reads.saturating_add(1);
        if self.failed {
            self.past.note(FAILED, &self.octets);
            return Err(FlashFailed);
        }
        let start = at as usize;
        buf.copy_from_slice(&self.octets[start..start + buf.len()]);
        Ok(())
    }

    fn program(&mut self, at: u32, bytes: &[u8]) -> Result<(), FlashFailed> {
        let course = self.begin();
        self.programmed = self.programmed.saturating_add(bytes.len() as u32);
        match course {
            Course::Whole => {
                program_octets(&mut self.octets, at as usize, bytes, 0xff);
                Ok(())
            }
            Course::Torn(mask) => {
                program_octets(&mut self.octets, at as usize, bytes, mask);
                Err(FlashFailed)
            }
            Course::Dead => Err(FlashFailed),
        }
    }

    fn erase(&mut self, sector: u32) -> Result<(), FlashFailed> {
        let at = (SECTOR_OCTETS * sector) as usize;
        let course = self.begin();
        self.erases = self.erases.saturating_add(1);
        match course {
            Course::Whole => {
                blank_octets(&mut self.octets, at, SECTOR_OCTETS as usize, 0xff);
                Ok(())
            }
            Course::Torn(mask) => {
                blank_octets(&mut self.octets, at, SECTOR_OCTETS as usize, mask);
                Err(FlashFailed)
            }
            Course::Dead => Err(FlashFailed),
        }
    }
}

impl Bench for MemFlash {
    ghost explained = { λ m. explained_by m.past m.changes m.erases m.programmed m.reads m.arm m.octets.items m.failed m.whole m.cut };

    ghost carried = { λ m. carried_by m.past m.changes m.erases m.programmed m.reads m.arm m.octets.items m.within };

    fn arm(&mut self, calls: u32, mask: u8) {
        self.arm = Some(Armed {
            calls,
            mask,
            changes: self.changes,
            left: calls,
        });
    }

    fn power_cycle(&mut self) {
        self.past.note(CYCLED, &self.octets);
        self.changes = 0;
        self.erases = 0;
        self.programmed = 0;
        self.reads = 0;
        self.arm = None;
        self.failed = false;
    }

    fn changes(&self) -> u32 {
        self.changes
    }
}
