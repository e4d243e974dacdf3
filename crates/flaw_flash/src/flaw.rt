//! A flash with flaws.
#![tactic(auto)]

ghost use Rattle.std.specs.Prelude.{◌≡◌, ◌+◌, ◌≤◌, true, false, length, IfOk};
ghost use Rattle.std.proofs.Common.{rules};
ghost use Rattle.flash_model.specs.Chip.{IsFresh};
ghost use Rattle.flaw_flash.specs.Flaw.{flawed};

use flash_model::{Bench, Flash, FlashFailed};
use std::alloc::{AllocError, Global};

/// The read calls that are to fail, and how many of them were begun.
#[derive(Drop)]
struct Flaws {
    failing: Vec<u32>,
    calls: u32,
    begun: usize,
    ghost few: { begun ≤ length failing.items },
}

impl Flaws {
    /// Counts a read call. Returns whether it is to fail.
    fn is_next(&mut self) -> bool
        ensures none { result ≡ false → self.new.begun ≡ self.old.begun }
        ensures one { result ≡ true → self.new.begun ≡ self.old.begun + 1 }
    {
        self.calls = self.calls.saturating_add(1);
        if self.begun < self.failing.len() && self.failing[self.begun] == self.calls {
            self.begun += 1;
            return true;
        }
        false
    }
}

/// A flash whose reads fail at listed calls besides: such a call raises the count of faults by one, and nothing is cut. It is as honest as the
/// flash below, and it isn't steady.
#[derive(Drop)]
pub struct FlawFlash<F: Flash + Drop> {
    flash: F,
    flaws: Flaws,
    /// How many reads failed that the flash below had done.
    count: usize,
    cycled: usize,
    ghost few: { count ≤ flaws.begun },
    ghost earlier: { cycled ≤ count },
}

impl<F: Flash + Drop> FlawFlash<F> {
    /// This flash, whose read calls, counted from 1 on over all power cycles, fail where their number is the next of the list.
    pub fn new(alloc: Global, flash: F, reads: &[u32]) -> Result<Self, AllocError>
        ensures now { IfOk result (λ f. (⟦<FlawFlash<F> as Flash>⟧.chip f).now ≡ (F.chip flash).now) }
        ensures fresh { IsFresh (F.chip flash) → IfOk result (λ f. IsFresh (⟦<FlawFlash<F> as Flash>⟧.chip f)) }
        ensures setting { IfOk result (λ f. (⟦<FlawFlash<F> as Flash>⟧.chip f).setting ≡ (F.chip flash).setting) }
        ensures faults { IfOk result (λ f. (⟦<FlawFlash<F> as Flash>⟧.chip f).faults ≡ (F.chip flash).faults) }
        ensures changes { IfOk result (λ f. (⟦<FlawFlash<F> as Flash>⟧.chip f).changes ≡ (F.chip flash).changes) }
        ensures erases { IfOk result (λ f. (⟦<FlawFlash<F> as Flash>⟧.chip f).erases ≡ (F.chip flash).erases) }
        ensures octets { IfOk result (λ f. (⟦<FlawFlash<F> as Flash>⟧.chip f).octets ≡ (F.chip flash).octets) }
    {
        let failing = reads.to_vec(alloc)?;
        let flaws = Flaws {
            failing,
            calls: 0,
            begun: 0,
        };
        Ok(FlawFlash {
            flash,
            flaws,
            count: 0,
            cycled: 0,
        })
    }
}

impl<F: Flash + Drop> Flash for FlawFlash<F> {
    ghost chip = { λ f. flawed (F.chip f.flash) f.count f.cycled };

    ghost reads_image = { λ f honest. F.reads_image f.flash honest };

    ghost content = { λ f t c honest. F.content f.flash t c honest };

    ghost counts_now = { λ f t c le image. F.counts_now f.flash t c le image };

    ghost counted = { λ f. F.counted f.flash };

    ghost counted_erases = { λ f. F.counted_erases f.flash };

    ghost counted_octets = { λ f. F.counted_octets f.flash };

    ghost only_now = { λ f c. F.only_now f.flash c };

    fn read(&mut self, at: u32, buf: &mut [u8]) -> Result<(), FlashFailed> {
        let is_flaw = self.flaws.is_next();
        self.flash.read(at, buf)?;
        if is_flaw {
            self.count += 1;
            return Err(FlashFailed);
        }
        Ok(())
    }

    fn program(&mut self, at: u32, bytes: &[u8]) -> Result<(), FlashFailed> {
        self.flash.program(at, bytes)
    }

    fn erase(&mut self, sector: u32) -> Result<(), FlashFailed> {
        self.flash.erase(sector)
    }
}

impl<B: Bench> Bench for FlawFlash<B> {
    ghost explained = { λ f steady. Prim.search rules };

    ghost carried = { λ f steady. Prim.search rules };

    fn arm(&mut self, calls: u32, mask: u8) {
        self.flash.arm(calls, mask);
    }

    fn power_cycle(&mut self) {
        self.flash.power_cycle();
        self.cycled = self.count;
    }

    fn changes(&self) -> u32 {
        self.flash.changes()
    }
}
