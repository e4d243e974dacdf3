//! The source, and its thread.
#![tactic(auto)]

ghost use Rattle.std.specs.Prelude.{◌≡◌, ◌↔◌, ℕ, ◌≤◌, [], length, take, true, None, IfOk, IfSome, OnOk, OnErr};
ghost use Rattle.std.specs.Io.KnownBytes.{Consumes, IsAtEnd};
ghost use Rattle.mesh_base.specs.Outside.{Rose};
ghost use Rattle.live_lines.specs.Clock.{HasPassed, with_told};
ghost use Rattle.clocked_input.specs.Telling.{IsTold, is_time};

use crate::desk::{Desk, Laid, PIECE_OCTETS};
use crate::watch::{Sight, Watch, await_told};
use live_lines::{Awaited, ClockedSource};
use mesh_base::octets::Octets;
use mesh_base::outside::{Failed, Source};
use std::alloc::Global;
use std::sync::{Arc, Wait};
use std::thread::Threads;
use std::time::{Clock, Duration, Instant};
use std::{io, thread};

/// A source that a thread reads, with a clock.
#[derive(Drop)]
pub struct ClockedInput<R: Wait + Clock + Drop> {
    /// The system.
    rt: R,
    /// Where the thread lays down what it read.
    desk: Arc<Desk, Global>,
    /// The piece that was taken last.
    piece: Octets<PIECE_OCTETS>,
    /// How many of its octets were given.
    given: usize,
    /// When it began.
    began: Instant,
    /// How many ticks were told since.
    told: u64,
    /// Whether the last that was told was time.
    told_time: bool,
    /// How often it failed, up to 2^64 - 1.
    faults: u64,
}

impl<R: Threads + Wait + Clock + Copy + Drop + Send + 'static> ClockedInput<R> {
    /// Starts a thread that reads the source, and the clock.
    ///
    /// # Errors
    ///
    /// Where there is no memory or no thread, or the clock can't be read. The source is dropped then.
    pub fn start<S: Source + Send + Drop + 'static>(
        rt: &R,
        alloc: Global,
        source: S,
    ) -> io::Result<ClockedInput<R>> {
        let began = Instant::now(rt)?;
        let desk = Arc::new(alloc, Desk::new())?;
        let theirs = Arc::try_clone(&desk)?;
        let handle = *rt;
        let mut source = source;
        let _reader = thread::spawn(rt, move || theirs.fill(&handle, &mut source))?;
        Ok(ClockedInput {
            rt: *rt,
            desk,
            piece: Octets::new(),
            given: 0,
            began,
            told: 0,
            told_time: false,
            faults: 0,
        })
    }
}

impl<R: Wait + Clock + Drop> ClockedInput<R> {
    /// The octets that were taken and not given yet.
    fn rest(&self) -> &[u8] {
        self.piece.as_slice().get(self.given..).unwrap_or(&[])
    }

    /// One fault more.
    fn fail(&mut self) -> Failed
        ensures faults { Rose self.old.faults self.new.faults }
        ensures later { self.old.faults ≤ self.new.faults }
        ensures told { self.new.told ≡ self.old.told }
    {
        self.faults = self.faults.saturating_add(1);
        Failed
    }

    /// This was told.
    fn tell(&mut self, awaited: Awaited)
        ensures told { self.new.told ≡ with_told self.old.told awaited }
        ensures time { self.new.told_time ≡ is_time awaited }
        ensures faults { self.new.faults ≡ self.old.faults }
    {
        match awaited {
            Awaited::Input => self.told_time = false,
            Awaited::Passed(ticks) => {
                self.told_time = true;
                self.told = self.told.saturating_add(u64::from(ticks));
            }
        }
    }
}

/// The desk and the clock, as they are watched. What they are is told to no clause.
#[derive(Drop)]
struct DeskWatch<'a, R: Wait + Clock> {
    rt: &'a R,
    desk: &'a Desk,
    began: &'a Instant,
}

impl<R: Wait + Clock> Watch for DeskWatch<'_, R> {
    ghost view = { λ _. None };

    fn look(&mut self) -> io::Result<Sight> {
        let ready = self.desk.is_filled(self.rt);
        let nanos = u64::try_from(self.began.elapsed(self.rt)?.as_nanos()).unwrap_or(u64::MAX);
        Ok(Sight { ready, nanos })
    }

    fn wait(&mut self, nanos: u64) {
        self.desk.wait(self.rt, Duration::from_nanos(nanos));
    }
}

impl<R: Wait + Clock + Drop> Source for ClockedInput<R> {
    ghost left = { λ _. None };

    ghost faults = { λ s. s.faults };

    fn read(&mut self, buf: &mut [u8]) -> Result<usize, Failed>
        ensures bound { IfOk result (λ n. n ≤ length buf.new) }
        ensures octets { IfOk result (λ n. Consumes (⟦<ClockedInput<R> as Source>⟧.left self.old) (⟦<ClockedInput<R> as Source>⟧.left self.new) (take n buf.new)) }
        ensures end { IfOk result (λ n. IfSome (⟦<ClockedInput<R> as Source>⟧.left self.old) (λ xs. (n ≡ 0) ↔ (xs ≡ []))) }
        ensures at_end { IfOk result (λ n. n ≡ 0 → IsAtEnd (⟦<ClockedInput<R> as Source>⟧.left self.new)) }
        ensures unchanged { OnErr result (⟦<ClockedInput<R> as Source>⟧.left self.new ≡ ⟦<ClockedInput<R> as Source>⟧.left self.old) }
        ensures no_fault { OnOk result (self.new.faults ≡ self.old.faults) }
        ensures cause { OnErr result (Rose self.old.faults self.new.faults) }
        ensures later { self.old.faults ≤ self.new.faults }
        ensures untimed { self.new.told ≡ self.old.told }
    {
        if self.rest().is_empty() {
            match self.desk.take(&self.rt) {
                Laid::Piece(piece) => {
                    self.piece = piece;
                    self.given = 0;
                }
                Laid::Failed => return Err(self.fail()),
                Laid::Nothing | Laid::Ended => return Ok(0),
            }
        }
        let rest = self.rest();
        let count = rest.len().min(buf.len());
        buf[..count].copy_from_slice(&rest[..count]);
        self.given = self.given.saturating_add(count);
        Ok(count)
    }
}

impl<R: Wait + Clock + Drop> ClockedSource for ClockedInput<R> {
    ghost clocked = { true };

    ghost time = { λ s. s.told };

    fn wait(&mut self, at_hand: bool, due: u32) -> Result<Awaited, Failed>
        ensures passed { IfOk result (HasPassed true) }
        ensures counted { IfOk result (λ a. self.new.told ≡ with_told self.old.told a) }
        ensures uncounted { OnErr result (self.new.told ≡ self.old.told) }
        ensures unread { ⟦<ClockedInput<R> as Source>⟧.left self.new ≡ ⟦<ClockedInput<R> as Source>⟧.left self.old }
        ensures no_fault { OnOk result (self.new.faults ≡ self.old.faults) }
        ensures cause { OnErr result (Rose self.old.faults self.new.faults) }
        ensures sure { OnErr result (true ≡ true) }
        ensures told { IfOk result (IsTold at_hand self.old.told_time due) }
        ensures time { IfOk result (λ a. self.new.told_time ≡ is_time a) }
    {
        let mut watch = DeskWatch {
            rt: &self.rt,
            desk: &self.desk,
            began: &self.began,
        };
        let at_hand = at_hand || !self.rest().is_empty();
        match await_told(&mut watch, at_hand, self.told_time, self.told, due) {
            Ok(awaited) => {
                self.tell(awaited);
                Ok(awaited)
            }
            Err(_) => Err(self.fail()),
        }
    }

    fn read_on(&mut self, buf: &mut [u8]) -> Result<usize, Failed> {
        self.read(buf)
    }
}
