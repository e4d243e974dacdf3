//! Sources that tell how much time passed.
#![tactic(auto)]

ghost use Rattle.std.specs.Prelude.{◌≡◌, ◌<◌, ◌≤◌, ◌↔◌, ℕ, Bool, true, false, [], length, take, IfOk, IfSome, OnOk, OnErr};
ghost use Rattle.std.specs.Io.KnownBytes.{Consumes, IsAtEnd};
ghost use Rattle.mesh_base.specs.Outside.{Rose};
ghost use Rattle.live_lines.specs.Clock.{HasPassed, with_told};

use mesh_base::memory::{MemSource, SureSource};
use mesh_base::outside::{Failed, Source};
use mesh_base::standard::StdSource;
use std::io::Read;

/// What a source was waited for.
#[derive(Clone, Copy, Debug, PartialEq, Eq)]
pub enum Awaited {
    /// A line or the end of the input, or octets on the way to them.
    Input,
    /// So many ticks of 10 ms passed, 1 to 100,000,000, that weren't told before.
    Passed(u32),
}

/// A source that may tell time: between two reads it can be waited for, until it has something or time passed. What it tells of time no clause
/// compares with a clock; each tick that it told is counted, once (`counted`).
pub trait ClockedSource: Source {
    // Whether it tells time at all.
    ghost clocked: { Bool };

    // How many ticks it told so far, up to 2^64 - 1.
    ghost time: { Self → ℕ };

    /// Waits until a read answers at once, or `due` ticks passed that weren't told yet. With `at_hand` there is something to be done without a read;
    /// time that passed may be told before it. A source that tells no time doesn't wait here, but in its read.
    fn wait(&mut self, at_hand: bool, due: u32) -> Result<Awaited, Failed>
        ensures passed { IfOk result (HasPassed clocked) }
        ensures counted { IfOk result (λ a. time self.new ≡ with_told (time self.old) a) }
        ensures uncounted { OnErr result (time self.new ≡ time self.old) }
        ensures unread { Self.left self.new ≡ Self.left self.old }
        ensures no_fault { OnOk result (Self.faults self.new ≡ Self.faults self.old) }
        ensures cause { OnErr result (Rose (Self.faults self.old) (Self.faults self.new)) }
        ensures sure { OnErr result (clocked ≡ true) };

    /// Reads as `read` of [`Source`] does, and tells no time (`untimed`).
    fn read_on(&mut self, buf: &mut [u8]) -> Result<usize, Failed>
        requires { 0 < length buf.old }
        ensures bound { IfOk result (λ n. n ≤ length buf.new) }
        ensures octets { IfOk result (λ n. Consumes (Self.left self.old) (Self.left self.new) (take n buf.new)) }
        ensures end { IfOk result (λ n. IfSome (Self.left self.old) (λ xs. (n ≡ 0) ↔ (xs ≡ []))) }
        ensures at_end { IfOk result (λ n. n ≡ 0 → IsAtEnd (Self.left self.new)) }
        ensures unchanged { OnErr result (Self.left self.new ≡ Self.left self.old) }
        ensures no_fault { OnOk result (Self.faults self.new ≡ Self.faults self.old) }
        ensures cause { OnErr result (Rose (Self.faults self.old) (Self.faults self.new)) }
        ensures later { Self.faults self.old ≤ Self.faults self.new }
        ensures untimed { time self.new ≡ time self.old };
}

/// A reader of std tells no time.
impl<R: Read> ClockedSource for StdSource<R> {
    ghost clocked = { false };

    ghost time = { λ _. 0 };

    fn wait(&mut self, _at_hand: bool, _due: u32) -> Result<Awaited, Failed> {
        Ok(Awaited::Input)
    }

    fn read_on(&mut self, buf: &mut [u8]) -> Result<usize, Failed> {
        self.read(buf)
    }
}

/// Octets in memory tell no time.
impl ClockedSource for MemSource<'_> {
    ghost clocked = { false };

    ghost time = { λ _. 0 };

    fn wait(&mut self, _at_hand: bool, _due: u32) -> Result<Awaited, Failed> {
        Ok(Awaited::Input)
    }

    fn read_on(&mut self, buf: &mut [u8]) -> Result<usize, Failed> {
        self.read(buf)
    }
}

/// Octets in memory tell no time.
impl ClockedSource for SureSource<'_> {
    ghost clocked = { false };

    ghost time = { λ _. 0 };

    fn wait(&mut self, _at_hand: bool, _due: u32) -> Result<Awaited, Failed> {
        Ok(Awaited::Input)
    }

    fn read_on(&mut self, buf: &mut [u8]) -> Result<usize, Failed> {
        self.read(buf)
    }
}
