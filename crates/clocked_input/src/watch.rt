//! Waiting until there is something to be told.
#![tactic(auto)]

ghost use Rattle.std.specs.Prelude.{◌≡◌, ◌||◌, Option, true, IfOk};
ghost use Rattle.live_lines.specs.Clock.{HasPassed};
ghost use Rattle.clocked_input.specs.Telling.{IsTold, IsToldBy, WasLookedAt, WasWaitedFor, WatchView};

use crate::ticks::{left_to, passed_at, told_now};
use live_lines::Awaited;
use std::io;

/// What a look shows.
#[derive(Clone, Copy, Debug, PartialEq, Eq)]
pub struct Sight {
    /// Whether something is ready.
    pub ready: bool,
    /// How many nanoseconds passed since the beginning, up to 2^64 - 1.
    pub nanos: u64,
}

impl Sight {
    /// Whether something is ready, there or at hand.
    fn is_ready(self, at_hand: bool) -> bool
        ensures value { result ≡ (at_hand || self.ready) }
    {
        at_hand || self.ready
    }
}

/// What is watched by whoever waits: a place where something may come to lie, and a clock.
pub trait Watch {
    // What is known of it, where contracts know it.
    ghost view: { Self → Option WatchView };

    /// Looks whether something is ready, and how late it is.
    fn look(&mut self) -> io::Result<Sight>
        ensures looked { IfOk result (λ s. WasLookedAt s.ready s.nanos (view self.old) (view self.new)) };

    /// Waits until something is ready, but no longer than so many nanoseconds.
    fn wait(&mut self, nanos: u64)
        ensures waited { WasWaitedFor nanos (view self.old) (view self.new) };
}

/// Waits until there is something to be told, where so many ticks were told, the last that was told was time or wasn't, and something is due in
/// so many ticks behind those that were told. With `at_hand` something is ready already.
///
/// # Errors
///
/// Where a look fails, and after 2^64 - 1 looks.
pub fn await_told<W: Watch>(
    watch: &mut W,
    at_hand: bool,
    told_time: bool,
    told: u64,
    due: u32,
) -> io::Result<Awaited>
    ensures passed { IfOk result (HasPassed true) }
    ensures told { IfOk result (IsTold at_hand told_time due) }
    ensures known { IfOk result (λ a. IsToldBy at_hand told_time told due a (W.view watch.old) (W.view watch.new)) }
{
    for _look in 0..u64::MAX {
        let sight = watch.look()?;
        let passed = passed_at(told, sight.nanos);
        if let Some(awaited) = told_now(sight.is_ready(at_hand), told_time, passed, due) {
            return Ok(awaited);
        }
        watch.wait(left_to(told, due, sight.nanos));
    }
    Err(io::Error::from(io::ErrorKind::TimedOut))
}
