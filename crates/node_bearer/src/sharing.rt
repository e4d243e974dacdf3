//! How a bearer comes to its turn at the lock: beside others, or alone.
#![tactic(auto)]

ghost use Rattle.std.specs.Prelude.{◌≡◌, ℕ, ◌<◌, ◌^◌, true, false, length};
ghost use Rattle.turn_lock.specs.Entries.{IsPrefix, StandFrom};
ghost use Rattle.turn_lock.specs.Views.{IsPassOf};

use std::sync::Wait;
use std::thread;
use turn_lock::{Logged, Pass, Turn};

/// How bearers share what the lock hands out. Whoever may wait, shares it with the bearers of other threads; `Alone` with nobody.
pub trait Sharing {
    /// How many parts of the lock a bearer's pass has.
    ghost parts: { ℕ };

    /// Whether a bearer reads its network PDUs before it comes to its turn, so that others wait no longer than they have to.
    fn reads_early(&self) -> bool;

    /// Has the value handed out.
    fn enter<T: Logged + Drop>(&self, turn: &Turn<T>, p: &mut Pass<T>) -> T
        requires pass { IsPassOf turn.now p.old }
        requires outside { p.old.inside ≡ false }
        requires parts { p.old.parts ≡ parts }
        ensures origin { T.origin result ≡ T.origin turn.now.first }
        ensures few { length (T.entries result) < 2 ^ 64 }
        ensures seen { IsPrefix p.old.seen (T.entries result) }
        ensures stands { StandFrom 0 (T.entries result) p.old.own }
        ensures frame { p.new ≡ record p.old { inside = true; seen = T.entries result } };

    /// Lets others run, where they share the lock.
    fn make_way(&self);
}

impl<R: Wait> Sharing for R {
    ghost parts = { 1 };

    fn reads_early(&self) -> bool {
        true
    }

    fn enter<T: Logged + Drop>(&self, turn: &Turn<T>, p: &mut Pass<T>) -> T {
        turn.enter(self, p)
    }

    fn make_way(&self) {
        thread::yield_now();
    }
}

/// A bearer that has the whole lock, so that it waits for nobody, and needs no handle.
#[derive(Clone, Copy)]
pub struct Alone {
    /// Whether it reads network PDUs before its turn all the same.
    pub reads_early: bool,
}

impl Sharing for Alone {
    ghost parts = { 1024 };

    fn reads_early(&self) -> bool {
        self.reads_early
    }

    fn enter<T: Logged + Drop>(&self, turn: &Turn<T>, p: &mut Pass<T>) -> T {
        turn.enter_alone(p)
    }

    fn make_way(&self) {}
}
