//! Where the thread lays down what it read, one piece at a time.
#![tactic(auto)]

use mesh_base::octets::Octets;
use mesh_base::outside::Source;
use std::sync::{Condvar, CondvarTimeouts, Mutex, Wait};
use std::time::{Clock, Duration};

/// The most octets of a piece.
pub(crate) const PIECE_OCTETS: usize = 4096;

/// What lies on a desk.
#[derive(Drop)]
pub(crate) enum Laid {
    /// Nothing.
    Nothing,
    /// Octets, at least one.
    Piece(Octets<PIECE_OCTETS>),
    /// That there are no more. It stays.
    Ended,
    /// That the reader failed. It stays.
    Failed,
}

/// Whether there is nothing.
fn is_nothing(laid: &Laid) -> bool {
    match laid {
        Laid::Nothing => true,
        _ => false,
    }
}

/// Whether there is a piece.
fn is_piece(laid: &Laid) -> bool {
    match laid {
        Laid::Piece(_) => true,
        _ => false,
    }
}

/// What a thread that reads shares with the one that takes.
#[derive(Drop)]
pub(crate) struct Desk {
    /// What lies there.
    laid: Mutex<Laid>,
    /// Something was laid there.
    filled: Condvar,
    /// A piece was taken.
    taken: Condvar,
}

impl Desk {
    /// A desk with nothing on it.
    pub(crate) fn new() -> Desk {
        Desk {
            laid: Mutex::new(Laid::Nothing),
            filled: Condvar::new(),
            taken: Condvar::new(),
        }
    }

    /// Lays something there, once the piece before it was taken.
    fn lay<R: Wait>(&self, rt: &R, next: Laid) {
        let mut laid = self
            .taken
            .wait_while(rt, self.laid.lock(rt), |laid| is_piece(laid));
        *laid = next;
        drop(laid);
        self.filled.notify_one();
    }

    /// Reads a source to its end, or until it fails, and lays down what it gives.
    pub(crate) fn fill<R: Wait, S: Source>(&self, rt: &R, source: &mut S) {
        let mut octets = [0u8; PIECE_OCTETS];
        for _ in rt.forever() {
            match source.read(&mut octets) {
                Ok(0) => return self.lay(rt, Laid::Ended),
                Ok(count) => {
                    if let Ok(piece) = Octets::of(&octets[..count]) {
                        self.lay(rt, Laid::Piece(piece));
                    }
                }
                Err(_) => return self.lay(rt, Laid::Failed),
            }
        }
    }

    /// Whether something lies there.
    pub(crate) fn is_filled<R: Wait>(&self, rt: &R) -> bool {
        let laid = self.laid.lock(rt);
        !is_nothing(&laid)
    }

    /// Waits until something lies there, but no longer than this.
    pub(crate) fn wait<R: Wait + Clock>(&self, rt: &R, most: Duration) {
        let _ = self
            .filled
            .wait_timeout_while(rt, self.laid.lock(rt), most, |laid| is_nothing(laid));
    }

    /// Takes what lies there, once something does.
    pub(crate) fn take<R: Wait>(&self, rt: &R) -> Laid {
        let mut laid = self
            .filled
            .wait_while(rt, self.laid.lock(rt), |laid| is_nothing(laid));
        let next = match &*laid {
            Laid::Failed => Laid::Failed,
            Laid::Ended => Laid::Ended,
            _ => Laid::Nothing,
        };
        let took = std::mem::replace(&mut *laid, next);
        drop(laid);
        self.taken.notify_one();
        took
    }
}
