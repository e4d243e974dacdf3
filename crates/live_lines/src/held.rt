//! Octets that were read and aren't used yet.
#![tactic(auto)]

ghost use Rattle.std.specs.Prelude.{◌≡◌, ◌<◌, ◌≤◌, ◌+◌, [], ◌∷◌, ◌++◌, true, false, List, ℕ, length, take, slice_index, IfOk, OnOk, OnErr, MatchOption};
ghost use Rattle.std.specs.Io.KnownBytes.{Consumes, IsAtEnd};
ghost use Rattle.mesh_base.specs.Outside.{Rose};
ghost use Rattle.live_lines.specs.Moves.{HasNoLf};

use crate::clock::ClockedSource;
use crate::front::{LineFront, push_front};
use mesh_base::outside::Failed;
use std::alloc::{AllocError, Global};
use std::marker::Model;

/// The most octets that are held, and that are asked for at a time.
pub const HELD_OCTETS: usize = 4096;

/// Octets that were read and aren't used yet, at most 4,096. Its memory is taken when it is made. A clause sees the list of them.
#[derive(Drop)]
pub struct Held {
    octets: Vec<u8>,
    from: usize,
    to: usize,
}

impl Model for Held {
    ghost use Rattle.std.specs.Prelude.{◌≡◌, ◌≤◌, ℕ, List, length, slice_range};

    ghost Value = { List ℕ };

    ghost view = { λ h. slice_range h.octets.items h.from h.to };

    ghost invariant = { λ h. (h.from ≤ h.to) × (h.to ≤ 4096) × (length h.octets.items ≡ 4096) };
}

/// The place of the first LF.
fn first_lf(octets: &[u8]) -> Option<usize>
    ensures value { MatchOption result (HasNoLf octets.now)
        (λ at. (at < length octets.now) × HasNoLf (take at octets.now) × (slice_index octets.now at ≡ 10)) }
{
    for (at, b) in octets.iter().enumerate() {
        if *b == b'\n' {
            return Some(at);
        }
    }
    None
}

impl Held {
    /// No octets.
    pub fn new(alloc: Global) -> Result<Held, AllocError>
        ensures value { IfOk result (λ h. h ≡ []) }
    {
        Ok(Held {
            octets: vec![in alloc; 0u8; HELD_OCTETS]?,
            from: 0,
            to: 0,
        })
    }

    /// The octets.
    pub fn as_slice(&self) -> &[u8]
        ensures value { result.now ≡ self.now }
        ensures few { length result.now ≤ 4096 }
    {
        &self.octets[self.from..self.to]
    }

    /// Reads octets, where none is held; 0 is the end of the source.
    pub fn fill<S: ClockedSource>(&mut self, source: &mut S) -> Result<usize, Failed>
        requires none { self.old ≡ [] }
        ensures count { IfOk result (λ n. n ≡ length self.new) }
        ensures octets { OnOk result (Consumes (S.left source.old) (S.left source.new) self.new) }
        ensures at_end { IfOk result (λ n. n ≡ 0 → IsAtEnd (S.left source.new)) }
        ensures unchanged { OnErr result ((self.new ≡ []) × (S.left source.new ≡ S.left source.old)) }
        ensures no_fault { OnOk result (S.faults source.new ≡ S.faults source.old) }
        ensures cause { OnErr result (Rose (S.faults source.old) (S.faults source.new)) }
        ensures later { S.faults source.old ≤ S.faults source.new }
        ensures untimed { S.time source.new ≡ S.time source.old }
    {
        self.from = 0;
        self.to = 0;
        match source.read_on(self.octets.as_mut_slice()) {
            Ok(count) => {
                self.to = count;
                Ok(count)
            }
            Err(failed) => Err(failed),
        }
    }

    /// Whether a whole line is held.
    pub fn has_line(&self) -> bool {
        first_lf(self.as_slice()).is_some()
    }

    /// Takes the octets of the first line and its LF, or all where no line ends in them, and answers whether one does. They are put behind the
    /// front of the line, as long as there is room.
    pub fn take_line(&mut self, front: &mut LineFront) -> bool
        ensures whole { result ≡ true
            → (raw : List ℕ) × HasNoLf raw × (self.old ≡ raw ++ 10 ∷ self.new)
            × (front.new ≡ take 1202 (front.old ++ raw)) }
        ensures part { result ≡ false
            → HasNoLf self.old × (self.new ≡ []) × (front.new ≡ take 1202 (front.old ++ self.old)) }
    {
        match first_lf(self.as_slice()) {
            Some(at) => {
                push_front(front, &self.as_slice()[..at]);
                self.from += at + 1;
                true
            }
            None => {
                push_front(front, self.as_slice());
                self.from = self.to;
                false
            }
        }
    }
}
