//! Sources and sinks in memory: a pair that fails at the calls of a list, for tests of what lies above, and a pair that never
//! fails.
#![tactic(auto)]

ghost use Rattle.std.specs.Prelude.{◌≡◌, ℕ, ◌+◌, ◌<◌, ◌≤◌, ◌↔◌, ◌⊎◌, List, [], ◌∷◌, ◌++◌, length, take, min, Contains, Some, None, IsOk, IsErr, IfOk, IfSome, OnOk, OnErr, IsTrue, false, MatchOption, is_err, if◌then◌else◌};
ghost use Rattle.std.specs.Io.KnownBytes.{Consumes, IsAtEnd};
ghost use Rattle.mesh_base.specs.Outside.{Rose, Grows, one_more};
ghost use Rattle.mesh_base.specs.Memory.{Script, Ledger, Shelf, shelved};

use crate::outside::{Failed, Sink, Source};
use crate::pieces::PieceLog;
use std::alloc::{AllocError, Global};
use std::marker::Model;

/// Octets in memory, that fails at chosen calls.
#[derive(Drop)]
pub struct MemSource<'a> {
    left: &'a [u8],
    failing: &'a [u32],
    calls: u64,
    faults: u64,
}

impl<'a> Model for MemSource<'a> {
    ghost Value = { Script };

    ghost view = { λ s. record { octets = s.left.now; failing = s.failing.now; calls = s.calls; faults = s.faults } };
}

impl<'a> MemSource<'a> {
    /// A source of these octets. Its calls whose numbers stand in `failing` fail, counted from 1.
    pub fn new(bytes: &'a [u8], failing: &'a [u32]) -> MemSource<'a>
        ensures octets { result.octets ≡ bytes.now }
        ensures failing { result.failing ≡ failing.now }
        ensures calls { result.calls ≡ 0 }
        ensures faults { result.faults ≡ 0 }
    {
        MemSource {
            left: bytes,
            failing,
            calls: 0,
            faults: 0,
        }
    }
}

impl Source for MemSource<'_> {
    ghost left = { λ s. Some s.octets };

    ghost faults = { λ s. s.faults };

    fn read(&mut self, buf: &mut [u8]) -> Result<usize, Failed>
        requires { 0 < length buf.old }

        ensures bound { IfOk result (λ n. n ≤ length buf.new) }
        ensures octets { IfOk result (λ n. Consumes (Some self.old.octets) (Some self.new.octets) (take n buf.new)) }
        ensures end { IfOk result (λ n. IfSome (Some self.old.octets) (λ xs. (n ≡ 0) ↔ (xs ≡ []))) }
        ensures at_end { IfOk result (λ n. n ≡ 0 → IsAtEnd (Some self.new.octets)) }
        ensures unchanged { OnErr result (Some self.new.octets ≡ Some self.old.octets) }
        ensures no_fault { OnOk result (self.new.faults ≡ self.old.faults) }
        ensures cause { OnErr result (Rose self.old.faults self.new.faults) }
        ensures later { self.old.faults ≤ self.new.faults }

        // It fails at exactly the calls of its list, and gives as much as there is and fits.
        ensures fails { IsErr result ↔ Contains self.old.failing (one_more self.old.calls) }
        ensures ok { IfOk result (λ n. n ≡ min (length buf.old) (length self.old.octets)) }
        ensures calls { self.new.calls ≡ one_more self.old.calls }
        ensures faults { self.new.faults ≡ (if is_err result then one_more self.old.faults else self.old.faults) }
        ensures failing { self.new.failing ≡ self.old.failing }
    {
        self.calls = self.calls.saturating_add(1);
        if is_listed(self.failing, self.calls) {
            self.faults = self.faults.saturating_add(1);
            return Err(Failed);
        }
        let count = self.left.len().min(buf.len());
        let (next, rest) = self.left.split_at(count);
        buf[..count].copy_from_slice(next);
        self.left = rest;
        Ok(count)
    }
}

/// A sink into memory, that fails at chosen calls, and where it finds no memory.
#[derive(Drop)]
pub struct MemSink {
    held: Vec<u8>,
    offered: PieceLog,
    failing: Vec<u32>,
    calls: u64,
    faults: u64,
    lacked_memory: bool,
}

impl Model for MemSink {
    ghost Value = { Ledger };

    ghost view = { λ s. record {
      octets = s.held.items;
      pieces = s.offered;
      failing = s.failing.items;
      calls = s.calls;
      faults = s.faults;
      lacked_memory = s.lacked_memory;
    } };
}

impl MemSink {
    /// An empty sink. Its calls whose numbers stand in `failing` fail, counted from 1. It keeps a copy of the list, for which
    /// there may be no memory.
    pub fn new(alloc: Global, failing: &[u32]) -> Result<MemSink, AllocError>
        ensures octets { IfOk result (λ s. s.octets ≡ []) }
        ensures pieces { IfOk result (λ s. s.pieces ≡ []) }
        ensures failing { IfOk result (λ s. s.failing ≡ failing.now) }
        ensures calls { IfOk result (λ s. s.calls ≡ 0) }
        ensures faults { IfOk result (λ s. s.faults ≡ 0) }
        ensures memory { IfOk result (λ s. s.lacked_memory ≡ false) }
    {
        let mut list = Vec::new(alloc);
        list.extend_from_slice(failing)?;
        Ok(MemSink {
            held: Vec::new(alloc),
            offered: PieceLog::new(alloc)?,
            failing: list,
            calls: 0,
            faults: 0,
            lacked_memory: false,
        })
    }

    /// What was written, in order.
    pub fn octets(&self) -> &[u8]
        ensures value { result.now ≡ self.now.octets }
    {
        self.held.as_slice()
    }

    /// Whether the last call failed because it found no memory.
    pub fn lacked_memory(&self) -> bool
        ensures value { result ≡ self.now.lacked_memory }
    {
        self.lacked_memory
    }
}

impl Sink for MemSink {
    ghost held = { λ s. Some s.octets };

    ghost pieces = { λ s. Some s.pieces };

    ghost faults = { λ s. s.faults };

    fn write(&mut self, bytes: &[u8]) -> Result<usize, Failed>
        ensures bound { IfOk result (λ n. n ≤ length bytes.now) }
        ensures some { IfOk result (λ n. 0 < length bytes.now → 0 < n) }
        ensures octets { IfOk result (λ n. Grows (Some self.old.octets) (Some self.new.octets) (take n bytes.now)) }
        ensures unchanged { OnErr result ((Some self.new.octets) ≡ (Some self.old.octets)) }
        ensures offered { Grows (Some self.old.pieces) (Some self.new.pieces) (bytes.now ∷ []) }
        ensures no_fault { OnOk result (self.new.faults ≡ self.old.faults) }
        ensures cause { OnErr result (Rose self.old.faults self.new.faults) }
        ensures later { self.old.faults ≤ self.new.faults }

        // It fails at exactly the calls of its list and those that lack memory, and else takes the whole piece.
        ensures fails { IsErr result
            ↔ (Contains self.old.failing (one_more self.old.calls) ⊎ IsTrue self.new.lacked_memory) }
        ensures listed { Contains self.old.failing (one_more self.old.calls) → self.new.lacked_memory ≡ false }
        ensures ok { IfOk result (λ n. n ≡ length bytes.now) }
        ensures calls { self.new.calls ≡ one_more self.old.calls }
        ensures faults { self.new.faults ≡ (if is_err result then one_more self.old.faults else self.old.faults) }
        ensures failing { self.new.failing ≡ self.old.failing }
    {
        self.offered.note(bytes);
        self.calls = self.calls.saturating_add(1);
        if is_listed(self.failing.as_slice(), self.calls) {
            self.faults = self.faults.saturating_add(1);
            self.lacked_memory = false;
            return Err(Failed);
        }
        self.lacked_memory = self.held.extend_from_slice(bytes).is_err();
        if self.lacked_memory {
            self.faults = self.faults.saturating_add(1);
            return Err(Failed);
        }
        Ok(bytes.len())
    }
}

/// Octets in memory, that never fails.
#[derive(Drop)]
pub struct SureSource<'a> {
    left: &'a [u8],
}

impl<'a> Model for SureSource<'a> {
    ghost Value = { List ℕ };

    ghost view = { λ s. s.left.now };
}

impl<'a> SureSource<'a> {
    /// A source of these octets.
    pub fn new(bytes: &'a [u8]) -> SureSource<'a>
        ensures value { result ≡ bytes.now }
    {
        SureSource { left: bytes }
    }
}

impl Source for SureSource<'_> {
    ghost left = { λ s. Some s };

    ghost faults = { λ _. 0 };

    fn read(&mut self, buf: &mut [u8]) -> Result<usize, Failed>
        requires { 0 < length buf.old }

        ensures bound { IfOk result (λ n. n ≤ length buf.new) }
        ensures octets { IfOk result (λ n. Consumes (Some self.old) (Some self.new) (take n buf.new)) }
        ensures end { IfOk result (λ n. IfSome (Some self.old) (λ xs. (n ≡ 0) ↔ (xs ≡ []))) }
        ensures at_end { IfOk result (λ n. n ≡ 0 → IsAtEnd (Some self.new)) }
        ensures unchanged { OnErr result (Some self.new ≡ Some self.old) }
        ensures no_fault { OnOk result (◌≡◌ {A = ℕ} 0 0) }
        ensures cause { OnErr result (Rose 0 0) }
        ensures later { 0 ≤ 0 }

        // It never fails, and gives as much as there is and fits.
        ensures ok { result ≡ Ok (min (length buf.old) (length self.old)) }
    {
        let count = self.left.len().min(buf.len());
        let (next, rest) = self.left.split_at(count);
        buf[..count].copy_from_slice(next);
        self.left = rest;
        Ok(count)
    }
}

/// A sink into memory, that never fails. It has room for a number of octets; what is written past that it takes too, but it then
/// keeps nothing and no longer tells what was written. The pieces that it was offered it tells all along.
#[derive(Drop)]
pub struct SureSink {
    held: Vec<u8>,
    offered: PieceLog,
    room: u32,
    overflowed: bool,
}

impl Model for SureSink {
    ghost use Rattle.std.specs.Prelude.{◌≤◌, Some, None, vec_len, vec_capacity, if◌then◌else◌};
    ghost use Rattle.mesh_base.specs.Memory.{Shelf};

    ghost Value = { Shelf };

    ghost view = { λ s. record {
      room = s.room;
      pieces = s.offered;
      held = if s.overflowed then None else Some s.held.items;
    } };

    ghost invariant = { λ s. (s.room ≤ vec_capacity s.held) × (vec_len s.held ≤ s.room) };
}

impl SureSink {
    /// An empty sink with room for `room` octets, for which there may be no memory.
    pub fn new(alloc: Global, room: u32) -> Result<SureSink, AllocError>
        ensures room { IfOk result (λ s. s.room ≡ room) }
        ensures pieces { IfOk result (λ s. s.pieces ≡ []) }
        ensures held { IfOk result (λ s. s.held ≡ Some []) }
    {
        let held = Vec::with_capacity(alloc, room as usize)?;
        Ok(SureSink {
            held,
            offered: PieceLog::new(alloc)?,
            room,
            overflowed: false,
        })
    }

    /// What was written, in order, as long as it fitted into the room.
    pub fn octets(&self) -> Option<&[u8]>
        ensures value { MatchOption result (self.now.held ≡ None) (λ bytes. self.now.held ≡ Some bytes.now) }
    {
        if self.overflowed {
            None
        } else {
            Some(self.held.as_slice())
        }
    }
}

impl Sink for SureSink {
    ghost held = { λ s. s.held };

    ghost pieces = { λ s. Some s.pieces };

    ghost faults = { λ _. 0 };

    #[tactic(auto, unfolding(crate::specs::Memory::shelved))]
    fn write(&mut self, bytes: &[u8]) -> Result<usize, Failed>
        ensures bound { IfOk result (λ n. n ≤ length bytes.now) }
        ensures some { IfOk result (λ n. 0 < length bytes.now → 0 < n) }
        ensures octets { IfOk result (λ n. Grows self.old.held self.new.held (take n bytes.now)) }
        ensures unchanged { OnErr result (self.new.held ≡ self.old.held) }
        ensures offered { Grows (Some self.old.pieces) (Some self.new.pieces) (bytes.now ∷ []) }
        ensures no_fault { OnOk result (◌≡◌ {A = ℕ} 0 0) }
        ensures cause { OnErr result (Rose 0 0) }
        ensures later { 0 ≤ 0 }

        // It never fails, takes the whole piece, and keeps it where there is room.
        ensures ok { result ≡ Ok (length bytes.now) }
        ensures kept { self.new.held ≡ shelved self.old.room self.old.held bytes.now }
        ensures room { self.new.room ≡ self.old.room }
    {
        self.offered.note(bytes);
        if self.overflowed {
            return Ok(bytes.len());
        }
        if bytes.len() > self.room as usize - self.held.len() {
            self.held.clear();
            self.overflowed = true;
            return Ok(bytes.len());
        }
        // This fits into the capacity, so it doesn't fail.
        let _ = self.held.extend_from_slice(bytes);
        Ok(bytes.len())
    }
}

/// Whether the call with this number stands in the list.
fn is_listed(failing: &[u32], call: u64) -> bool
    ensures value { IsTrue result ↔ Contains failing.now call }
{
    failing.iter().any(|listed| u64::from(*listed) == call)
}
