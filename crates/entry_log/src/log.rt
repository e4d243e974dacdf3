//! The log.
#![tactic(auto)]

ghost use Rattle.std.specs.Prelude.{◌≡◌, ◌+◌, ◌<◌, ◌≤◌, ◌^◌, ◌++◌, [], ◌∷◌, length, drop, IfOk, OnOk};
ghost use Rattle.seq_word.specs.Seen.{last_word, went_to};

use crate::past::Recorder;
use mesh_types::history::Entry;
use seq_word::Keeper;
use std::alloc::{AllocError, Global};
use std::marker::Model;
use std::mem;

/// The entries of a history, in their order. An entry that was taken stands in contracts alone, so a history that goes on takes memory for
/// those that weren't.
#[derive(Drop)]
pub struct EntryLog {
    past: Recorder,
    // The entries that weren't taken.
    fresh: Vec<Entry>,
    // How many were taken.
    taken: u64,
}

impl Model for EntryLog {
    ghost use Rattle.std.specs.Prelude.{◌-◌, vec_len, vec_capacity};
    ghost use Rattle.entry_log.specs.Log.{IsKept, LogView};

    ghost Value = { LogView };

    ghost view = { λ l. record {
      entries = l.past.entries;
      moves = l.past.moves;
      taken = l.taken;
      room = vec_capacity l.fresh - vec_len l.fresh;
    } };

    ghost invariant = { λ l. IsKept l.past.entries l.taken l.fresh.items };
}

impl EntryLog {
    /// No entries, and no room for any. It takes memory for one word; the error is for want of it.
    pub fn new(alloc: Global) -> Result<Self, AllocError>
        ensures entries { IfOk result (λ log. log.entries ≡ []) }
        ensures moves { IfOk result (λ log. log.moves ≡ []) }
        ensures taken { IfOk result (λ log. log.taken ≡ 0) }
    {
        let past = Recorder::new(alloc)?;
        Ok(EntryLog {
            past,
            fresh: Vec::new(alloc),
            taken: 0,
        })
    }

    /// Takes memory for one entry more. The error is for want of it, and then all entries stand as before.
    pub fn reserve(&mut self) -> Result<(), AllocError>
        ensures room { OnOk result (0 < self.new.room) }
        ensures entries { self.new.entries ≡ self.old.entries }
        ensures moves { self.new.moves ≡ self.old.moves }
        ensures taken { self.new.taken ≡ self.old.taken }
    {
        // Where none is kept, it takes that for one alone: entries may be taken one by one.
        if self.fresh.is_empty() {
            return self.fresh.reserve_exact(1);
        }
        self.fresh.reserve(1)
    }

    /// Takes memory for so many entries more. The error is for want of it, and then all entries stand as before.
    pub fn reserve_all(&mut self, count: usize) -> Result<(), AllocError>
        ensures room { OnOk result (count ≤ self.new.room) }
        ensures entries { self.new.entries ≡ self.old.entries }
        ensures moves { self.new.moves ≡ self.old.moves }
        ensures taken { self.new.taken ≡ self.old.taken }
    {
        self.fresh.reserve(count)
    }

    /// Appends an entry, for which there is room. The keeper of the numbers tells contracts where the counter has been moved to; nothing of it is
    /// kept.
    #[inline(always)]
    pub fn push(&mut self, entry: Entry, keeper: &Keeper)
        requires room { 0 < self.old.room }
        requires few { length self.old.entries + 1 < 2 ^ 64 }
        ensures entries { self.new.entries ≡ self.old.entries ++ entry ∷ [] }
        ensures moves { self.new.moves ≡ self.old.moves ++ last_word (went_to keeper.now.advances) ∷ [] }
        ensures taken { self.new.taken ≡ self.old.taken }
    {
        self.past.note(&entry, keeper);
        let _ = self.fresh.push(entry);
    }

    /// The entries that weren't taken yet. It takes no memory, and leaves no room for an entry.
    pub fn take(&mut self) -> Vec<Entry>
        ensures value { result.items ≡ drop self.old.taken self.old.entries }
        ensures entries { self.new.entries ≡ self.old.entries }
        ensures moves { self.new.moves ≡ self.old.moves }
        ensures taken { self.new.taken ≡ length self.old.entries }
    {
        let alloc = *self.fresh.allocator();
        self.taken += self.fresh.len() as u64;
        mem::replace(&mut self.fresh, Vec::new(alloc))
    }

    /// The number of entries so far, those that were taken among them.
    pub fn count(&self) -> u64
        ensures value { result ≡ length self.now.entries }
    {
        self.taken + self.fresh.len() as u64
    }

    /// Where memory comes from.
    pub fn allocator(&self) -> Global {
        *self.fresh.allocator()
    }
}
