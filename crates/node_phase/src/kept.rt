//! What bearers keep from phase to phase.
#![tactic(auto)]

ghost use Rattle.std.specs.Prelude.{◌≤◌, length, vec_capacity, IfOk};

use job_sealing::KeptSeals;
use machine_contract::Machine;
use std::alloc::{AllocError, Global};
use std::marker::Model;

/// What a bearer reads octets by before its turn, and what it read: a reader, and a reading for each event of a turn. The reader is boxed, so that
/// whoever hands them on moves a pointer.
#[derive(Drop)]
pub(crate) struct ReadAhead<M: Machine> {
    pub(crate) reader: Box<M::Reader>,
    pub(crate) readings: Vec<M::Reading>,
}

/// The schedules of the keys that the bearers of a life sealed with last, and what each reads octets by before its turn, those of the first
/// bearer first, for its next phase. What is sealed and handled is the same whatever is kept, so a clause sees nothing of it.
#[derive(Drop)]
pub struct KeptByBearers<M: Machine> {
    seals: Vec<Box<KeptSeals>>,
    ahead: Vec<ReadAhead<M>>,
}

impl<M: Machine> Model for KeptByBearers<M> {
    ghost use Rattle.std.specs.Prelude.{⊤};

    ghost Value = { ⊤ };

    ghost view = { λ _. tt };
}

impl<M: Machine> KeptByBearers<M> {
    /// Nothing was sealed or read yet. It takes no memory.
    pub fn new(alloc: Global) -> KeptByBearers<M> {
        KeptByBearers {
            seals: Vec::new(alloc),
            ahead: Vec::new(alloc),
        }
    }

    /// What the first bearer kept whose wasn't taken yet. The error is for want of memory, which is taken where no bearer kept anything.
    pub(crate) fn take(&mut self, alloc: Global) -> Result<Box<KeptSeals>, AllocError> {
        if self.seals.is_empty() {
            return Ok(Box::new(alloc, KeptSeals::new())?);
        }
        Ok(self.seals.remove(0))
    }

    /// Keeps what a bearer has, behind that of the bearers before it. Where there is no memory, it is dropped, and made anew.
    pub(crate) fn put(&mut self, kept: Box<KeptSeals>) {
        let _ = self.seals.push(kept);
    }

    // What the first bearer read by whose wasn't taken yet; where no bearer read by anything, a reader, and memory for so many readings.
    fn first_ahead(&mut self, alloc: Global, count: usize) -> Result<ReadAhead<M>, AllocError> {
        if self.ahead.is_empty() {
            return Ok(ReadAhead {
                reader: Box::new(alloc, M::new_reader())?,
                readings: Vec::with_capacity(alloc, count)?,
            });
        }
        Ok(self.ahead.remove(0))
    }

    /// What the first bearer read by whose wasn't taken yet, with a reading at least, and memory for so many: the others are made by `add_readings`.
    /// The error is for want of memory.
    pub(crate) fn take_ahead(
        &mut self,
        alloc: Global,
        count: usize,
    ) -> Result<ReadAhead<M>, AllocError>
        ensures some { IfOk result (λ a. 1 ≤ length a.readings.items) }
        ensures room { IfOk result (λ a. count ≤ vec_capacity a.readings) }
    {
        let ReadAhead {
            reader,
            mut readings,
        } = self.first_ahead(alloc, count)?;
        readings.reserve_exact(count.saturating_sub(readings.len()))?;
        if readings.is_empty() {
            readings.push(M::new_reading())?;
        }
        Ok(ReadAhead { reader, readings })
    }

    /// Keeps what a bearer reads by, behind that of the bearers before it. Where there is no memory, it is dropped, and made anew.
    pub(crate) fn put_ahead(&mut self, ahead: ReadAhead<M>) {
        let _ = self.ahead.push(ahead);
    }
}

/// Makes a new reading wherever there is memory for one. The thread that reads calls it, so that what they take is made beside the work of others.
pub(crate) fn add_readings<M: Machine>(readings: &mut Vec<M::Reading>)
    ensures more { length readings.old.items ≤ length readings.new.items }
{
    while readings.len() < readings.capacity() {
        readings.push_reserved(M::new_reading());
    }
}
