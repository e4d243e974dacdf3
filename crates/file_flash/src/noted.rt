// A place that notes the writes which its caller makes.
ghost use Rattle.std.specs.Prelude.{◌≡◌, ◌+◌, ◌%◌, ◌<◌, ◌≤◌, All, [], ◌∷◌, ◌++◌, length, map, Some, None, OnOk, OnErr};
ghost use Rattle.file_flash.specs.Backing.{WasPut, WasTorn};
ghost use Rattle.file_flash.specs.Noted.{IsInside, and_put, program_put, put_of};

use crate::backing::{Backing, Refused};
use flash_model::{FLASH_OCTETS, SECTOR_OCTETS};
use std::alloc::{AllocError, Global};
use std::mem;

/// A write that the caller of a flash makes. To a contract it is octets that are to stand from an offset on (`put_of`).
#[derive(Drop)]
pub enum Write {
    /// Octets that a program call left in its range.
    Program {
        /// The offset of the first octet.
        at: u32,
        /// The octets.
        octets: Vec<u8>,
    },
    /// An erase of a sector: 4,096 octets ff. They are not kept.
    Erase {
        /// The sector, 0 to 15.
        sector: u32,
    },
}

/// A place whose writes are made by the caller of its flash: it notes them, in their order. Of what whoever comes next finds there it tells nothing.
#[derive(Drop)]
pub struct NotedPlace {
    alloc: Global,
    writes: Vec<Write>,
    ghost inside: { All IsInside writes.items },
}

impl NotedPlace {
    /// A place of which no write is noted.
    pub fn new(alloc: Global) -> Self
        ensures held { ⟦<NotedPlace as Backing>⟧.held result ≡ None }
        ensures waiting { ⟦<NotedPlace as Backing>⟧.waiting result ≡ Some [] }
    {
        NotedPlace {
            alloc,
            writes: Vec::new(alloc),
        }
    }

    /// Notes a write.
    ///
    /// # Errors
    ///
    /// `AllocError`: nothing was noted.
    fn note(&mut self, write: Write) -> Result<(), AllocError>
        requires inside { IsInside write }
        ensures ok { OnOk result (map put_of self.new.writes.items ≡ map put_of self.old.writes.items ++ put_of write ∷ []) }
        ensures err { OnErr result (self.new.writes.items ≡ self.old.writes.items) }
    {
        self.writes.push(write)?;
        Ok(())
    }

    /// Notes octets at an offset.
    ///
    /// # Errors
    ///
    /// `AllocError`: nothing was noted.
    fn note_octets(&mut self, at: u32, bytes: &[u8]) -> Result<(), AllocError>
        requires some { 0 < length bytes.now }
        requires within { at + length bytes.now ≤ FLASH_OCTETS }
        requires one_sector { at % SECTOR_OCTETS + length bytes.now ≤ SECTOR_OCTETS }
        ensures ok { OnOk result
            (map put_of self.new.writes.items
            ≡ map put_of self.old.writes.items ++ program_put at bytes.now ∷ []) }
        ensures err { OnErr result (self.new.writes.items ≡ self.old.writes.items) }
    {
        let octets = bytes.to_vec(self.alloc)?;
        self.note(Write::Program { at, octets })
    }

    /// The writes that were noted since this was called last, in their order. It takes no memory.
    pub fn take(&mut self) -> Vec<Write>
        ensures taken { Some (map put_of result.items) ≡ ⟦<NotedPlace as Backing>⟧.waiting self.old }
        ensures inside { All IsInside result.items }
        ensures waiting { ⟦<NotedPlace as Backing>⟧.waiting self.new ≡ Some [] }
        ensures held { ⟦<NotedPlace as Backing>⟧.held self.new ≡ None }
    {
        mem::replace(&mut self.writes, Vec::new(self.alloc))
    }
}

impl Backing for NotedPlace {
    ghost held = { λ _. None };

    ghost waiting = { λ p. Some (map put_of p.writes.items) };

    /// Notes the write. It is refused for want of memory alone.
    fn put(&mut self, at: u32, bytes: &[u8]) -> Result<(), Refused> {
        match self.note_octets(at, bytes) {
            Ok(()) => Ok(()),
            Err(AllocError) => Err(Refused),
        }
    }

    /// Notes the erase, which takes no memory for octets.
    fn erase_sector(&mut self, sector: u32) -> Result<(), Refused> {
        match self.note(Write::Erase { sector }) {
            Ok(()) => Ok(()),
            Err(AllocError) => Err(Refused),
        }
    }
}
