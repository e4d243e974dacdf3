// A place of 65,536 octets that outlives the process. A flash doesn't know what it is: it only puts octets there.
ghost use Rattle.std.specs.Prelude.{◌≡◌, ℕ, ◌+◌, ◌*◌, ◌%◌, ◌<◌, ◌≤◌, List, Option, Some, None, length, replicate, OnOk, OnErr};
ghost use Rattle.file_flash.specs.Backing.{WasPut, WasTorn, put_at};
ghost use Rattle.file_flash.specs.Noted.{Put, and_put, erase_put, program_put};

use flash_model::{FLASH_OCTETS, SECTOR_OCTETS, SECTORS};
use std::fs::File;
use std::os::unix::fs::FileExt;
use thiserror::Error;

/// Octets of a sector.
const SECTOR: usize = SECTOR_OCTETS as usize;

/// The place refused a write.
#[derive(Clone, Copy, Debug, PartialEq, Eq, Error)]
#[error("the place refused a write")]
pub struct Refused;

/// A place of 65,536 octets that outlives the process.
///
/// For who implements it, the crate's head says what a place must give.
pub trait Backing: Drop {
    // The octets that whoever comes after this process finds there, where contracts know them.
    ghost held: { Self → Option (List ℕ) };

    // The writes that the caller of the flash is still to make, where the place only notes them.
    ghost waiting: { Self → Option (List Put) };

    /// Puts octets, one at least, at an offset, within one sector. They are durable once it answers Ok (`ok`), but for a place that only notes its writes.
    ///
    /// # Errors
    ///
    /// `Refused`: each bit of the range is old or new then, all else as it was (`err`).
    fn put(&mut self, at: u32, bytes: &[u8]) -> Result<(), Refused>
        requires some { 0 < length bytes.now }
        requires within { at + length bytes.now ≤ FLASH_OCTETS }
        requires one_sector { at % SECTOR_OCTETS + length bytes.now ≤ SECTOR_OCTETS }
        ensures ok { OnOk result (WasPut at bytes.now (held self.old) (held self.new)) }
        ensures err { OnErr result (WasTorn at bytes.now (held self.old) (held self.new)) }
        ensures noted { OnOk result (waiting self.new ≡ and_put (program_put at bytes.now) (waiting self.old)) }
        ensures unnoted { OnErr result (waiting self.new ≡ waiting self.old) };

    /// Puts the octets of an erased sector, 4,096 octets ff, where the sector, 0 to 15, stands: as `put` of them, without octets to hand over. A place
    /// that notes its writes notes an erase (`noted`).
    ///
    /// # Errors
    ///
    /// `Refused`: each bit of the range is old or new then, all else as it was (`err`).
    fn erase_sector(&mut self, sector: u32) -> Result<(), Refused>
        requires sector { sector < SECTORS }
        ensures ok { OnOk result (WasPut (SECTOR_OCTETS * sector) (replicate SECTOR_OCTETS 255) (held self.old) (held self.new)) }
        ensures err { OnErr result (WasTorn (SECTOR_OCTETS * sector) (replicate SECTOR_OCTETS 255) (held self.old) (held self.new)) }
        ensures noted { OnOk result (waiting self.new ≡ and_put (erase_put sector) (waiting self.old)) }
        ensures unnoted { OnErr result (waiting self.new ≡ waiting self.old) };
}

/// A file of the system, open for reading and writing, with 65,536 octets. It tells nothing of what it holds: that what it answers is so, is
/// trusted.
#[derive(Drop)]
pub struct StdBacking {
    /// The file.
    pub file: File,
}

impl Backing for StdBacking {
    ghost held = { λ _. None };

    ghost waiting = { λ _. None };

    fn put(&mut self, at: u32, bytes: &[u8]) -> Result<(), Refused> {
        if self.file.write_all_at(bytes, u64::from(at)).is_err() {
            return Err(Refused);
        }
        match self.file.sync_data() {
            Ok(()) => Ok(()),
            Err(_) => Err(Refused),
        }
    }

    fn erase_sector(&mut self, sector: u32) -> Result<(), Refused> {
        self.put(SECTOR_OCTETS * sector, &[0xff; SECTOR])
    }
}

/// A place in memory, which tells what it holds. It refuses from one call on, and of a range that it refuses the first half is written.
#[derive(Drop)]
pub struct MemBacking {
    octets: Vec<u8>,
    calls: u32,
    ghost size: { length octets.items ≡ 65536 },
}

impl MemBacking {
    /// A place that holds these 65,536 octets, and takes `calls` calls.
    pub fn new(octets: Vec<u8>, calls: u32) -> Self
        requires size { length octets.items ≡ FLASH_OCTETS }
        ensures held { ⟦<MemBacking as Backing>⟧.held result ≡ Some octets.items }
        ensures calls { result.calls ≡ calls }
    {
        MemBacking { octets, calls }
    }

    /// What it holds.
    pub fn octets(&self) -> &[u8]
        ensures held { ⟦<MemBacking as Backing>⟧.held self.now ≡ Some result.now }
    {
        &self.octets
    }
}

impl Backing for MemBacking {
    ghost held = { λ b. Some b.octets.items };

    ghost waiting = { λ _. None };

    fn put(&mut self, at: u32, bytes: &[u8]) -> Result<(), Refused>
        requires within { at + length bytes.now ≤ FLASH_OCTETS }
        requires one_sector { at % SECTOR_OCTETS + length bytes.now ≤ SECTOR_OCTETS }
        ensures ok { OnOk result (WasPut at bytes.now (Some self.old.octets.items) (Some self.new.octets.items)) }
        ensures err { OnErr result (WasTorn at bytes.now (Some self.old.octets.items) (Some self.new.octets.items)) }
        ensures cause { OnErr result (self.old.calls ≡ 0) }
        ensures left { OnOk result (self.new.calls + 1 ≡ self.old.calls) }
        ensures none { self.old.calls ≡ 0 → self.new.calls ≡ 0 }
    {
        if self.calls == 0 {
            put_octets(&mut self.octets, at as usize, &bytes[..bytes.len() / 2]);
            return Err(Refused);
        }
        self.calls -= 1;
        put_octets(&mut self.octets, at as usize, bytes);
        Ok(())
    }

    fn erase_sector(&mut self, sector: u32) -> Result<(), Refused>
        requires sector { sector < SECTORS }
        ensures ok { OnOk result
            (WasPut (SECTOR_OCTETS * sector) (replicate SECTOR_OCTETS 255) (Some self.old.octets.items) (Some self.new.octets.items)) }
        ensures err { OnErr result
            (WasTorn (SECTOR_OCTETS * sector) (replicate SECTOR_OCTETS 255) (Some self.old.octets.items) (Some self.new.octets.items)) }
        ensures cause { OnErr result (self.old.calls ≡ 0) }
        ensures left { OnOk result (self.new.calls + 1 ≡ self.old.calls) }
        ensures none { self.old.calls ≡ 0 → self.new.calls ≡ 0 }
    {
        self.put(SECTOR_OCTETS * sector, &[0xff; SECTOR])
    }
}

/// Puts octets at an offset.
fn put_octets(octets: &mut [u8], at: usize, bytes: &[u8])
    requires { at + length bytes.now ≤ length octets.old }
    ensures { octets.new ≡ put_at at bytes.now octets.old }
{
    octets[at..at + bytes.len()].copy_from_slice(bytes);
}
