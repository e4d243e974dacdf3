//! A flash in a file: what is read of it, and what whoever comes next finds on the place.

use file_flash::{FileFlash, MemBacking};
use flash_model::{FLASH_OCTETS, Flash, MemFlash};
use std::alloc::Global;

type MemFile = FileFlash<MemFlash, MemBacking>;

/// A flash over a place in memory that holds these octets, and takes so many calls.
fn over(alloc: Global, octets: &[u8], calls: u32) -> Option<MemFile> {
    if octets.len() != FLASH_OCTETS as usize {
        return None;
    }
    let held = octets.to_vec(alloc).ok()?;
    FileFlash::new(alloc, MemBacking::new(held, calls), octets).ok()
}

/// A flash over a new place.
fn erased(alloc: Global, calls: u32) -> Option<MemFile> {
    let octets = vec![in alloc; 0xff; FLASH_OCTETS as usize].ok()?;
    over(alloc, &octets, calls)
}

/// Four octets from the start of sector 1 on.
fn read(flash: &mut MemFile) -> Option<[u8; 4]> {
    let mut octets = [0; 4];
    flash.read(4096, &mut octets).ok()?;
    Some(octets)
}

/// What one who comes after this flash reads.
fn read_next(alloc: Global, flash: &MemFile) -> Option<[u8; 4]> {
    let mut next = over(alloc, flash.backing().octets(), 0)?;
    read(&mut next)
}

/// What is read, by this flash and by the next, behind a program call, behind another, and behind an erase.
fn all_taken(alloc: Global) -> Option<[[u8; 4]; 6]> {
    let mut flash = erased(alloc, 3)?;
    flash.program(4096, &[0x12, 0x34, 0x56, 0x78]).ok()?;
    let once = [read(&mut flash)?, read_next(alloc, &flash)?];
    flash.program(4096, &[0xf0, 0x0f]).ok()?;
    let twice = [read(&mut flash)?, read_next(alloc, &flash)?];
    flash.erase(1).ok()?;
    let blank = [read(&mut flash)?, read_next(alloc, &flash)?];
    Some([once[0], once[1], twice[0], twice[1], blank[0], blank[1]])
}

/// What the next reads where the place refused the second program call, and whether each call failed from then on.
fn one_refused(alloc: Global) -> Option<([u8; 4], bool)> {
    let mut flash = erased(alloc, 1)?;
    flash.program(4096, &[0x12, 0x34, 0x56, 0x78]).ok()?;
    let refused = flash.program(4096, &[0; 4]).is_err();
    let failed = refused
        && flash.program(8192, &[0; 4]).is_err()
        && flash.erase(1).is_err()
        && read(&mut flash).is_none();
    Some((read_next(alloc, &flash)?, failed))
}

#[test]
fn what_is_read_is_on_the_place(rt: HostRuntime) {
    let [first, second, blank] = [
        [0x12, 0x34, 0x56, 0x78],
        [0x10, 0x04, 0x56, 0x78],
        [0xff; 4],
    ];
    let taken = all_taken(rt.alloc());
    assert!(rt; taken == Some([first, first, second, second, blank, blank]));
}

#[test]
fn a_refused_call_is_there_in_part(rt: HostRuntime) {
    let refused = one_refused(rt.alloc());
    assert!(rt; refused == Some(([0, 0, 0x56, 0x78], true)));
}
