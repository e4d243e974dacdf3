//! What is refused over an erased flash and over one that is full; what mounting answers behind the slots that provisioning left, by octets; and
//! the octets of two names in one record.

ghost use Rattle.std.specs.Prelude.{◌≡◌, ◌<◌, ◌^◌};

use super::records::slot;
use super::stores::{NET_KEY, provisioned_with};
use flash_model::{Flash, MemFlash};
use mesh_base::address::Address;
use mesh_base::pair::{Name, Pair};
use mesh_base::slot::Slot;
use node_records::StoreRecord;
use node_store::{Store, StoreFault};
use record_texts::encode;
use slot_journal::{AppendFault, FormatFault, Journal, NoMount};
use std::alloc::Global;

/// The octets of a header and of the three records of provisioning.
const FRONT: usize = 128;

/// Where the second bank begins.
const OTHER_BANK: u32 = 0x8000;

/// What mounting answers.
#[derive(Clone, Copy, PartialEq, Eq)]
enum Mounting {
    Mounted,
    Refused(StoreFault),
    /// No such flash was made.
    Unmade,
}

/// What mounting a journal and a store of an erased flash answer, and provisioning behind a program call at octet 5.
fn on_erased(alloc: Global) -> Option<(NoMount, StoreFault, FormatFault)> {
    let mut flash = MemFlash::new(alloc).ok()?;
    let journal = Journal::mount(&mut flash).err()?;
    let store = Store::mount(&mut flash).err()?;
    flash.program(5, &[0x7f]).ok()?;
    let provisioned = Store::provision(&mut flash, &provisioned_with()).err()?;
    Some((journal, store, provisioned))
}

/// What the append behind 1,023 used slots answers.
fn on_full(alloc: Global) -> Option<AppendFault> {
    let mut flash = MemFlash::new(alloc).ok()?;
    Journal::format(&mut flash, &[slot(0x20, b""); 512], 2).ok()?;
    let mut journal = Journal::mount(&mut flash).ok()?;
    for _ in 0..511 {
        journal.append(&mut flash, &slot(0x20, b"")).ok()?;
    }
    journal.append(&mut flash, &slot(0x20, b"")).err()
}

#[test]
fn an_erased_flash_and_a_full_journal(rt: HostRuntime) {
    let erased = (
        NoMount::NoBank,
        StoreFault::NoNode,
        FormatFault::NotErased { at: 5 },
    );
    assert!(rt; on_erased(rt.alloc()) == Some(erased));
    assert!(rt; on_full(rt.alloc()) == Some(AppendFault::Full { used: 1023 }));
}

/// The octets that provisioning leaves, in format 01 or 02.
fn provisioned_octets(alloc: Global, old: bool) -> Option<[u8; FRONT]> {
    let mut flash = MemFlash::new(alloc).ok()?;
    if old {
        Store::provision_old(&mut flash, &provisioned_with()).ok()?;
    } else {
        Store::provision(&mut flash, &provisioned_with()).ok()?;
    }
    let mut octets = [0; FRONT];
    flash.read(0, &mut octets).ok()?;
    Some(octets)
}

/// A flash with the octets that provisioning left, but these from a place of the header on.
fn turned(alloc: Global, old: bool, at: usize, header: &[u8]) -> Option<MemFlash> {
    let mut octets = provisioned_octets(alloc, old)?;
    if at > 32 || header.len() > 32 {
        return None;
    }
    octets[at..at + header.len()].copy_from_slice(header);
    let mut flash = MemFlash::new(alloc).ok()?;
    flash.program(0, &octets).ok()?;
    Some(flash)
}

/// Puts slots behind those of the journal on a flash.
fn append(flash: &mut MemFlash, slots: &[Slot]) -> Option<()> {
    let mut journal = Journal::mount(flash).ok()?;
    for item in slots {
        journal.append(flash, item).ok()?;
    }
    Some(())
}

/// What mounting answers where these slots follow those of provisioning.
fn mount_with(alloc: Global, old: bool, slots: &[Slot]) -> Mounting {
    let Some(mut flash) = turned(alloc, old, 0, b"") else {
        return Mounting::Unmade;
    };
    if append(&mut flash, slots).is_none() {
        return Mounting::Unmade;
    }
    match Store::mount(&mut flash) {
        Ok(_) => Mounting::Mounted,
        Err(fault) => Mounting::Refused(fault),
    }
}

/// The slot that adds an application key of this index, below 256, to the network key 456.
fn app_key(index: u8) -> Slot {
    let mut octets = [0; 21];
    octets[..5].copy_from_slice(&[1, 0x04, 0x56, 0x00, index]);
    octets[5..].copy_from_slice(&NET_KEY);
    slot(6, &octets)
}

/// Nine of them.
fn nine_app_keys() -> [Slot; 9] {
    let mut slots = [app_key(0); 9];
    for index in 0..9u8 {
        slots[index as usize] = app_key(index);
    }
    slots
}

/// All slots but the last.
fn but_last(slots: &[Slot]) -> &[Slot] {
    match slots.split_last() {
        Some((_, before)) => before,
        None => slots,
    }
}

/// No Numbers: progress is 02.
const PROGRESS: &[u8] = b"\x12\x34\x56\x78\x02\x00\x24\x68\xac\xf0\x00\x00\x00";

/// Two names.
const NAMES: &[u8] = b"\x00\x03\x12\x34\x56\x78\x31\x29\xab\x01\x01\x12\x34\x56\x78\x00\x00\x01";

#[test]
fn slots_behind_those_of_provisioning(rt: HostRuntime) {
    let alloc = rt.alloc();
    let fourth = Mounting::Refused(StoreFault::Damaged { slot: 4 });
    let twelfth = Mounting::Refused(StoreFault::Damaged { slot: 12 });
    let reset = Mounting::Refused(StoreFault::WasReset);
    let keys = nine_app_keys();
    assert!(rt; mount_with(alloc, false, &[]) == Mounting::Mounted);
    assert!(rt; mount_with(alloc, false, &[slot(0x20, b"")]) == fourth);
    assert!(rt; mount_with(alloc, false, &[slot(2, PROGRESS)]) == fourth);
    assert!(rt; mount_with(alloc, false, but_last(&keys)) == Mounting::Mounted);
    assert!(rt; mount_with(alloc, false, &keys) == twelfth);
    assert!(rt; mount_with(alloc, false, &[slot(10, b"")]) == reset);
    assert!(rt; mount_with(alloc, false, &[slot(10, b""), slot(0x20, b"")]) != reset);
    assert!(rt; mount_with(alloc, false, &[slot(0x20, b""), slot(10, b"")]) == fourth);
    assert!(rt; mount_with(alloc, true, &[slot(4, NAMES)]) == fourth);
    assert!(rt; mount_with(alloc, false, &[slot(4, NAMES)]) == Mounting::Mounted);
}

/// Why a flash isn't mounted whose header is gated with 01.
fn half_gated(alloc: Global) -> Option<StoreFault> {
    let mut flash = turned(alloc, false, 31, b"\x01")?;
    Store::mount(&mut flash).err()
}

/// The format of the journal that counts, and the header of the second bank, where a node in format 01 and of the last generation was mounted.
fn migrated(alloc: Global) -> Option<(u8, [u8; 32])> {
    let mut flash = turned(alloc, true, 2, b"\xff\xff\xff\xff\x00\x00\x00\x00")?;
    Store::mount(&mut flash).ok()?;
    let journal = Journal::mount(&mut flash).ok()?;
    let mut header = [0; 32];
    flash.read(OTHER_BANK, &mut header).ok()?;
    Some((journal.version(), header))
}

#[test]
fn headers_of_a_node(rt: HostRuntime) {
    let mut first = [0; 32];
    first[..10].copy_from_slice(b"\xf0\x02\x00\x00\x00\x00\xff\xff\xff\xff");
    assert!(rt; half_gated(rt.alloc()) == Some(StoreFault::NoNode));
    assert!(rt; migrated(rt.alloc()) == Some((2, first)));
}

/// A name under IV Index 12345678.
fn name(src: u16, seq: u32) -> Name
    requires { seq < 2 ^ 24 }
    ensures { result ≡ record { src = record { 0 = src }; pair = record { iv = 0x12345678; seq = seq } } }
{
    Name {
        src: Address(src),
        pair: Pair {
            iv: 0x12345678,
            seq,
        },
    }
}

/// The slot of two names.
fn two_names() -> Slot {
    encode(&StoreRecord::Replay {
        first: name(0x0003, 0x3129ab),
        second: Some(name(0x0101, 0x000001)),
    })
}

#[test]
fn two_names_in_one_slot(_rt: HostRuntime) {
    assert!(_rt; two_names() == slot(4, NAMES));
}
