//! The octets of a node on its flash, and what mounting refuses.

ghost use Rattle.node_store.specs.Provisioning.{IsProvision};

use super::records::slot;
use flash_model::{Flash, MemFlash};
use mesh_base::address::Address;
use mesh_base::pair::{Name, Pair};
use mesh_base::slot::Slot;
use node_store::{ImageFault, Provision, Store, StoreFault, read_image};
use rpl_journal::accept;
use seq_reserve::Reserve;
use seq_word::Miss;
use slot_journal::Journal;
use std::alloc::Global;

pub(super) const NET_KEY: [u8; 16] = [
    0x7d, 0xd7, 0x36, 0x4c, 0xd8, 0x42, 0xad, 0x18, 0xc1, 0x7c, 0x2b, 0x82, 0x0c, 0x84, 0xc3, 0xd6,
];

const DEV_KEY: [u8; 16] = [
    0x9d, 0x6d, 0xd0, 0xe9, 0x6e, 0xb2, 0x5d, 0xc1, 0x9a, 0x40, 0xed, 0x99, 0x14, 0xf8, 0xf0, 0x3f,
];

/// What the node is provisioned with.
pub(super) fn provisioned_with() -> Provision
    ensures { IsProvision result }
{
    Provision {
        unicast: Address(0x1201),
        elements: 1,
        iv: 0x12345678,
        flags: 0,
        net_index: 0x0456,
        net_key: NET_KEY,
        dev_key: DEV_KEY,
    }
}

/// The first number under IV Index 12345678, as a word.
const FIRST_NUMBER: u64 = 0x0024_68ac_f000_0000;

/// The slots of a node that accepted a message and drew a number, each behind what its octets are. Zeros follow, up to the gate.
const NODE: &[&[u8]] = &[
    // Kind f0, format 02, generation 1 and its complement.
    b"\xf0\x02\x00\x00\x00\x01\xff\xff\xff\xfe",
    // Unicast address, elements, device key.
    b"\x01\x12\x01\x01\x9d\x6d\xd0\xe9\x6e\xb2\x5d\xc1\x9a\x40\xed\x99\x14\xf8\xf0\x3f",
    // Known IV Index, Normal Operation, the mark, no hours, 192 hours since the last IV Index Recovery.
    b"\x02\x12\x34\x56\x78\x00\x00\x24\x68\xac\xf0\x00\x00\x00\x00\x00\x00\xc0",
    // Op, index and key.
    b"\x05\x01\x04\x56\x7d\xd7\x36\x4c\xd8\x42\xad\x18\xc1\x7c\x2b\x82\x0c\x84\xc3\xd6",
    // SRC, IV Index and SEQ of the message.
    b"\x04\x00\x03\x12\x34\x56\x78\x31\x29\xab",
    // The numbers with a mark 256 higher.
    b"\x02\x12\x34\x56\x78\x00\x00\x24\x68\xac\xf0\x00\x01\x00\x00\x00\x00\xc0",
];

/// A node is provisioned, and accepts a message.
fn accepted<F: Flash>(flash: &mut F) -> Option<Store> {
    let mut store = Store::provision(flash, &provisioned_with()).ok()?;
    let iv = store.persist().iv.current;
    let heard = Name {
        src: Address(0x0003),
        pair: Pair { iv, seq: 0x3129ab },
    };
    accept(&mut store, flash, &heard).ok()?;
    Some(store)
}

/// Numbers are reserved where a draw finds none, and the first one is drawn.
fn reserved<F: Flash>(alloc: Global, flash: &mut F, store: Store) -> Option<Pair> {
    let (mut reserve, numbers, mut drawer) = Reserve::start(alloc, store).ok()?;
    let Err(Miss::Dry(dry)) = numbers.try_draw(&mut drawer) else {
        return None;
    };
    if dry.mark() != FIRST_NUMBER {
        return None;
    }
    reserve.refill(&numbers, flash, &mut drawer, dry).ok()?;
    numbers.try_draw(&mut drawer).ok()
}

/// The number that a node draws which accepted a message.
fn written<F: Flash>(alloc: Global, flash: &mut F) -> Option<Pair> {
    let store = accepted(flash)?;
    reserved(alloc, flash, store)
}

/// Whether slot `n` of its flash has these octets, and zeros.
fn has_slot(alloc: Global, n: usize, octets: &[u8]) -> bool {
    let Ok(mut flash) = MemFlash::new(alloc) else {
        return false;
    };
    let number = written(alloc, &mut flash);
    let mut want = [0; 32];
    let mut found = [1; 32];
    if n >= 6 || octets.len() > 32 || flash.read(32 * n as u32, &mut found).is_err() {
        return false;
    }
    want[..octets.len()].copy_from_slice(octets);
    let first = Some(Pair {
        iv: 0x12345678,
        seq: 0,
    });
    number == first && found == want
}

#[test]
fn the_octets_of_a_node(rt: HostRuntime) {
    for (n, octets) in NODE.iter().enumerate() {
        assert!(rt; has_slot(rt.alloc(), n, octets), "slot {n}");
    }
}

/// The kind of a slot and its octets, behind which are zeros.
type Text = (u8, &'static [u8]);

// Numbers, in Normal Operation.
const FIRST: Text = (
    2,
    b"\x12\x34\x56\x78\x00\x00\x24\x68\xac\xf0\x00\x00\x00\x00\x00\x00\xc0",
);

// The same with a mark 256 higher.
const HIGHER: Text = (
    2,
    b"\x12\x34\x56\x78\x00\x00\x24\x68\xac\xf0\x00\x01\x00\x00\x00\x00\xc0",
);

// The same of the IV Index before, and of the next one.
const BEFORE: Text = (
    2,
    b"\x12\x34\x56\x77\x00\x00\x24\x68\xac\xee\x00\x00\x00\x00\x00\x00\xc0",
);

const NEXT: Text = (
    2,
    b"\x12\x34\x56\x79\x00\x00\x24\x68\xac\xf2\x00\x00\x00\x00\x00\x00\xc0",
);

// No Numbers: progress is 02.
const PROGRESS: Text = (2, b"\x12\x34\x56\x78\x02\x00\x24\x68\xac\xf0\x00\x00\x00");

// A network key.
const NET: Text = (
    5,
    b"\x01\x00\x00\x7d\xd7\x36\x4c\xd8\x42\xad\x18\xc1\x7c\x2b\x82\x0c\x84\xc3\xd6",
);

// No network key: op 06.
const OP: Text = (5, b"\x06");

// One name and two.
const NAME: Text = (4, b"\x00\x03\x12\x34\x56\x78\x31\x29\xab");

const NAMES: Text = (
    4,
    b"\x00\x03\x12\x34\x56\x78\x31\x29\xab\x01\x01\x12\x34\x56\x78\x00\x00\x01",
);

const RESET: Text = (10, b"");

// A model that there is not.
const MODEL: Text = (11, b"");

// A kind that there is not.
const KIND: Text = (0x20, b"");

/// The format of a bank, 01 or 02, its slots, and why it isn't mounted.
const BANKS: &[(u8, &[Text], Option<StoreFault>)] = &[
    // A Reset behind or before others.
    (2, &[FIRST, NET, RESET], Some(StoreFault::WasReset)),
    (2, &[RESET, FIRST, NET], Some(StoreFault::WasReset)),
    // What is no record; it comes first where there is a Reset too.
    (
        2,
        &[FIRST, MODEL, RESET],
        Some(StoreFault::Damaged { slot: 2 }),
    ),
    (
        2,
        &[FIRST, KIND, RESET],
        Some(StoreFault::Damaged { slot: 2 }),
    ),
    (
        2,
        &[FIRST, PROGRESS, RESET],
        Some(StoreFault::Damaged { slot: 2 }),
    ),
    (
        2,
        &[RESET, FIRST, MODEL],
        Some(StoreFault::Damaged { slot: 3 }),
    ),
    (
        2,
        &[MODEL, MODEL, FIRST],
        Some(StoreFault::Damaged { slot: 1 }),
    ),
    (2, &[FIRST, NAME, OP], Some(StoreFault::Damaged { slot: 3 })),
    // The known IV Index never falls. The mark may.
    (
        2,
        &[FIRST, BEFORE, FIRST],
        Some(StoreFault::Damaged { slot: 2 }),
    ),
    (
        2,
        &[FIRST, NEXT, FIRST],
        Some(StoreFault::Damaged { slot: 3 }),
    ),
    (2, &[BEFORE, FIRST, NEXT], None),
    (2, &[HIGHER, FIRST, FIRST], None),
    // Format 01 has no second name.
    (2, &[FIRST, NAMES, NET], None),
    (
        1,
        &[FIRST, NAMES, NET],
        Some(StoreFault::Damaged { slot: 2 }),
    ),
    (1, &[FIRST, NAME, NET], None),
];

/// Three slots.
fn slots_of(texts: &[Text]) -> [Slot; 3] {
    let mut slots = [slot(0, b""); 3];
    for (place, (kind, octets)) in texts.iter().enumerate() {
        if place < 3 {
            slots[place] = slot(*kind, octets);
        }
    }
    slots
}

/// Why a flash with these slots isn't mounted; `Flash` where it can't be made.
fn refusal(alloc: Global, format: u8, texts: &[Text]) -> Option<StoreFault> {
    let Ok(mut flash) = MemFlash::new(alloc) else {
        return Some(StoreFault::Flash);
    };
    let format = if format == 1 { 1 } else { 2 };
    if Journal::format(&mut flash, &slots_of(texts), format).is_err() {
        return Some(StoreFault::Flash);
    }
    Store::mount(&mut flash).err()
}

#[test]
fn what_is_mounted(rt: HostRuntime) {
    for (format, texts, want) in BANKS {
        assert!(rt; refusal(rt.alloc(), *format, texts) == *want);
    }
}

/// Where bank 1 begins.
const OTHER_BANK: u32 = 0x8000;

/// An erased header.
const BLANK: [u8; 32] = [0xff; 32];

/// A header with gate 00 that isn't sound: each of its octets may rise to what a sound one has.
const HOLLOW: [u8; 32] = [0; 32];

/// What is read of a flash of these slots, in format 02, whose other bank has this header.
fn read_of(alloc: Global, texts: &[Text], header: &[u8; 32]) -> Result<bool, ImageFault> {
    let mut flash = MemFlash::new(alloc).map_err(|_| ImageFault::NotWhole)?;
    let formatted = Journal::format(&mut flash, &slots_of(texts), 2);
    let written = flash.program(OTHER_BANK, header);
    if formatted.is_err() || written.is_err() {
        return Err(ImageFault::Store(StoreFault::Flash));
    }
    Ok(read_image(&mut flash)?.reset)
}

/// What is read of a flash on which a node was provisioned, and of one that is erased.
fn read_provisioned(alloc: Global) -> Option<bool> {
    let mut flash = MemFlash::new(alloc).ok()?;
    if read_image(&mut flash).err() != Some(ImageFault::Store(StoreFault::NoNode)) {
        return None;
    }
    Store::provision(&mut flash, &provisioned_with()).ok()?;
    Some(read_image(&mut flash).ok()?.reset)
}

#[test]
fn what_is_read_of_an_image(rt: HostRuntime) {
    let alloc = rt.alloc();
    assert!(rt; read_provisioned(alloc) == Some(false));
    assert!(rt; read_of(alloc, &[FIRST, NET, RESET], &BLANK) == Ok(true));
    assert!(rt; read_of(alloc, &[FIRST, NET, NAME], &BLANK) == Err(ImageFault::NotWhole));
    assert!(rt;
        read_of(alloc, &[FIRST, NET, NAME], &HOLLOW) == Err(ImageFault::Header { bank: 1 })
    );
    let damaged = ImageFault::Store(StoreFault::Damaged { slot: 2 });
    assert!(rt; read_of(alloc, &[FIRST, KIND, NAME], &BLANK) == Err(damaged));
}
