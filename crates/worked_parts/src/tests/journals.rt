//! A journal of few slots and of many: its header, and what a cut leaves of it.

ghost use Rattle.std.specs.Prelude.{◌≡◌, ◌⊎◌, ◌<◌, ◌≤◌, length};

use flash_model::{Bench, Flash, MemFlash};
use mesh_base::slot::Slot;
use slot_journal::Journal;
use std::alloc::Global;

fn slot(kind: u8) -> Slot {
    Slot {
        kind,
        body: [kind; 30],
    }
}

/// Makes a journal.
fn make<F: Flash>(flash: &mut F, items: &[Slot], format: u8)
    requires few { length items.now ≤ 512 }
    requires known { (format ≡ 1) ⊎ (format ≡ 2) }
{
    let _ = Journal::format(flash, items, format);
}

/// Appends so many slots of a kind, or up to the first that is refused.
fn append<F: Flash>(flash: &mut F, kind: u8, count: u32) {
    let Ok(mut journal) = Journal::mount(flash) else {
        return;
    };
    for _ in 0..count {
        if journal.append(flash, &slot(kind)).is_err() {
            return;
        }
    }
}

/// Compacts to these items.
fn compact<F: Flash>(flash: &mut F, items: &[Slot])
    requires { length items.now ≤ 512 }
{
    let Ok(mut journal) = Journal::mount(flash) else {
        return;
    };
    let _ = journal.compact(flash, &items);
}

/// The kind that slot `n` holds, or 0 where it holds none.
fn kind_at<F: Flash>(flash: &mut F, n: u32) -> u8
    requires { 0 < n }
{
    let Ok(journal) = Journal::mount(flash) else {
        return 0;
    };
    if n > journal.used() {
        return 0;
    }
    match journal.slot(flash, n) {
        Ok(Some(slot)) => slot.kind,
        _ => 0,
    }
}

/// The format in a bank's header, or 0 where the octets aren't those of a header of this generation, 0 to 255.
fn format_of<F: Flash>(flash: &mut F, bank: u32, generation: u8) -> u8
    requires { bank ≤ 1 }
{
    let mut text = [0xff; 32];
    let _ = flash.read(32768 * bank, &mut text);
    let mut header = [0; 32];
    header[0] = 0xf0;
    header[1] = text[1];
    header[5] = generation;
    header[6] = 0xff;
    header[7] = 0xff;
    header[8] = 0xff;
    header[9] = !generation;
    if text == header { text[1] } else { 0 }
}

/// Has the call behind so many be torn.
fn tear<F: Bench>(flash: &mut F, calls: u32, mask: u8) {
    flash.power_cycle();
    flash.arm(calls, mask);
}

/// Programs an octet of each sector of bank 1.
fn mark<F: Flash>(flash: &mut F) {
    for sector in 8..16 {
        let _ = flash.program(4096 * sector + 100, &[0x5a]);
    }
}

/// The first sector of bank 1 in which that octet isn't ff, or 16.
fn marked<F: Flash>(flash: &mut F) -> u8 {
    for sector in 8..16 {
        let mut octet = [0];
        let _ = flash.read(4096 * u32::from(sector) + 100, &mut octet);
        if octet[0] != 0xff {
            return sector;
        }
    }
    16
}

/// A journal of two slots is made, a third is torn, and a fourth appended. Then a compaction is torn in its fourth call, which erases nothing.
/// Returns the kinds of the four slots, the header's format, and the first sector that isn't erased.
fn few(alloc: Global) -> [u8; 6] {
    let Ok(mut flash) = MemFlash::new(alloc) else {
        return [0; 6];
    };
    let flash = &mut flash;
    make(flash, &[slot(1), slot(2)], 2);
    tear(flash, 0, 0xf0);
    append(flash, 3, 1);
    flash.power_cycle();
    append(flash, 4, 1);
    mark(flash);
    tear(flash, 3, 0x00);
    compact(flash, &[slot(5)]);
    flash.power_cycle();
    let [a, b] = [kind_at(flash, 1), kind_at(flash, 2)];
    let [c, d] = [kind_at(flash, 3), kind_at(flash, 4)];
    [a, b, c, d, format_of(flash, 0, 1), marked(flash)]
}

/// A journal of 512 slots in format 1 is filled, compacted to as many, and gets one more. Returns the kinds of the slots 512 and 1,023 before, and
/// of 512 and 513 behind the compaction, and the new header's format.
fn many(alloc: Global) -> [u8; 5] {
    let Ok(mut flash) = MemFlash::new(alloc) else {
        return [0; 5];
    };
    let flash = &mut flash;
    make(flash, &[slot(1); 512], 1);
    append(flash, 2, 512);
    let [a, b] = [kind_at(flash, 512), kind_at(flash, 1023)];
    compact(flash, &[slot(3); 512]);
    append(flash, 4, 1);
    let [c, d] = [kind_at(flash, 512), kind_at(flash, 513)];
    [a, b, c, d, format_of(flash, 1, 2)]
}

#[test]
fn a_journal_of_few_slots_and_of_many(rt: HostRuntime) {
    assert!(rt; few(rt.alloc()) == [1, 2, 0, 4, 2, 11]);
    assert!(rt; many(rt.alloc()) == [1, 2, 3, 4, 2]);
}
