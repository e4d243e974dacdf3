//! A PDU that was read before a Key Refresh began is read again, and one that was read by the view of now isn't.
//!
//! - `hearing`: a bearer that hears many PDUs reads them before its turn

mod hearing;

ghost use Rattle.std.specs.Prelude.{◌≡◌, ◌≤◌, IfSome, IsTrue};
ghost use Rattle.early_reading.specs.Views.{IsRead, read_before};
ghost use Rattle.flash_model.specs.Chip.{IsFresh};
ghost use Rattle.machine_contract.specs.Opening.{IsNodeFlash};
ghost use Rattle.mesh_machine.specs.Machine.{shown};
ghost use Rattle.node_store.specs.Tie.{IsNode};

use flash_model::{Bench, Flash, MemFlash};
use machine_contract::{EarlyReads, Machine, ReadBefore, Started};
use mesh_base::address::Address;
use mesh_base::octets::Octets;
use mesh_machine::{MeshMachine, Reader, Reading};
use mesh_types::events::Event;
use node_store::Provision;
use run_steps::provision;
use seq_word::Numbers;
use std::alloc::Global;

/// The network key and the device key, of the sample data.
const NET_KEY: [u8; 16] = [
    0x7d, 0xd7, 0x36, 0x4c, 0xd8, 0x42, 0xad, 0x18, 0xc1, 0x7c, 0x2b, 0x82, 0x0c, 0x84, 0xc3, 0xd6,
];

const DEVICE_KEY: [u8; 16] = [
    0x9d, 0x6d, 0xd0, 0xe9, 0x6e, 0xb2, 0x5d, 0xc1, 0x9a, 0x40, 0xed, 0x99, 0x14, 0xf8, 0xf0, 0x3f,
];

// PDUs that the second implementation in `compare/` sealed, under that network key and IV Index 12345678: control messages of 0005 with SEQ 1 and
// 4, and between them the two segments of a Config NetKey Update of 0003.
const HEARD: [u8; 18] = [
    0x68, 0x29, 0xea, 0xc4, 0xa0, 0xaa, 0x0e, 0x55, 0x29, 0x9f, 0x28, 0xd1, 0x67, 0xb5, 0x1a, 0xf1,
    0x85, 0xf5,
];

const UPDATE_0: [u8; 29] = [
    0x68, 0x4b, 0xf7, 0x1c, 0xc8, 0xa5, 0xd5, 0x9d, 0xc7, 0xea, 0xd2, 0xb7, 0xa8, 0xc4, 0x28, 0x58,
    0x84, 0x17, 0x31, 0x6e, 0x62, 0xf9, 0x5f, 0xc6, 0x73, 0x5d, 0x6c, 0xcd, 0xb3,
];

const UPDATE_1: [u8; 29] = [
    0x68, 0x8a, 0xca, 0x87, 0xcc, 0x27, 0x2d, 0x5a, 0x5e, 0x2a, 0x5f, 0xb7, 0x70, 0x9d, 0xcf, 0x16,
    0x00, 0xdd, 0x2d, 0x3e, 0x0d, 0xd8, 0xe8, 0x2e, 0xab, 0x06, 0xf5, 0x68, 0x9d,
];

const HEARD_BEHIND: [u8; 18] = [
    0x68, 0xc3, 0x1f, 0x65, 0x7e, 0x04, 0x55, 0xbf, 0x40, 0x72, 0x88, 0x51, 0xe4, 0x85, 0x97, 0xea,
    0xa1, 0x78,
];

/// A flash with a node whose power was cycled.
fn node_flash(alloc: Global) -> Option<MemFlash>
    ensures fresh { IfSome result (λ f. IsFresh (⟦<MemFlash as Flash>⟧.chip f)) }
    ensures node { IfSome result (λ f. IsNodeFlash IsNode (⟦<MemFlash as Flash>⟧.chip f)) }
    ensures began { IfSome result
        (λ f. (⟦<MemFlash as Flash>⟧.chip f).setting.faults ≤ (⟦<MemFlash as Flash>⟧.chip f).faults) }
{
    let mut flash = match MemFlash::new(alloc) {
        Ok(flash) => flash,
        Err(_) => return None,
    };
    let node = Provision {
        unicast: Address(0x1201),
        elements: 1,
        iv: 0x1234_5678,
        flags: 0,
        net_index: 0,
        net_key: NET_KEY,
        dev_key: DEVICE_KEY,
    };
    match provision(&mut flash, false, &node) {
        Ok(()) => {}
        Err(_) => return None,
    }
    flash.power_cycle();
    Some(flash)
}

/// Whether a PDU is handled that a reader has read before.
fn is_handled_early(
    machine: &mut MeshMachine,
    n: &Numbers,
    flash: &mut MemFlash,
    number: u32,
    octets: &Octets<40>,
    early: &ReadBefore<'_, Reader, Reading>,
) -> bool
    requires made { (shown machine.old).which ≡ n.now.which }
    requires early { IfSome (read_before early.now.reader.now early.now.reading.now)
        (λ e. (e.octets ≡ octets.now) × IsRead e) }
    ensures made { IsTrue result → (shown machine.new).which ≡ n.now.which }
{
    match machine.handle_early(n, flash, 0, number, octets, early) {
        Ok(_) => true,
        Err(_) => false,
    }
}

/// Whether a PDU is handled that wasn't read before.
fn is_handled(
    machine: &mut MeshMachine,
    n: &Numbers,
    flash: &mut MemFlash,
    number: u32,
    octets: Octets<40>,
) -> bool
    requires made { (shown machine.old).which ≡ n.now.which }
    ensures made { IsTrue result → (shown machine.new).which ≡ n.now.which }
{
    let event = Event::Net(octets);
    let reader = Reader::new();
    let reading = Reading::new();
    let early = ReadBefore {
        reader: &reader,
        reading: &reading,
    };
    match machine.handle(n, flash, 0, number, &event, &early) {
        Ok(_) => true,
        Err(_) => false,
    }
}

/// These octets, at most 40.
fn pdu(octets: &[u8]) -> Octets<40> {
    Octets::of(octets).unwrap_or_default()
}

/// What a machine counts: two PDUs are read by one reader; the first is handled, then the network key is updated, and the second is handled.
fn counted(alloc: Global) -> Option<EarlyReads> {
    let mut flash = node_flash(alloc)?;
    let started = match MeshMachine::start(alloc, &mut flash) {
        Ok(started) => started,
        Err(_) => return None,
    };
    let Started {
        mut machine,
        numbers,
        ..
    } = started;
    let mut reader = Reader::new();
    let mut first = Reading::new();
    let mut second = Reading::new();
    let heard = pdu(&HEARD);
    let behind = pdu(&HEARD_BEHIND);
    machine.renew_reader(&mut reader);
    reader.early(&mut first, &heard);
    reader.early(&mut second, &behind);
    let is_all = is_handled_early(
        &mut machine,
        &numbers,
        &mut flash,
        1,
        &heard,
        &ReadBefore {
            reader: &reader,
            reading: &first,
        },
    ) && is_handled(&mut machine, &numbers, &mut flash, 2, pdu(&UPDATE_0))
        && is_handled(&mut machine, &numbers, &mut flash, 3, pdu(&UPDATE_1))
        && is_handled_early(
            &mut machine,
            &numbers,
            &mut flash,
            4,
            &behind,
            &ReadBefore {
                reader: &reader,
                reading: &second,
            },
        );
    if is_all {
        Some(machine.early_reads())
    } else {
        None
    }
}

#[test]
fn a_view_of_before_a_key_refresh(rt: HostRuntime) {
    let reads = counted(rt.alloc());
    assert!(rt;
        matches!(
            reads,
            Some(EarlyReads {
                again: 1,
                before: 1
            })
        )
    );
}
