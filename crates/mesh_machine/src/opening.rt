//! A life is opened, and the machine as the layers above see it.
#![tactic(auto)]

ghost use Rattle.std.specs.Prelude.{◌≡◌, ◌≤◌, drop, false, List, [], IfErr, IfOk, IfSome};
ghost use Rattle.early_reading.specs.Views.{IsRead, read_before};
ghost use Rattle.flash_model.specs.Arming.{Begins, Erases, Programs};
ghost use Rattle.flash_model.specs.Chip.{IsFresh, Keeps};
ghost use Rattle.machine_contract.specs.Opening.{IsNodeFlash, IsUnwritten, MigratesOnly};
ghost use Rattle.machine_contract.specs.Refused.{IsStartCause, WasReset};
ghost use Rattle.machine_contract.specs.Started.{IsStarted};
ghost use Rattle.event_plans.specs.Memory.{AreNodeTablesOf};
ghost use Rattle.machine_standing.specs.Ties.{IsNodeStore};
ghost use Rattle.machine_ties.specs.Ties.{opened};
ghost use Rattle.mesh_machine.specs.Machine.{Stands, advances_of, persist_of, shown};
ghost use Rattle.mesh_types.specs.declared.events.Event.TheVariants as E;
ghost use Rattle.event_definitions.specs.Role.{node_role};
ghost use Rattle.next_due.specs.Quiet.{IsQuiet};
ghost use Rattle.node_layers.specs.NodeLayers.{node_layers};
ghost use Rattle.node_records.specs.Meaning.{IsMeaningOf};
ghost use Rattle.node_store.specs.Calls.{compaction};
ghost use Rattle.node_store.specs.Tie.{IsNode};
ghost use Rattle.record_types.specs.declared.records.StoreRecord.{StoreRecord};
ghost use Rattle.seq_reserve.specs.Reserving.{IsPublished};
ghost use Rattle.seq_word.specs.Seen.{fresh};
ghost use Rattle.slot_definitions.specs.Slots.{HasFormat};

use crate::machine::MeshMachine;
use crate::parts::Parts;
use crate::state::MeshState;
use early_reading::{Reader, Reading};
use entry_log::EntryLog;
use event_plans::NodeTables;
use flash_model::Flash;
use machine_contract::{
    Answered, EarlyReads, Hand, History, Machine, ReadBefore, StartFault, Started, Stop,
};
use machine_standing::mount_node;
use mesh_base::octets::Octets;
use mesh_reading::held_keys_law;
use mesh_types::events::Event;
use mesh_types::history::Entry;
use node_store::Store;
use seq_reserve::Reserve;
use seq_word::{Drawer, Dry, Keeper, Numbers};
use std::alloc::{AllocError, Global};

// Opens a life over a store that was mounted, with memory for so many entries. It stands apart, so that no caller has a place for what it boxes.
#[inline(never)]
fn open(alloc: Global, store: Store, entries: usize) -> Result<Started<MeshMachine>, AllocError>
    requires usable { store.journal.closed ≡ false }
    requires node { (over : List StoreRecord) × IsNodeStore over store.persist }
    ensures machine { IfOk result (λ s. s.machine.state.value ≡ opened s.machine.state.value.reserve s.machine.state.value.tables store.persist.elements) }
    ensures reads { IfOk result (λ s. s.machine.reads ≡ record { again = 0; before = 0 }) }
    ensures store { IfOk result (λ s. s.machine.state.value.reserve.store ≡ store) }
    ensures published { IfOk result (λ s. IsPublished s.machine.state.value.reserve.store s.machine.state.value.reserve.keeper) }
    ensures tables { (over : List StoreRecord) → IsMeaningOf over store.persist
        → IfOk result (λ s. AreNodeTablesOf s.machine.state.value.tables (record { told = []; records = over })) }
    ensures which { IfOk result (λ s. s.machine.state.value.reserve.keeper.which ≡ s.numbers.which) }
    ensures advances { IfOk result (λ s. s.machine.state.value.reserve.keeper.advances ≡ []) }
    ensures opened { IfOk result (λ s. s.numbers.opened ≡ store.persist.mark) }
    ensures drawer { IfOk result (λ s. s.drawer ≡ fresh s.numbers.which [] 1024) }
    ensures state { IfOk result (λ s. s.state ≡ store.persist.iv) }
    ensures mark { IfOk result (λ s. s.mark ≡ store.persist.mark) }
{
    // It does nothing when it runs: the proof uses what it says.
    held_keys_law();
    let tables = NodeTables::new(alloc, store.persist())?;
    let mut history = EntryLog::new(alloc)?;
    history.reserve_all(entries)?;
    let (reserve, numbers, drawer) = Reserve::start(alloc, store)?;
    let p = reserve.store.persist();
    let state = p.iv;
    let mark = p.mark;
    let elements = p.elements;
    let apart = MeshState {
        parts: Parts {
            reserve,
            tables,
            history,
        },
        fills: 0,
        closed: false,
        hand: Hand::Nothing,
        elements,
    };
    let reads = EarlyReads {
        again: 0,
        before: 0,
    };
    Ok(Started {
        machine: MeshMachine {
            state: Box::new(alloc, apart)?,
            reads,
        },
        numbers,
        drawer,
        state,
        mark,
    })
}

// What is left of a machine: its entries that weren't taken, and its keeper.
#[inline(never)]
fn ended(state: Box<MeshState>) -> (History, Keeper)
    ensures entries { result.0.entries.items ≡ drop state.value.taken state.value.entries }
    ensures refills { result.0.refills ≡ state.value.fills }
    ensures keeper { result.1 ≡ state.value.reserve.keeper }
{
    let MeshState { parts, fills, .. } = Box::into_inner(state);
    let Parts {
        reserve,
        mut history,
        ..
    } = parts;
    let Reserve { store: _, keeper } = reserve;
    (
        History {
            entries: history.take(),
            refills: fills,
        },
        keeper,
    )
}

impl MeshMachine {
    /// `start` of `Machine`, which takes memory for so many entries besides: so as many events take none for their entries. Where it migrates a
    /// flash of format 01, it counts the calls of a compaction to the records that say the same (`calls`).
    pub fn start_with_room<F: Flash>(
        alloc: Global,
        flash: &mut F,
        entries: usize,
    ) -> Result<Started<Self>, StartFault>
        requires fresh { IsFresh (F.chip flash.old) }
        requires node { IsNodeFlash IsNode (F.chip flash.old) }
        requires began { (F.chip flash.old).setting.faults ≤ (F.chip flash.old).faults }
        ensures ok { IfOk result (IsStarted shown Stands (F.chip flash.old) (F.chip flash.new)) }
        ensures cause { IfErr result (IsStartCause IsNode (F.chip flash.old) (F.chip flash.new)) }
        ensures writes { MigratesOnly (F.chip flash.old) (F.chip flash.new) }
        ensures reset { WasReset (F.chip flash.old) → IsUnwritten (F.chip flash.old) (F.chip flash.new) }
        ensures calls { HasFormat 1 (F.chip flash.old).now
            → IfOk result
            (λ s. Begins (compaction (persist_of s.machine)).calls (F.chip flash.old) (F.chip flash.new)
            × Erases (compaction (persist_of s.machine)).erases (F.chip flash.old) (F.chip flash.new)
            × Programs (compaction (persist_of s.machine)).octets (F.chip flash.old) (F.chip flash.new)) }
        ensures frame { Keeps (F.chip flash.old) (F.chip flash.new) }
    {
        let store = mount_node(flash)?;
        match open(alloc, store, entries) {
            Ok(started) => Ok(started),
            Err(_) => Err(StartFault::Memory),
        }
    }
}

impl Machine for MeshMachine {
    ghost role = { node_role node_layers };

    ghost image = { IsNode };

    ghost quiet = { IsQuiet };

    ghost view = { shown };

    ghost advances = { advances_of };

    ghost stands = { Stands };

    // What was read is the octets of the event, and they read so by the view of the reader.
    ghost fits = { λ reader reading event. IfSome (read_before reader reading) (λ e. (event ≡ E.Net e.octets) × IsRead e) };

    type Reader = Reader;

    type Reading = Reading;

    fn start<F: Flash>(alloc: Global, flash: &mut F) -> Result<Started<Self>, StartFault> {
        MeshMachine::start_with_room(alloc, flash, 0)
    }

    fn new_reader() -> Reader {
        Reader::new()
    }

    fn new_reading() -> Reading {
        Reading::new()
    }

    fn reader(&self, reader: &mut Reader) {
        self.renew_reader(reader);
    }

    fn unread(reading: &mut Reading) {
        reading.forget();
    }

    fn early(reader: &mut Reader, reading: &mut Reading, bytes: &Octets<40>) {
        reader.early(reading, bytes);
    }

    fn handle<F: Flash>(
        &mut self,
        n: &Numbers,
        flash: &mut F,
        bearer: u8,
        number: u32,
        event: &Event,
        early: &ReadBefore<'_, Reader, Reading>,
    ) -> Result<Answered, Stop> {
        self.handle_event(n, flash, bearer, number, event, early)
    }

    fn inform(&mut self, n: &Numbers, d: &mut Drawer) {
        self.state.inform(n, d);
    }

    fn refill<F: Flash>(
        &mut self,
        n: &Numbers,
        flash: &mut F,
        d: &mut Drawer,
        dry: Dry,
    ) -> Result<u64, Stop> {
        self.state.refill_numbers(n, flash, d, dry)
    }

    fn take_entries<F: Flash>(&mut self) -> Vec<Entry> {
        self.state.take::<F>()
    }

    fn is_closed(&self) -> bool {
        self.state.closed
    }

    fn due<F: Flash>(&self) -> u32 {
        self.state.ticks_left()
    }

    fn count(&self) -> u64 {
        self.state.parts.history.count()
    }

    fn elements(&self) -> u8 {
        self.state.elements
    }

    fn early_reads(&self) -> EarlyReads {
        self.reads
    }

    fn finish(self) -> (History, Keeper) {
        let MeshMachine { state, reads: _ } = self;
        ended(state)
    }

    fn tells<F: Flash>() {}

    fn stays<F: Flash>() {}
}
