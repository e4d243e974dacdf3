//! A life is opened, and the machine as the layers above see it.
#![tactic(auto)]

ghost use Rattle.std.specs.Prelude.{◌≡◌, ⊤, List, [], drop, false, IfOk};
ghost use Rattle.low_power_machine.specs.Machine.{Stands, advances_of, shown};
ghost use Rattle.low_power_definitions.specs.State.{no_friend};
ghost use Rattle.low_power_role.specs.Role.{low_power_role};
ghost use Rattle.machine_contract.specs.Idle.{IsQuietTick};
ghost use Rattle.machine_standing.specs.Ties.{IsNodeStore, opened_by};
ghost use Rattle.node_store.specs.Tie.{IsNode};
ghost use Rattle.record_types.specs.declared.records.StoreRecord.{StoreRecord};
ghost use Rattle.seq_reserve.specs.Reserving.{IsPublished};
ghost use Rattle.seq_word.specs.Seen.{fresh};

use crate::machine::LowPowerMachine;
use crate::memory::Memory;
use crate::state::LowPowerState;
use entry_log::EntryLog;
use flash_model::Flash;
use machine_contract::{
    Answered, EarlyReads, Hand, History, Machine, ReadBefore, StartFault, Started, Stop,
};
use machine_standing::mount_node;
use mesh_base::octets::Octets;
use mesh_types::events::Event;
use mesh_types::history::Entry;
use node_store::Store;
use seq_reserve::Reserve;
use seq_word::{Drawer, Dry, Keeper, Numbers};
use std::alloc::{AllocError, Global};

// Opens a life over a store that was mounted. It stands apart, so that no caller has a place for what it boxes.
#[inline(never)]
fn open(alloc: Global, store: Store) -> Result<Started<LowPowerMachine>, AllocError>
    requires usable { store.journal.closed ≡ false }
    requires node { (over : List StoreRecord) × IsNodeStore over store.persist }
    ensures machine { IfOk result (λ s. s.machine.state.value ≡ opened_by s.machine.state.value.reserve s.machine.state.value.tables store.persist.elements) }
    ensures store { IfOk result (λ s. s.machine.state.value.reserve.store ≡ store) }
    ensures published { IfOk result (λ s. IsPublished s.machine.state.value.reserve.store s.machine.state.value.reserve.keeper) }
    ensures lpn { IfOk result (λ s. s.machine.state.value.tables.lpn ≡ no_friend store.persist.unicast store.persist.elements) }
    ensures which { IfOk result (λ s. s.machine.state.value.reserve.keeper.which ≡ s.numbers.which) }
    ensures advances { IfOk result (λ s. s.machine.state.value.reserve.keeper.advances ≡ []) }
    ensures opened { IfOk result (λ s. s.numbers.opened ≡ store.persist.mark) }
    ensures drawer { IfOk result (λ s. s.drawer ≡ fresh s.numbers.which [] 1024) }
    ensures state { IfOk result (λ s. s.state ≡ store.persist.iv) }
    ensures mark { IfOk result (λ s. s.mark ≡ store.persist.mark) }
{
    let memory = Memory::new(store.persist());
    let history = EntryLog::new(alloc)?;
    let (reserve, numbers, drawer) = Reserve::start(alloc, store)?;
    let p = reserve.store.persist();
    let state = p.iv;
    let mark = p.mark;
    let elements = p.elements;
    let apart = LowPowerState {
        reserve,
        memory,
        history,
        fills: 0,
        closed: false,
        hand: Hand::Nothing,
        elements,
    };
    Ok(Started {
        machine: LowPowerMachine {
            state: Box::new(alloc, apart)?,
        },
        numbers,
        drawer,
        state,
        mark,
    })
}

// What is left of a machine: its entries that weren't taken, and its keeper.
#[inline(never)]
fn ended(state: Box<LowPowerState>) -> (History, Keeper)
    ensures entries { result.0.entries.items ≡ drop state.value.taken state.value.entries }
    ensures refills { result.0.refills ≡ state.value.fills }
    ensures keeper { result.1 ≡ state.value.reserve.keeper }
{
    let LowPowerState {
        reserve,
        mut history,
        fills,
        ..
    } = Box::into_inner(state);
    let Reserve { store: _, keeper } = reserve;
    (
        History {
            entries: history.take(),
            refills: fills,
        },
        keeper,
    )
}

impl Machine for LowPowerMachine {
    ghost role = { low_power_role };

    ghost image = { IsNode };

    ghost quiet = { λ past ticks. IsQuietTick low_power_role past ticks };

    ghost view = { shown };

    ghost advances = { advances_of };

    ghost stands = { Stands };

    // Nothing is read before an event is handled.
    ghost fits = { λ _ _ _. ⊤ };

    type Reader = ();

    type Reading = ();

    fn start<F: Flash>(alloc: Global, flash: &mut F) -> Result<Started<Self>, StartFault> {
        let store = mount_node(flash)?;
        match open(alloc, store) {
            Ok(started) => Ok(started),
            Err(_) => Err(StartFault::Memory),
        }
    }

    fn new_reader() {}

    fn new_reading() {}

    fn reader(&self, _reader: &mut ()) {}

    fn unread(_reading: &mut ()) {}

    fn early(_reader: &mut (), _reading: &mut (), _bytes: &Octets<40>) {}

    fn handle<F: Flash>(
        &mut self,
        n: &Numbers,
        flash: &mut F,
        bearer: u8,
        number: u32,
        event: &Event,
        _early: &ReadBefore<'_, (), ()>,
    ) -> Result<Answered, Stop> {
        self.state.handle_event(n, flash, bearer, number, event)
    }

    fn inform(&mut self, n: &Numbers, d: &mut Drawer) {
        self.state.inform(n, d);
    }

    fn refill<F: Flash>(
        &mut self,
        n: &Numbers,
        flash: &mut F,
        d: &mut Drawer,
        dry: Dry,
    ) -> Result<u64, Stop> {
        self.state.refill_numbers(n, flash, d, dry)
    }

    fn take_entries<F: Flash>(&mut self) -> Vec<Entry> {
        self.state.take::<F>()
    }

    fn is_closed(&self) -> bool {
        self.state.closed
    }

    // A Low Power node has no timers.
    fn due<F: Flash>(&self) -> u32 {
        u32::MAX
    }

    fn count(&self) -> u64 {
        self.state.history.count()
    }

    fn elements(&self) -> u8 {
        self.state.elements
    }

    // Nothing is read before an event is handled.
    fn early_reads(&self) -> EarlyReads {
        EarlyReads {
            again: 0,
            before: 0,
        }
    }

    fn finish(self) -> (History, Keeper) {
        let LowPowerMachine { state } = self;
        ended(state)
    }

    fn tells<F: Flash>() {}

    fn stays<F: Flash>() {}
}
