//! The machine of the lives of a node's script.
#![tactic(auto)]

ghost use Rattle.std.specs.Prelude.{◌≡◌, ◌≢◌, ℕ, ◌+◌, ◌<◌, ◌^◌, List, [], ◌∷◌, ◌++◌, length, drop, All, true, false, Ok, Err, IsErr, IfOk, OnOk, IfErr, ◌-◌};
ghost use Rattle.event_definitions.specs.Role.{node_role};
ghost use Rattle.mesh_machine.specs.Machine.{Stands, shown};
ghost use Rattle.next_due.specs.Quiet.{IsQuiet};
ghost use Rattle.node_layers.specs.NodeLayers.{node_layers};
ghost use Rattle.node_store.specs.Tie.{IsNode};

use flash_model::Flash;
use machine_contract::{
    Answered, EarlyReads, History, Machine, ReadBefore, StartFault, Started, Stop,
};
use mesh_base::octets::Octets;
use mesh_machine::MeshMachine;
use mesh_types::events::Event;
use mesh_types::history::Entry;
use node_limits::BEARER_LINES;
use seq_word::{Drawer, Dry, Keeper, Numbers};
use std::alloc::Global;

/// A machine that has memory for the entries of all lines that a life may have, before it handles an event. So the threads of the bearers take
/// none for them, and lives one after another take the same memory: a list that grows does so on the thread that its life happens to be on
/// then, and the C library keeps what each thread gave back apart.
#[derive(Drop)]
pub(crate) struct ScriptMachine {
    machine: MeshMachine,
}

impl Machine for ScriptMachine {
    ghost role = { node_role node_layers };

    ghost image = { IsNode };

    ghost quiet = { IsQuiet };

    ghost view = { λ m. shown m.machine };

    ghost advances = { λ m. ⟦<MeshMachine as Machine>⟧.advances m.machine };

    ghost stands = { λ first chip over m. Stands first chip over m.machine };

    ghost fits = { ⟦<MeshMachine as Machine>⟧.fits };

    type Reader = <MeshMachine as Machine>::Reader;

    type Reading = <MeshMachine as Machine>::Reading;

    fn start<F: Flash>(alloc: Global, flash: &mut F) -> Result<Started<Self>, StartFault> {
        let Started {
            machine,
            numbers,
            drawer,
            state,
            mark,
        } = MeshMachine::start_with_room(alloc, flash, BEARER_LINES)?;
        Ok(Started {
            machine: ScriptMachine { machine },
            numbers,
            drawer,
            state,
            mark,
        })
    }

    fn new_reader() -> Self::Reader {
        MeshMachine::new_reader()
    }

    fn new_reading() -> Self::Reading {
        MeshMachine::new_reading()
    }

    fn reader(&self, reader: &mut Self::Reader) {
        self.machine.reader(reader);
    }

    fn unread(reading: &mut Self::Reading) {
        MeshMachine::unread(reading);
    }

    fn early(reader: &mut Self::Reader, reading: &mut Self::Reading, bytes: &Octets<40>) {
        MeshMachine::early(reader, reading, bytes);
    }

    fn handle<F: Flash>(
        &mut self,
        n: &Numbers,
        flash: &mut F,
        bearer: u8,
        number: u32,
        event: &Event,
        early: &ReadBefore<'_, Self::Reader, Self::Reading>,
    ) -> Result<Answered, Stop> {
        self.machine.handle(n, flash, bearer, number, event, early)
    }

    fn inform(&mut self, n: &Numbers, d: &mut Drawer) {
        self.machine.inform(n, d);
    }

    fn refill<F: Flash>(
        &mut self,
        n: &Numbers,
        flash: &mut F,
        d: &mut Drawer,
        dry: Dry,
    ) -> Result<u64, Stop> {
        self.machine.refill(n, flash, d, dry)
    }

    fn take_entries<F: Flash>(&mut self) -> Vec<Entry> {
        self.machine.take_entries::<F>()
    }

    fn is_closed(&self) -> bool {
        self.machine.is_closed()
    }

    fn due<F: Flash>(&self) -> u32 {
        self.machine.due::<F>()
    }

    fn count(&self) -> u64 {
        self.machine.count()
    }

    fn elements(&self) -> u8 {
        self.machine.elements()
    }

    fn early_reads(&self) -> EarlyReads {
        self.machine.early_reads()
    }

    fn finish(self) -> (History, Keeper) {
        let ScriptMachine { machine } = self;
        machine.finish()
    }

    fn tells<F: Flash>() {
        // It does nothing when it runs: the proof uses what it says.
        MeshMachine::tells::<F>();
    }

    fn stays<F: Flash>() {
        // It does nothing when it runs: the proof uses what it says.
        MeshMachine::stays::<F>();
    }
}
