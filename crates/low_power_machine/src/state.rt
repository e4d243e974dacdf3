//! What a machine is between two calls.
#![tactic(auto)]

ghost use Rattle.std.specs.Prelude.{◌≡◌, ◌≢◌, ◌⊎◌, ◌+◌, ◌<◌, ◌^◌, ◌++◌, List, All, drop, length, true, false, Ok, Err, IfOk, OnOk, IfErr, max, OnErr};
ghost use Rattle.flash_model.specs.Arming.{FailsOnce};
ghost use Rattle.flash_model.specs.Chip.{Keeps};
ghost use Rattle.low_power_machine.specs.Views.{Stands, shown};
ghost use Rattle.machine_contract.specs.Opening.{FlashFound};
ghost use Rattle.machine_contract.specs.Ranges.{IsJob, IsQuiet};
ghost use Rattle.machine_contract.specs.Refused.{IsRefused};
ghost use Rattle.machine_contract.specs.View.{entry_for, with_entry};
ghost use Rattle.record_types.specs.declared.records.StoreRecord.{StoreRecord};
ghost use Rattle.run_definitions.specs.Order.{is_outside};
ghost use Rattle.seq_word.specs.Seen.{IsAbove, IsFoundBy, last_word, went_to};
ghost use Rattle.seq_word.specs.Word.{seq_of};

use crate::memory::Memory;
use crate::planning::plan;
use crate::sending::jobs_of;
use entry_log::EntryLog;
use event_records::{Changes, heard_records};
use event_storing::store_records;
use flash_model::Flash;
use low_power_role::low_power_state_law;
use machine_contract::{Answered, Hand, Stop};
use machine_standing::{Place, enter, room};
use mesh_types::events::Event;
use mesh_types::history::Entry;
use mesh_types::told::ToldEvent;
use seq_reserve::Reserve;
use seq_word::{Drawer, Dry, Numbers};
use std::marker::Model;
use store_definitions::node::node_law;

/// What the machine of a Low Power node is between two calls. The flash stays with the caller, and is passed to each call.
#[derive(Drop)]
pub struct LowPowerState {
    pub(crate) reserve: Reserve,
    pub(crate) memory: Memory,
    pub(crate) history: EntryLog,
    pub(crate) fills: u32,
    pub(crate) closed: bool,
    pub(crate) hand: Hand,
    pub(crate) elements: u8,
}

impl Model for LowPowerState {
    ghost use Rattle.low_power_machine.specs.Views.{IsSound, LowPowerNode};
    ghost use Rattle.low_power_machine.specs.Parts.{machine_of};

    ghost Value = { LowPowerNode };

    ghost view = { λ m. machine_of m.reserve m.memory m.history m.fills m.closed m.hand m.elements };

    ghost invariant = { λ m. IsSound (machine_of m.reserve m.memory m.history m.fills m.closed m.hand m.elements) };
}

impl LowPowerState {
    /// Handles an event of a bearer, which is the one with this number among its events, from 1 on: `handle` of `Machine` is this call.
    pub(crate) fn handle_event<F: Flash>(
        &mut self,
        n: &Numbers,
        flash: &mut F,
        bearer: u8,
        number: u32,
        event: &Event,
    ) -> Result<Answered, Stop>
        requires made { (shown self.old).which ≡ n.now.which }
        ensures ok { IfOk result
            (λ r. shown self.new
            ≡ with_entry (shown self.old) (entry_for (shown self.old) bearer number event.now r.answer r.jobs)
            (last_word (went_to self.new.reserve.keeper.advances)) (shown self.new).mark) }
        ensures place { IfOk result (λ r. r.at ≡ length (shown self.old).entries) }
        ensures risen { OnOk result
            (((self.new.reserve.keeper.advances ≡ self.old.reserve.keeper.advances)
            × ((shown self.new).mark ≡ (shown self.old).mark))
            ⊎ ((shown self.new).mark ≡ last_word (went_to self.new.reserve.keeper.advances))) }
        ensures usable { OnOk result ((shown self.old).closed ≡ false) }
        ensures no_fault { OnOk result ((F.chip flash.new).faults ≡ (F.chip flash.old).faults) }
        ensures jobs { IfOk result (λ r. All (IsJob event.now) r.jobs) }
        ensures quiet { is_outside event.now ≡ false → IfOk result (λ r. All IsQuiet r.jobs) }
        ensures unread { (F.chip flash.new).reads ≡ (F.chip flash.old).reads }
        ensures once { FailsOnce (F.chip flash.old) (F.chip flash.new) }
        ensures refused { IfErr result
            (IsRefused F.chip (Hand.OfEvent event.now) (shown self.old) (shown self.new) flash.old flash.new) }
        ensures closed { (shown self.old).closed ≡ true → result ≡ Err Stop.Closed }
        ensures kept { (first : FlashFound) (over : List StoreRecord) → Stands first (F.chip flash.old) over self.old
            → Stands first (F.chip flash.new) over self.new }
        ensures frame { Keeps (F.chip flash.old) (F.chip flash.new) }
    {
        if self.closed {
            return Err(Stop::Closed);
        }
        // They do nothing when they run: the proof uses what they say.
        node_law();
        low_power_state_law();
        let draft = room(&mut self.history)?;
        let plan = plan(&mut self.memory, self.reserve.store.persist(), event);
        let records = heard_records(&plan.answer, &Changes::new());
        match store_records(&mut self.reserve, n, flash, &records) {
            Ok(()) => {}
            Err(_) => {
                self.closed = true;
                self.hand = Hand::OfEvent(ToldEvent::of(event));
                return Err(Stop::Flash);
            }
        }
        let jobs = jobs_of(draft, self.reserve.store.persist(), plan.job);
        let place = Place {
            bearer,
            number,
            fills: self.fills,
        };
        let history = &mut self.history;
        let keeper = &self.reserve.keeper;
        let answered = enter(history, keeper, place, event, plan.answer, jobs);
        self.fills = 0;
        Ok(answered)
    }

    /// Tells a seat that draws where the counter has been moved to so far: `inform` of `Machine` is this call.
    pub(crate) fn inform(&mut self, n: &Numbers, d: &mut Drawer)
        requires made { (shown self.old).which ≡ n.now.which }
        requires drawer_made { d.old.which ≡ n.now.which }
        ensures same { self.new ≡ self.old }
        ensures informed { d.new ≡ record d.old { informed = d.old.informed ++ went_to self.old.reserve.keeper.advances } }
        ensures below { IsAbove d.old (shown self.old).mark }
    {
        self.reserve.inform(n, d);
    }

    /// The entries since this was called last, or since the life began (`entries`); nothing else changes (`shown`). `take_entries` of `Machine` is
    /// this call. `F` is the type of the flash that it stands over, which isn't called.
    pub(crate) fn take<F: Flash>(&mut self) -> Vec<Entry>
        ensures entries { result.items ≡ drop (shown self.old).taken (shown self.old).entries }
        ensures shown { shown self.new ≡ record (shown self.old) { taken = length (shown self.old).entries } }
        ensures kept { (first : FlashFound) (f : F) (over : List StoreRecord) → Stands first (F.chip f) over self.old
            → Stands first (F.chip f) over self.new }
    {
        self.history.take()
    }

    /// Stores a refill: `refill` of `Machine` is this call.
    pub(crate) fn refill_numbers<F: Flash>(
        &mut self,
        n: &Numbers,
        flash: &mut F,
        d: &mut Drawer,
        dry: Dry,
    ) -> Result<u64, Stop>
        requires made { (shown self.old).which ≡ n.now.which }
        requires drawer_made { d.old.which ≡ n.now.which }
        requires found { IsFoundBy dry d.old }
        requires seq { seq_of dry.mark < 2 ^ 24 }

        ensures filled { dry.mark ≡ (shown self.old).mark
            → OnOk result
            (shown self.new
            ≡ record (shown self.old) { fills = (shown self.old).fills + 1; mark = dry.mark + 256 }) }
        ensures owes { dry.mark ≡ (shown self.old).mark
            → OnOk result (d.new ≡ record d.old { owes = max d.old.owes (dry.next + 1) }) }
        ensures stays { dry.mark ≢ (shown self.old).mark → d.new ≡ d.old }
        ensures failed { OnErr result (d.new ≡ d.old) }
        ensures nothing { dry.mark ≢ (shown self.old).mark → (shown self.old).closed ≡ false
            → (result ≡ Ok (shown self.old).mark) × (shown self.new ≡ shown self.old) × (flash.new ≡ flash.old) }
        ensures value { IfOk result (λ mark. mark ≡ (shown self.new).mark) }
        ensures ok { OnOk result
            (shown self.new
            ≡ record (shown self.old) { fills = (shown self.new).fills; mark = (shown self.new).mark }) }
        ensures usable { OnOk result ((shown self.old).closed ≡ false) }
        ensures no_fault { OnOk result ((F.chip flash.new).faults ≡ (F.chip flash.old).faults) }
        ensures closed { (shown self.old).closed ≡ true → result ≡ Err Stop.Closed }
        ensures memory { result ≢ Err Stop.Memory }
        ensures unread { (F.chip flash.new).reads ≡ (F.chip flash.old).reads }
        ensures once { FailsOnce (F.chip flash.old) (F.chip flash.new) }
        ensures refused { IfErr result
            (IsRefused F.chip Hand.OfRefill (shown self.old) (shown self.new) flash.old flash.new) }
        ensures kept { (first : FlashFound) (over : List StoreRecord) → Stands first (F.chip flash.old) over self.old
            → Stands first (F.chip flash.new) over self.new }
        ensures frame { Keeps (F.chip flash.old) (F.chip flash.new) }
    {
        if self.closed {
            return Err(Stop::Closed);
        }
        let seen = dry.mark();
        let mark = self.reserve.store.persist().mark;
        if seen != mark {
            return Ok(mark);
        }
        // It does nothing when it runs: the proof uses what it says.
        node_law();
        match self.reserve.refill(n, flash, d, dry) {
            Ok(mark) => {
                self.fills += 1;
                Ok(mark)
            }
            Err(_) => {
                self.closed = true;
                self.hand = Hand::OfRefill;
                Err(Stop::Flash)
            }
        }
    }
}
