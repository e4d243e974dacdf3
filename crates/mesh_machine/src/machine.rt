//! The machine.
#![tactic(auto)]

ghost use Rattle.std.specs.Prelude.{◌≡◌, ◌⊎◌, ◌+◌, ℕ, List, All, length, true, false, Err, Some, IfErr, IfOk, IfSome, IsTrue, OnOk, ◌↔◌};
ghost use Rattle.early_reading.specs.Known.{IsKnown};
ghost use Rattle.early_reading.specs.Views.{IsRead, read_before};
ghost use Rattle.flash_model.specs.Arming.{FailsOnce};
ghost use Rattle.flash_model.specs.Chip.{Keeps};
ghost use Rattle.event_world.specs.Stepping.{HasStepped};
ghost use Rattle.machine_contract.specs.Opening.{FlashFound};
ghost use Rattle.machine_contract.specs.Ranges.{IsEvent, IsJob, IsQuiet};
ghost use Rattle.machine_contract.specs.Refused.{IsRefused};
ghost use Rattle.machine_contract.specs.View.{entry_for, with_entry};
ghost use Rattle.mesh_machine.specs.Early.{IsCounted, view_now};
ghost use Rattle.mesh_machine.specs.Machine.{Stands, advances_of, persist_of, shown};
ghost use Rattle.mesh_types.specs.declared.events.Event.TheVariants as E;
ghost use Rattle.mesh_world.specs.World.{World};
ghost use Rattle.record_types.specs.declared.records.StoreRecord.{StoreRecord};
ghost use Rattle.run_definitions.specs.Order.{is_outside};
ghost use Rattle.seq_word.specs.Seen.{last_word, went_to};
ghost use Rattle.store_world.specs.Standing.{IsWorldOf};

use crate::state::MeshState;
use early_reading::{KeyView, Known, Reader, Reading};
use flash_model::Flash;
use machine_contract::{Answered, EarlyReads, Hand, ReadBefore, Stop};
use mesh_base::octets::Octets;
use mesh_types::events::Event;
use seq_word::Numbers;

/// The machine of a node. The flash stays with the caller, and is passed to each call.
///
/// What it keeps of its node is boxed where a life is opened, so that whoever hands the machine on moves a pointer.
#[derive(Drop)]
pub struct MeshMachine {
    pub(crate) state: Box<MeshState>,
    // How often network PDUs were read before they were handled.
    pub(crate) reads: EarlyReads,
}

impl MeshMachine {
    /// By what it reads octets now: the network keys, the credentials of friendships, and the known IV Index.
    pub fn view(&self) -> KeyView
        ensures value { result ≡ view_now self.now }
    {
        let parts = &self.state.parts;
        parts.tables.key_view(parts.reserve.store.persist())
    }

    /// Has a reader take that view. `reader` of `Machine` is this call.
    pub fn renew_reader(&self, reader: &mut Reader)
        ensures view { reader.new ≡ Some (view_now self.now) }
    {
        let parts = &self.state.parts;
        parts
            .tables
            .renew_reader(parts.reserve.store.persist(), reader);
    }

    // Whether it reads by this view now.
    fn is_view(&self, view: &KeyView) -> bool
        ensures value { IsTrue result ↔ (view.now ≡ view_now self.now) }
    {
        let parts = &self.state.parts;
        parts.tables.is_view(parts.reserve.store.persist(), view)
    }

    /// What is known of octets that were read before, if any were: their reading, where it was by the view of now. It is counted.
    pub(crate) fn take_early<'a>(&mut self, early: &ReadBefore<'a, Reader, Reading>) -> Known<'a>
        ensures known { (octets : List ℕ)
            → IfSome (read_before early.now.reader.now early.now.reading.now) (λ e. (e.octets ≡ octets) × IsRead e)
            → IsKnown (view_now self.old) octets result }
        ensures reads { IsCounted (view_now self.old) (read_before early.now.reader.now early.now.reading.now)
            self.old.reads self.new.reads }
        ensures state { self.new.state.value ≡ self.old.state.value }
    {
        let Some(early) = early.reader.read(early.reading) else {
            return Known::Nothing;
        };
        if self.is_view(early.view) {
            self.reads.before = self.reads.before.saturating_add(1);
            Known::Read(early.reading)
        } else {
            self.reads.again = self.reads.again.saturating_add(1);
            Known::Nothing
        }
    }

    /// Handles an event of a bearer, which is the one with this number among its events, from 1 on, and of which octets may have been read before:
    /// `handle` of `Machine` is this call. What was read is used where it was by the view of now, and else octets are read again; both are
    /// counted. It asks that what was read, if anything was, are the octets of the event, and that they read so by the reader's view (`early`).
    /// The records of an event and what it accepts are steps of the world (`mesh_world`) from any world of the store before it to one of the
    /// store after it.
    pub fn handle_event<F: Flash>(
        &mut self,
        n: &Numbers,
        flash: &mut F,
        bearer: u8,
        number: u32,
        event: &Event,
        early: &ReadBefore<'_, Reader, Reading>,
    ) -> Result<Answered, Stop>
        requires made { (shown self.old).which ≡ n.now.which }
        requires event { IsEvent (shown self.old).elements event.now }
        requires early { IfSome (read_before early.now.reader.now early.now.reading.now)
            (λ e. (event.now ≡ E.Net e.octets) × IsRead e) }

        ensures ok { IfOk result
            (λ r. shown self.new
            ≡ with_entry (shown self.old) (entry_for (shown self.old) bearer number event.now r.answer r.jobs)
            (last_word (went_to (advances_of self.new))) (shown self.new).mark) }
        ensures place { IfOk result (λ r. r.at ≡ length (shown self.old).entries) }
        ensures risen { OnOk result
            (((advances_of self.new ≡ advances_of self.old) × ((shown self.new).mark ≡ (shown self.old).mark))
            ⊎ ((shown self.new).mark ≡ last_word (went_to (advances_of self.new)))) }
        ensures usable { OnOk result ((shown self.old).closed ≡ false) }
        ensures no_fault { OnOk result ((F.chip flash.new).faults ≡ (F.chip flash.old).faults) }
        ensures jobs { IfOk result (λ r. All (IsJob event.now) r.jobs) }
        ensures quiet { is_outside event.now ≡ false → IfOk result (λ r. All IsQuiet r.jobs) }
        ensures unread { (F.chip flash.new).reads ≡ (F.chip flash.old).reads }
        ensures once { FailsOnce (F.chip flash.old) (F.chip flash.new) }
        ensures steps { (w : World) → IsWorldOf w (persist_of self.old) (persist_of self.old).mark
            → IfOk result (λ r. HasStepped w (persist_of self.old) (persist_of self.new) event.now r.answer) }
        ensures refused { IfErr result
            (IsRefused F.chip (Hand.OfEvent event.now) (shown self.old) (shown self.new) flash.old flash.new) }
        ensures closed { (shown self.old).closed ≡ true → result ≡ Err Stop.Closed }
        ensures reads { IsCounted (view_now self.old) (read_before early.now.reader.now early.now.reading.now)
            self.old.reads self.new.reads }
        ensures kept { (first : FlashFound) (over : List StoreRecord) → Stands first (F.chip flash.old) over self.old
            → Stands first (F.chip flash.new) over self.new }
        ensures frame { Keeps (F.chip flash.old) (F.chip flash.new) }
    {
        let known = self.take_early(early);
        self.state
            .handle_event(n, flash, bearer, number, event, known)
    }

    /// Handles the network PDU of these octets, which was read before, as `handle` of `Machine` handles the event of these octets. The
    /// reading is used where it was by the view of now, and else they are read again; both are counted. It asks that what was read are these
    /// octets, and that they read so by the reader's view (`early`).
    pub fn handle_early<F: Flash>(
        &mut self,
        n: &Numbers,
        flash: &mut F,
        bearer: u8,
        number: u32,
        octets: &Octets<40>,
        early: &ReadBefore<'_, Reader, Reading>,
    ) -> Result<Answered, Stop>
        requires made { (shown self.old).which ≡ n.now.which }
        requires event { IsEvent (shown self.old).elements (E.Net octets.now) }
        requires early { IfSome (read_before early.now.reader.now early.now.reading.now)
            (λ e. (e.octets ≡ octets.now) × IsRead e) }

        ensures ok { IfOk result
            (λ r. shown self.new
            ≡ with_entry (shown self.old) (entry_for (shown self.old) bearer number (E.Net octets.now) r.answer r.jobs)
            (last_word (went_to (advances_of self.new))) (shown self.new).mark) }
        ensures place { IfOk result (λ r. r.at ≡ length (shown self.old).entries) }
        ensures risen { OnOk result
            (((advances_of self.new ≡ advances_of self.old) × ((shown self.new).mark ≡ (shown self.old).mark))
            ⊎ ((shown self.new).mark ≡ last_word (went_to (advances_of self.new)))) }
        ensures usable { OnOk result ((shown self.old).closed ≡ false) }
        ensures no_fault { OnOk result ((F.chip flash.new).faults ≡ (F.chip flash.old).faults) }
        ensures jobs { IfOk result (λ r. All (IsJob (E.Net octets.now)) r.jobs) }
        ensures unread { (F.chip flash.new).reads ≡ (F.chip flash.old).reads }
        ensures once { FailsOnce (F.chip flash.old) (F.chip flash.new) }
        ensures refused { IfErr result
            (IsRefused F.chip (Hand.OfEvent (E.Net octets.now)) (shown self.old) (shown self.new) flash.old flash.new) }
        ensures closed { (shown self.old).closed ≡ true → result ≡ Err Stop.Closed }
        ensures kept { (first : FlashFound) (over : List StoreRecord) → Stands first (F.chip flash.old) over self.old
            → Stands first (F.chip flash.new) over self.new }
        ensures reads { IsCounted (view_now self.old) (read_before early.now.reader.now early.now.reading.now)
            self.old.reads self.new.reads }
        ensures frame { Keeps (F.chip flash.old) (F.chip flash.new) }
    {
        let event = Event::Net(octets.copied());
        self.handle_event(n, flash, bearer, number, &event, early)
    }

    /// The number of network PDUs that were read before they were handled and then read again, since the view of before wasn't the one of then.
    /// At 2^64 - 1 it stays.
    pub fn read_again(&self) -> u64
        ensures value { result ≡ self.now.reads.again }
    {
        self.reads.again
    }

    /// The number of network PDUs that were read before they were handled, by the view of then. At 2^64 - 1 it stays.
    pub fn read_before(&self) -> u64
        ensures value { result ≡ self.now.reads.before }
    {
        self.reads.before
    }
}
