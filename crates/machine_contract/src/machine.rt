//! The machine of a node.
#![tactic(auto)]

ghost use Rattle.std.specs.Prelude.{◌≡◌, ◌≢◌, ℕ, ◌+◌, ◌<◌, ◌≤◌, ◌^◌, List, [], ◌∷◌, ◌++◌, length, drop, All, true, false, Ok, Err, IsErr, IfOk, OnOk, IfErr, ◌-◌, ◌⊎◌, max, OnErr};
ghost use Rattle.flash_model.specs.Arming.{FailsOnce};
ghost use Rattle.flash_model.specs.Chip.{Chip, IsFresh, Keeps};
ghost use Rattle.mesh_types.specs.declared.events.Event.{Event as AnEvent};
ghost use Rattle.mesh_types.specs.declared.events.Event.TheVariants as E;
ghost use Rattle.record_types.specs.declared.records.StoreRecord.{StoreRecord};
ghost use Rattle.event_definitions.specs.History.{Past};
ghost use Rattle.event_definitions.specs.Role.{Role};
ghost use Rattle.run_definitions.specs.Order.{is_outside};
ghost use Rattle.seq_word.specs.Seen.{IsAbove, IsFoundBy, last_word, went_to};
ghost use Rattle.seq_word.specs.Word.{seq_of};
ghost use Rattle.machine_contract.specs.Idle.{IsDueIn, IsIdleFor, IsQuietTick};
ghost use Rattle.machine_contract.specs.Moved.{HasMoved};
ghost use Rattle.machine_contract.specs.Opening.{FlashFound, IsNodeFlash, IsUnwritten, MigratesOnly};
ghost use Rattle.machine_contract.specs.Ranges.{IsEvent, IsJob, IsQuiet};
ghost use Rattle.machine_contract.specs.Refused.{IsRefused, IsStartCause, WasReset};
ghost use Rattle.machine_contract.specs.Standing.{IsLifeSoFar, IsSameFlash};
ghost use Rattle.machine_contract.specs.Started.{IsStarted};
ghost use Rattle.machine_contract.specs.View.{MachineView, entry_for, with_entry};

use crate::answers::{Answered, Hand, Stop};
use crate::early::{EarlyReads, ReadBefore};
use crate::history::History;
use crate::opening::{StartFault, Started};
use flash_model::Flash;
use mesh_base::octets::Octets;
use mesh_types::events::Event;
use mesh_types::history::Entry;
use seq_word::{Drawer, Dry, Keeper, Numbers};
use std::alloc::Global;

/// What handles the events of a node, one after another, over its flash. The flash stays with the caller and is passed to each call: it is
/// to be the one that the machine was started from, and nothing else is to change it.
///
/// `stands` ties a machine to its flash, as it was when the life found it and as it is, and to the records that its life opened over. `start`
/// gives it, each call keeps it whatever the call answers, and `tells` says what it means in terms of what the machine shows, its `view`.
///
/// A network PDU can be read before the machine handles it, without the machine: by a reader, which was renewed from the machine earlier, into a
/// reading. `handle` is then lent both, and its clauses are the same whatever was read: so no clause says that anything is read before.
pub trait Machine: Send + Drop {
    /// By what a machine reads octets heard as a network PDU, apart from the machine.
    type Reader: Send + Drop;

    /// What was read before an event is handled, if anything was: small beside a reader, so that one reader can have many.
    type Reading: Send + Drop;

    // What kind of node it is.
    ghost role: { Role };

    // What `start` asks of each image of a flash: it recovers a node or a reset.
    ghost image: { List ℕ → Type 0 };

    // After a past, of how many ticks an event is quiet: it stores nothing and has no jobs, as `tells` says, and whatever else the machine waits
    // for isn't due by it.
    ghost quiet: { Past → ℕ → Type 0 };

    ghost view: { Self → MachineView };

    // Of each advance of its keeper, the word that it found in the counter and the one that it moved the counter to.
    ghost advances: { Self → List (ℕ × ℕ) };

    ghost stands: { FlashFound → Chip → List StoreRecord → Self → Type 0 };

    // A reader and a reading may be lent to `handle` with this event: nothing was read, or the octets of this event, by the reader as it is.
    ghost fits: { Self.Reader → Self.Reading → AnEvent → Type 0 };

    /// Opens a life over what the flash recovers. The flash went through a power cycle, since when its count of faults didn't fall, and each
    /// image of it recovers a node or a reset.
    ///
    /// The counter opens at the mark that the records say. Nothing is written but where a flash of format 01 is migrated: the content of another
    /// one stays, and it counts no program or erase call (`writes`). A node that was reset isn't migrated, also where the flash fails (`reset`). It
    /// makes at most the read calls of a mount, and calls the flash no more once it has failed (`writes`).
    fn start<F: Flash>(alloc: Global, flash: &mut F) -> Result<Started<Self>, StartFault>
        requires fresh { IsFresh (F.chip flash.old) }
        requires node { IsNodeFlash image (F.chip flash.old) }
        requires began { (F.chip flash.old).setting.faults ≤ (F.chip flash.old).faults }
        ensures ok { IfOk result (IsStarted view stands (F.chip flash.old) (F.chip flash.new)) }
        ensures cause { IfErr result (IsStartCause image (F.chip flash.old) (F.chip flash.new)) }
        ensures writes { MigratesOnly (F.chip flash.old) (F.chip flash.new) }
        ensures reset { WasReset (F.chip flash.old) → IsUnwritten (F.chip flash.old) (F.chip flash.new) }
        ensures frame { Keeps (F.chip flash.old) (F.chip flash.new) };

    /// A reader that was renewed from no machine yet. It takes no memory.
    fn new_reader() -> Self::Reader;

    /// A reading that has read nothing. It takes no memory.
    fn new_reading() -> Self::Reading
        ensures fits { (reader : Self.Reader) (event : AnEvent) → fits reader result event };

    /// Renews a reader: from now on it reads as the machine does in this moment. That what was read by it before goes with an event is said no
    /// more. It takes no memory.
    fn reader(&self, reader: &mut Self::Reader);

    /// Has a reading forget what was read. It goes with each event then, whatever the reader.
    fn unread(reading: &mut Self::Reading)
        ensures fits { (reader : Self.Reader) (event : AnEvent) → fits reader reading.new event };

    /// Reads octets that were heard as a network PDU, as the machine did when the reader was renewed last, and has the reading keep what they read
    /// as. Reader and reading go with the event of these octets then (`fits`), and what else was read by the reader goes with what it went with
    /// (`kept`).
    fn early(reader: &mut Self::Reader, reading: &mut Self::Reading, bytes: &Octets<40>)
        ensures fits { fits reader.new reading.new (E.Net bytes.now) }
        ensures kept { (other : Self.Reading) (event : AnEvent) → fits reader.old other event
            → fits reader.new other event };

    /// Handles an event of a bearer, which is the one with this number among its events, from 1 on. What was read before is used where the machine
    /// would read the same now; else it reads again. It reads nothing of the flash, whatever it answers (`unread`),
    /// and calls it no more once it has failed (`once`).
    fn handle<F: Flash>(
        &mut self,
        n: &Numbers,
        flash: &mut F,
        bearer: u8,
        number: u32,
        event: &Event,
        early: &ReadBefore<'_, Self::Reader, Self::Reading>,
    ) -> Result<Answered, Stop>
        requires made { (view self.old).which ≡ n.now.which }
        requires event { IsEvent (view self.old).elements event.now }
        requires early { fits early.now.reader.now early.now.reading.now event.now }

        ensures ok { IfOk result
            (λ r. view self.new
            ≡ with_entry (view self.old) (entry_for (view self.old) bearer number event.now r.answer r.jobs)
            (last_word (went_to (advances self.new))) (view self.new).mark) }
        ensures place { IfOk result (λ r. r.at ≡ length (view self.old).entries) }
        ensures usable { OnOk result ((view self.old).closed ≡ false) }
        ensures no_fault { OnOk result ((F.chip flash.new).faults ≡ (F.chip flash.old).faults) }
        ensures jobs { IfOk result (λ r. All (IsJob event.now) r.jobs) }
        // After the lines of what isn't from outside nothing is handled.
        ensures quiet { is_outside event.now ≡ false → IfOk result (λ r. All IsQuiet r.jobs) }
        // The counter wasn't moved, and the mark stays; or the mark is the word that it was moved to last.
        ensures risen { OnOk result
            (((advances self.new ≡ advances self.old) × ((view self.new).mark ≡ (view self.old).mark))
            ⊎ ((view self.new).mark ≡ last_word (went_to (advances self.new)))) }
        // It makes no read call on the flash, whatever it answers.
        ensures unread { (F.chip flash.new).reads ≡ (F.chip flash.old).reads }
        // Once a call of the flash has failed, it makes none.
        ensures once { FailsOnce (F.chip flash.old) (F.chip flash.new) }

        ensures refused { IfErr result
            (IsRefused F.chip (Hand.OfEvent event.now) (view self.old) (view self.new) flash.old flash.new) }
        ensures closed { (view self.old).closed ≡ true → result ≡ Err Stop.Closed }

        ensures kept { (first : FlashFound) (over : List StoreRecord) → stands first (F.chip flash.old) over self.old
            → stands first (F.chip flash.new) over self.new }
        ensures frame { Keeps (F.chip flash.old) (F.chip flash.new) };

    /// Tells a seat that draws where the machine has moved the counter to so far. What it draws from now on isn't below that (`above` of `try_draw` in
    /// `seq_word`), and the mark that the machine published last is above what it has drawn, and not below where it was told that the counter is
    /// (`below`). The machine stays as it is, and it takes no memory.
    fn inform(&mut self, n: &Numbers, d: &mut Drawer)
        requires made { (view self.old).which ≡ n.now.which }
        requires drawer_made { d.old.which ≡ n.now.which }
        ensures same { self.new ≡ self.old }
        ensures informed { d.new ≡ record d.old { informed = d.old.informed ++ went_to (advances self.old) } }
        ensures below { IsAbove d.old (view self.old).mark };

    /// Stores a refill, and publishes its mark, 256 higher, where the mark that a draw reached is the one published last (`filled`); else a
    /// refill came between, and nothing changes (`nothing`). Returns the mark that is published then. It takes no memory, and reads nothing of the
    /// flash, whatever it answers (`unread`), nor calls it once it has failed (`once`).
    ///
    /// It takes what the draw answered, since a mark is published with that alone: so there is no refill without a draw that found the counter
    /// at the mark, and the mark is at most 256 above the counter when the words are closed (`near` of `close` in `seq_word`). The seat that drew
    /// owes another draw once the mark is published (`owes`), else it stays as it is: so where none owes one, the mark is less than 256 above
    /// (`paid` of `close`).
    fn refill<F: Flash>(
        &mut self,
        n: &Numbers,
        flash: &mut F,
        d: &mut Drawer,
        dry: Dry,
    ) -> Result<u64, Stop>
        requires made { (view self.old).which ≡ n.now.which }
        requires drawer_made { d.old.which ≡ n.now.which }
        requires found { IsFoundBy dry d.old }
        requires seq { seq_of dry.mark < 2 ^ 24 }

        ensures filled { dry.mark ≡ (view self.old).mark
            → OnOk result
            (view self.new
            ≡ record (view self.old) { fills = (view self.old).fills + 1; mark = dry.mark + 256 }) }
        ensures owes { dry.mark ≡ (view self.old).mark
            → OnOk result (d.new ≡ record d.old { owes = max d.old.owes (dry.next + 1) }) }
        ensures stays { dry.mark ≢ (view self.old).mark → d.new ≡ d.old }
        ensures failed { OnErr result (d.new ≡ d.old) }
        ensures nothing { dry.mark ≢ (view self.old).mark → (view self.old).closed ≡ false
            → (result ≡ Ok (view self.old).mark) × (view self.new ≡ view self.old) × (flash.new ≡ flash.old) }
        ensures value { IfOk result (λ mark. mark ≡ (view self.new).mark) }
        ensures ok { OnOk result
            (view self.new ≡ record (view self.old) { fills = (view self.new).fills; mark = (view self.new).mark }) }
        ensures usable { OnOk result ((view self.old).closed ≡ false) }
        ensures no_fault { OnOk result ((F.chip flash.new).faults ≡ (F.chip flash.old).faults) }

        ensures refused { IfErr result
            (IsRefused F.chip Hand.OfRefill (view self.old) (view self.new) flash.old flash.new) }
        ensures closed { (view self.old).closed ≡ true → result ≡ Err Stop.Closed }
        ensures memory { result ≢ Err Stop.Memory }
        // It makes no read call on the flash, whatever it answers.
        ensures unread { (F.chip flash.new).reads ≡ (F.chip flash.old).reads }
        // Once a call of the flash has failed, it makes none.
        ensures once { FailsOnce (F.chip flash.old) (F.chip flash.new) }

        ensures kept { (first : FlashFound) (over : List StoreRecord) → stands first (F.chip flash.old) over self.old
            → stands first (F.chip flash.new) over self.new }
        ensures frame { Keeps (F.chip flash.old) (F.chip flash.new) };

    /// The entries since this was called last, or since the life began, in their order. The history keeps them, but the machine doesn't: it
    /// keeps in memory only those that weren't taken. It takes no memory, and a closed machine gives them too. `F` is the type of the flash
    /// that it stands over, which isn't called.
    fn take_entries<F: Flash>(&mut self) -> Vec<Entry>
        ensures entries { result.items ≡ drop (view self.old).taken (view self.old).entries }
        ensures view { view self.new ≡ record (view self.old) { taken = length (view self.old).entries } }
        ensures kept { (first : FlashFound) (f : F) (over : List StoreRecord) → stands first (F.chip f) over self.old
            → stands first (F.chip f) over self.new };

    /// Whether an earlier call failed at the flash.
    fn is_closed(&self) -> bool
        ensures value { result ≡ (view self.now).closed };

    /// In how many ticks of 10 ms something is due, at most 2^32 - 1: an event of fewer ticks stores nothing and sends nothing. So a host that
    /// has nothing else to do can sleep so long: it misses nothing that the machine calls due, and doesn't wake earlier than it has to (`least`).
    /// Of a closed machine nothing is due any more. `F` is the type of the flash that it stands over, which isn't called.
    fn due<F: Flash>(&self) -> u32
        ensures idle { (view self.now).closed ≡ false → (first : FlashFound) (f : F) (over : List StoreRecord)
            → stands first (F.chip f) over self.now → IsIdleFor role over (view self.now) result }
        ensures least { (view self.now).closed ≡ false → (first : FlashFound) (f : F) (over : List StoreRecord)
            → stands first (F.chip f) over self.now → IsDueIn role quiet over (view self.now) result }
        ensures closed { (view self.now).closed ≡ true → result ≡ 2 ^ 32 - 1 };

    /// The number of entries so far, those that were taken among them.
    fn count(&self) -> u64
        ensures value { result ≡ length (view self.now).entries };

    /// The number of elements of the node, as the records say that its life opened over.
    fn elements(&self) -> u8
        ensures value { result ≡ (view self.now).elements };

    /// How many network PDUs that were read before they were handled were read again, and how many weren't, since the life began.
    fn early_reads(&self) -> EarlyReads;

    /// Ends the machine. The entries are those that weren't taken.
    fn finish(self) -> (History, Keeper)
        ensures entries { result.0.entries.items ≡ drop (view self).taken (view self).entries }
        ensures refills { result.0.refills ≡ (view self).fills }
        ensures keeper { (result.1.which ≡ (view self).which) × (result.1.mark ≡ (view self).mark) }
        ensures advances { result.1.advances ≡ advances self };

    /// What a machine that stands tells of its life, and what a quiet tick event is at least. It does nothing.
    fn tells<F: Flash>()
        ensures known { (first : FlashFound) (f : F) (over : List StoreRecord) (m : Self) → stands first (F.chip f) over m
            → IsLifeSoFar role image first (F.chip f) over (view m) }
        // A machine that isn't closed has moved the counter with each rise of the transmit IV Index, and at no other time.
        ensures moved { (first : FlashFound) (f : F) (over : List StoreRecord) (m : Self) → stands first (F.chip f) over m
            → (view m).closed ≡ false → HasMoved role over (view m).entries (view m).fills (advances m) }
        // And it tells behind its last entry where it moved the counter to last.
        ensures last { (first : FlashFound) (f : F) (over : List StoreRecord) (m : Self) → stands first (F.chip f) over m
            → (view m).closed ≡ false → last_word (went_to (advances m)) ≡ last_word (view m).moves }
        ensures quiet { (past : Past) (ticks : ℕ) → quiet past ticks → IsQuietTick role past ticks };

    /// A machine stands over the same flash, also where that was given an arm. It does nothing.
    fn stays<F: Flash>()
        ensures kept { (first : FlashFound) (f g : F) (over : List StoreRecord) (m : Self) → IsSameFlash (F.chip f) (F.chip g)
            → stands first (F.chip f) over m → stands first (F.chip g) over m };
}
