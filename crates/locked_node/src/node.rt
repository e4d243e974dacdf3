//! The value behind the lock.
#![tactic(auto)]

ghost use Rattle.std.specs.Prelude.{◌≡◌, ◌≢◌, ℕ, ◌+◌, ◌<◌, ◌≤◌, ◌^◌, ◌⊎◌, List, [], ◌∷◌, ◌++◌, length, drop, All, true, false, None, Some, Ok, Err, IfOk, OnOk, IfErr, IsTrue, max, OnErr};
ghost use Rattle.flash_model.specs.Chip.{Chip, KeepsCount};
ghost use Rattle.record_types.specs.declared.records.StoreRecord.{StoreRecord};
ghost use Rattle.run_definitions.specs.Order.{is_outside};
ghost use Rattle.seq_word.specs.Seen.{IsAbove, IsFoundBy, last_word};
ghost use Rattle.seq_word.specs.Word.{seq_of};
ghost use Rattle.store_definitions.specs.Config.{config_of};
ghost use Rattle.store_definitions.specs.Recovered.{IsRecovered};
ghost use Rattle.turn_lock.specs.Entries.{IsPrefix};
ghost use Rattle.machine_contract.specs.Opening.{found_of};
ghost use Rattle.machine_contract.specs.Ranges.{IsEvent, IsJob, IsQuiet};
ghost use Rattle.machine_contract.specs.View.{entry_for};
ghost use Rattle.locked_node.specs.declared.marks.Mark.TheVariants as Marks;
ghost use Rattle.locked_node.specs.Asked.{WasAsked};
ghost use Rattle.locked_node.specs.Node.{IsStopped, IsStoppedBare, KnowsBehind, NodeView, OnStop, behind_last, node_marks, origin_of};
ghost use Rattle.locked_node.specs.Stands.{HasMachine, Holds, IsLater, IsNode};

use crate::known::Known;
use crate::marks::{Mark, Origin};
use crate::raised::Raised;
use flash_model::{Bench, Flash};
use machine_contract::{Answered, Machine, ReadBefore, Stop};
use mesh_types::events::Event;
use mesh_types::history::Entry;
use seq_word::{Drawer, Dry, Numbers, Watcher};
use std::alloc::{AllocError, Global};
use std::marker::Model;
use turn_lock::Logged;

/// The machine of a node, with its flash. What it holds whenever the lock is free is told by `known`.
///
/// Its entries are those of the machine's history, and behind them a mark for each bearer that stopped since the flash failed. So where a
/// bearer stopped, the history grows no more.
///
/// All of it is boxed, so that a turn at the lock moves a word.
#[derive(Drop)]
pub struct Node<M: Machine, F: Flash + Send + Drop> {
    pub(crate) held: Box<Held<M, F>>,
}

/// What a node has.
#[derive(Drop)]
pub(crate) struct Held<M: Machine, F: Flash + Send + Drop> {
    pub(crate) machine: M,
    // It looks at the counter behind each entry.
    pub(crate) watcher: Watcher,
    pub(crate) flash: F,
    start: Known<F>,
    stops: u32,
}

impl<M: Machine, F: Flash + Send + Drop> Model for Node<M, F> {
    ghost use Rattle.locked_node.specs.Node.{NodeView};
    ghost use Rattle.locked_node.specs.Stands.{Holds};

    ghost Value = { NodeView F };

    ghost view = { λ n. record {
      machine = M.view n.held.value.machine;
      counters = n.held.value.watcher.counters;
      start = n.held.value.start;
      flash = n.held.value.flash;
      stops = n.held.value.stops;
    } };

    ghost invariant = { λ n.
        Holds M.stands M.view F.chip n.held.value.machine n.held.value.watcher n.held.value.start n.held.value.flash
        n.held.value.stops };
}

impl<M: Machine, F: Flash + Send + Drop> Logged for Node<M, F> {
    type Entry = Mark;

    type Origin = Origin<F>;

    ghost entries = { λ n. node_marks n };

    ghost origin = { λ n. origin_of F.chip n };

    #[tactic(auto, using(crate::proofs::Counts::length_marks))]
    fn count(&self) -> u64 {
        self.held.machine.count() + u64::from(self.held.stops)
    }
}

impl<M: Machine, F: Flash + Send + Drop> Node<M, F> {
    /// A machine with its flash, which the life found as `start` says, before its first event. The watcher looks at the counter behind each event. For
    /// want of memory all are dropped.
    pub fn new(
        alloc: Global,
        machine: M,
        watcher: Watcher,
        flash: F,
        start: Known<F>,
    ) -> Result<Self, AllocError>
        requires stands { (over : List StoreRecord) × IsRecovered (F.chip start).now over
            × M.stands (found_of (F.chip start)) (F.chip flash) over machine }
        requires usable { (M.view machine).closed ≡ false }
        requires later { IsLater (F.chip start) (F.chip flash) }
        requires no_fault { (F.chip flash).faults ≡ (F.chip start).faults }
        requires entries { (M.view machine).entries ≡ [] }
        requires taken { (M.view machine).taken ≡ 0 }
        requires fills { (M.view machine).fills ≡ 0 }
        requires published { (over : List StoreRecord) → IsRecovered (F.chip start).now over
            → (M.view machine).mark ≡ (config_of over).mark }
        requires watcher { watcher ≡ record { which = (M.view machine).which; counters = [] } }
        ensures value { IfOk result
            (λ node. node
            ≡ record { machine = M.view machine; counters = []; start = start; flash = flash; stops = 0 }) }
    {
        let held = Held {
            machine,
            watcher,
            flash,
            start,
            stops: 0,
        };
        Ok(Node {
            held: Box::new(alloc, held)?,
        })
    }

    /// Renews a reader, which reads octets without the node as the machine does in this moment. That what was read by it before goes with an
    /// event is said no more.
    pub fn reader(&self, reader: &mut M::Reader) {
        self.held.machine.reader(reader);
    }

    /// Handles an event of a bearer, which may have been read before, and tells the bearer's seat where the counter was moved to so far, and where it
    /// is (`informed`): all that the seat drew before is below that (`above`). Where the flash failed, now or before, the bearer's mark is put.
    ///
    /// An event is refused for want of memory too where 2^32 - 1 bearers have stopped.
    pub fn handle(
        &mut self,
        n: &Numbers,
        drawer: &mut Drawer,
        bearer: u8,
        number: u32,
        event: &Event,
        early: &ReadBefore<'_, M::Reader, M::Reading>,
    ) -> Result<Answered, Stop>
        requires made { self.old.machine.which ≡ n.now.which }
        requires drawer_made { drawer.old.which ≡ n.now.which }
        requires event { IsEvent self.old.machine.elements event.now }
        requires early { M.fits early.now.reader.now early.now.reading.now event.now }
        ensures origin { origin_of F.chip self.new ≡ origin_of F.chip self.old }
        ensures front { IsPrefix (node_marks self.old) (node_marks self.new) }
        ensures ok { IfOk result
            (λ r. node_marks self.new
            ≡ node_marks self.old
            ++ Marks.Handled (entry_for self.old.machine bearer number event.now r.answer r.jobs)
            (behind_last self.new) ∷ []) }
        ensures informed { OnOk result (KnowsBehind drawer.new.informed (behind_last self.new)) }
        ensures more { IsPrefix drawer.old.informed drawer.new.informed }
        ensures drawer { drawer.new ≡ record drawer.old { informed = drawer.new.informed } }
        ensures place { IfOk result (λ r. r.at ≡ length (node_marks self.old)) }
        ensures since { IfOk result (λ r. self.old.machine.taken ≤ r.at) }
        // Where the counter was moved with this event, all that the seat had drawn, or noted, is below where it was moved to.
        ensures until { OnOk result
            ((last_word self.new.machine.moves ≡ last_word self.old.machine.moves)
            ⊎ IsAbove drawer.old (last_word self.new.machine.moves)) }
        // And it is below where the counter is behind it.
        ensures above { OnOk result (IsAbove drawer.old (last_word self.new.counters)) }
        ensures fills { OnOk result (self.new.machine.fills ≡ 0) }
        ensures jobs { IfOk result (λ r. All (IsJob event.now) r.jobs) }
        ensures quiet { is_outside event.now ≡ false → IfOk result (λ r. All IsQuiet r.jobs) }
        ensures stopped { IfErr result
            (λ e. OnStop e (IsStopped event.now (node_marks self.old) (node_marks self.new))) }
    {
        if self.held.stops == u32::MAX {
            return Err(Stop::Memory);
        }
        let held = &mut *self.held;
        // It does nothing when it runs: the proof uses what it says of the machine as it is before.
        M::tells::<F>();
        match held
            .machine
            .handle(n, &mut held.flash, bearer, number, event, early)
        {
            Ok(answered) => {
                n.watch(&mut held.watcher, drawer);
                held.machine.inform(n, drawer);
                Ok(answered)
            }
            Err(Stop::Memory) => Err(Stop::Memory),
            Err(Stop::Closed) => {
                self.held.stops += 1;
                Err(Stop::Closed)
            }
            Err(Stop::Flash) => {
                self.held.stops += 1;
                Err(Stop::Flash)
            }
        }
    }

    /// Stores a refill where the mark that a draw reached is still the one that was published last (`filled`); else one came between, and
    /// nothing changes (`nothing`). It answers the mark that is published then, another one. Where the flash failed, the bearer's mark is put.
    ///
    /// It takes what the draw answered: so for each time that a bearer reached the mark, one refill is stored at most, and none without a look
    /// at it; and the mark is at most 256 above the counter when the words are closed (`near` of `close` in `seq_word`). The bearer's seat owes a draw
    /// behind the mark once that is published (`owes`), else it stays as it is. It is asked for only where an entry has a job that draws which
    /// wasn't taken yet (`asked`): so a life stores none before that, as `known` tells, and none between what was taken and the next entry (`origin`).
    ///
    /// It is refused for want of memory only where 2^32 - 1 bearers have stopped.
    pub fn refill(&mut self, n: &Numbers, drawer: &mut Drawer, dry: Dry) -> Result<Raised, Stop>
        requires made { self.old.machine.which ≡ n.now.which }
        requires drawer_made { drawer.old.which ≡ n.now.which }
        requires found { IsFoundBy dry drawer.old }
        requires seq { seq_of dry.mark < 2 ^ 24 }
        requires asked { WasAsked self.old.machine.taken (node_marks self.old) }
        ensures filled { dry.mark ≡ self.old.machine.mark
            → OnOk result
            (self.new.machine
            ≡ record self.old.machine { fills = self.old.machine.fills + 1; mark = dry.mark + 256 }) }
        ensures owes { dry.mark ≡ self.old.machine.mark
            → OnOk result (drawer.new ≡ record drawer.old { owes = max drawer.old.owes (dry.next + 1) }) }
        ensures stays { dry.mark ≢ self.old.machine.mark → drawer.new ≡ drawer.old }
        ensures drawer { drawer.new ≡ record drawer.old { owes = drawer.new.owes } }
        ensures failed { OnErr result (drawer.new ≡ drawer.old) }
        ensures nothing { dry.mark ≢ self.old.machine.mark → self.old.machine.closed ≡ false
            → (result ≡ Ok (record { seen = dry.mark; mark = self.old.machine.mark })) × (self.new ≡ self.old) }
        ensures value { IfOk result (λ r. r ≡ record { seen = dry.mark; mark = self.new.machine.mark }) }
        ensures raised { IfOk result (λ r. r.mark ≢ r.seen) }
        ensures usable { OnOk result (self.old.machine.closed ≡ false) }
        ensures closed { self.old.machine.closed ≡ true → self.old.stops + 1 < 2 ^ 32
            → result ≡ Err Stop.Closed }
        ensures memory { self.old.stops + 1 < 2 ^ 32 → result ≢ Err Stop.Memory }
        ensures origin { origin_of F.chip self.new ≡ origin_of F.chip self.old }
        ensures front { IsPrefix (node_marks self.old) (node_marks self.new) }
        ensures ok { OnOk result (node_marks self.new ≡ node_marks self.old) }
        ensures stopped { IfErr result (λ e. OnStop e (IsStoppedBare (node_marks self.old) (node_marks self.new))) }
    {
        if self.held.stops == u32::MAX {
            return Err(Stop::Memory);
        }
        let seen = dry.mark();
        let held = &mut *self.held;
        match held.machine.refill(n, &mut held.flash, drawer, dry) {
            Ok(mark) => Ok(Raised { seen, mark }),
            Err(Stop::Memory) => Err(Stop::Memory),
            Err(Stop::Closed) => {
                self.held.stops += 1;
                Err(Stop::Closed)
            }
            Err(Stop::Flash) => {
                self.held.stops += 1;
                Err(Stop::Flash)
            }
        }
    }

    /// What holds of it. It does nothing.
    pub fn known(&self)
        ensures known { IsNode M.role M.image F.chip self.now }
        ensures stands { HasMachine M.stands M.view F.chip self.now }
        ensures few { length (node_marks self.now) < 2 ^ 64 }
    {
        let _ = &self.held;
        // It does nothing when it runs: the proof uses what it says.
        M::tells::<F>();
    }

    /// The entries since this was called last, or since the life began, in their order: the history keeps them, but in memory are only those
    /// that weren't taken. Nothing else changes. It takes no memory, and a node whose flash failed gives them too.
    pub fn take_entries(&mut self) -> Vec<Entry>
        ensures entries { result.items ≡ drop self.old.machine.taken self.old.machine.entries }
        ensures frame { self.new
            ≡ record self.old { machine = record self.old.machine { taken = length self.old.machine.entries } } }
    {
        self.held.machine.take_entries::<F>()
    }

    /// Whether the flash failed.
    pub fn is_closed(&self) -> bool
        ensures value { result ≡ self.now.machine.closed }
    {
        self.held.machine.is_closed()
    }

    /// The machine and the flash, over which it stands.
    pub fn into_parts(self) -> (M, F)
        ensures machine { M.view result.0 ≡ self.machine }
        ensures flash { result.1 ≡ self.flash }
        ensures stands { (over : List StoreRecord) × IsRecovered (F.chip self.start).now over
            × M.stands (found_of (F.chip self.start)) (F.chip result.1) over result.0 }
    {
        let Node { held } = self;
        let Held {
            machine,
            watcher: _,
            flash,
            start: _,
            stops: _,
        } = Box::into_inner(held);
        (machine, flash)
    }
}

impl<M: Machine, F: Bench> Node<M, F> {
    /// Tears a later call of the flash, by the one order that it takes in a life.
    pub fn arm(&mut self, calls: u32, mask: u8)
        requires none { (F.chip self.old.flash).setting.arm ≡ None }
        ensures arm { (F.chip self.new.flash).setting.arm
            ≡ Some (record { calls = calls; mask = mask; changes = (F.chip self.old.flash).changes }) }
        ensures saved { (F.chip self.new.flash).setting.saved ≡ (F.chip self.old.flash).setting.saved }
        ensures frame { self.new ≡ record self.old { flash = self.new.flash } }
    {
        self.held.flash.arm(calls, mask);
        // They do nothing when they run: the proof uses what they say.
        M::tells::<F>();
        M::stays::<F>();
    }
}
