//! A life of one bearer that its owner holds between its phases: who links a node has no source and no sink, but calls.
#![tactic(auto)]

ghost use Rattle.std.specs.Prelude.{◌≡◌, ◌+◌, ◌<◌, ◌≤◌, ◌-◌, ◌^◌, List, [], ◌∷◌, ◌++◌, length, map, All, true, false, None, Some, IfErr, IfOk, IfSome, OnErr};
ghost use Rattle.file_flash.specs.Handed.{IsHandedOut};
ghost use Rattle.file_flash.specs.Noted.{AreFronts, AreOnChip, IsInside, octets_given, put_of, written};
ghost use Rattle.flash_model.specs.Chip.{IsFresh, Keeps};
ghost use Rattle.mesh_types.specs.declared.events.Event.{Event};
ghost use Rattle.machine_contract.specs.declared.opening.StartFault.TheVariants as faults;
ghost use Rattle.machine_contract.specs.Opening.{IsNodeFlash, IsUnwritten, MigratesOnly, found_of};
ghost use Rattle.machine_contract.specs.Refused.{IsStartCause, WasReset};
ghost use Rattle.machine_contract.specs.Started.{IsStarted};
ghost use Rattle.locked_node.specs.Stands.{IsDueNode, IsIdleNode};
ghost use Rattle.node_bearer.specs.Did.{AreEvents};
ghost use Rattle.mesh_node.specs.Due.{is_any};
ghost use Rattle.mesh_node.specs.Given.{Stood};
ghost use Rattle.mesh_node.specs.Held.{HasLived, given_phases, last_held, told_phases};
ghost use Rattle.mesh_node.specs.Lived.{FellShort, LivedOn};
ghost use Rattle.mesh_node.specs.Steps.{IsSameNode};
ghost use Rattle.mesh_node.specs.Told.{IsPartDone, IsPrintablePhase, PhaseDid, did_of};

use crate::alone::one_phase_alone;
use crate::edges::{Beginning, Going, Gone, LifeLeft, begin, end_life};
use crate::told::{LastStep, PhaseLog};
use file_flash::{Backing, NotedFlash, NotedPlace, Write};
use flash_model::Flash;
use locked_node::Known;
use machine_contract::{Machine, StartFault};
use mesh_types::events::Event;
use std::alloc::{AllocError, Global};
use std::marker::Model;

/// A life of one bearer that its owner holds between its phases. `HasLived` says which phases it was given, and what was told of each.
#[derive(Drop)]
pub struct HeldLife<M: Machine, F: Flash + Send + Drop> {
    going: Going<M, F>,
}

impl<M: Machine, F: Flash + Send + Drop> Model for HeldLife<M, F> {
    ghost use Rattle.std.specs.Prelude.{◌≡◌, length, false};
    ghost use Rattle.mesh_node.specs.Going.{IsBetween};
    ghost use Rattle.mesh_node.specs.Held.{HeldView};

    ghost Value = { HeldView F };

    ghost view = { λ h. record {
      node = h.going.node;
      numbers = h.going.seats.numbers;
      drawer = h.going.seats.drawer;
      counts = h.going.seats.counts.items;
    } };

    ghost invariant = { λ h. (h.going.node.machine.which ≡ h.going.seats.numbers.which)
        × (h.going.seats.drawer.which ≡ h.going.seats.numbers.which) × (h.going.seats.drawer.parts ≡ 1024)
        × (h.going.seats.drawer.owes ≡ 0)
        × (h.going.node.machine.elements ≡ h.going.elements) × (length h.going.seats.counts.items ≡ 1)
        × (h.going.node.machine.closed ≡ false → IsBetween h.going.seats h.going.node) };
}

/// A life behind one phase more.
#[derive(Drop)]
pub struct HeldPhase<M: Machine, F: Flash + Send + Drop> {
    /// The life. Where the flash failed in the phase, it is closed.
    pub life: HeldLife<M, F>,
    /// What the phase left: its owner was told of it.
    pub log: PhaseLog,
}

/// No life was opened.
#[derive(Drop)]
pub struct Unopened<F> {
    /// Why.
    pub fault: StartFault,
    /// The flash, but where memory ran out beside the machine.
    pub flash: Option<F>,
}

impl<F> Unopened<F> {
    /// Memory ran out beside the machine.
    fn lost() -> Self
        ensures value { result ≡ record { fault = faults.Memory; flash = None } }
    {
        Unopened {
            fault: StartFault::Memory,
            flash: None,
        }
    }
}

/// Why a life took no phase more: the flash failed, or its owner had none.
fn last_of(closed: bool) -> LastStep
    ensures value { result ≡ last_held closed }
{
    if closed {
        LastStep::Cut
    } else {
        LastStep::Ended
    }
}

impl<M: Machine, F: Flash + Send + Drop> HeldLife<M, F> {
    /// A life that was opened, before its first phase.
    ///
    /// # Errors
    ///
    /// `AllocError`: the machine was dropped with its flash.
    pub fn begin(alloc: Global, beginning: Beginning<M, F>) -> Result<Self, AllocError>
        requires started { IsStarted M.view M.stands (F.chip beginning.start) (F.chip beginning.flash) beginning.started }
        requires kept { Keeps (F.chip beginning.start) (F.chip beginning.flash) }
        requires alone { beginning.bearers ≡ 1 }
        ensures start { IfOk result (λ r. r.node.start ≡ beginning.start) }
        ensures flash { IfOk result (λ r. r.node.flash ≡ beginning.flash) }
        ensures usable { IfOk result (λ r. r.node.machine.closed ≡ false) }
        ensures begins { IfOk result (λ r. r.node.machine.entries ≡ []) }
        ensures held { IfOk result (λ r. HasLived M.role M.image F.chip r [] []) }
    {
        let going = begin(alloc, beginning)?;
        // It does nothing when it runs: the proof uses what it says.
        going.node.known();
        Ok(HeldLife { going })
    }

    /// A life over a flash from which one can be opened: it is started, and begins. That changes what a flash holds only where it
    /// migrates one of format 01, and it makes a program or erase call only then (`opened`, `unopened`); a node that was reset isn't
    /// migrated, also where the flash fails (`reset`).
    ///
    /// # Errors
    ///
    /// As [`Unopened`] tells. The flash recovers what it did (`cause`); it is given back but where memory ran out beside the machine (`lost`).
    pub fn open(alloc: Global, flash: F) -> Result<Self, Unopened<F>>
        requires fresh { IsFresh (F.chip flash) }
        requires node { IsNodeFlash M.image (F.chip flash) }
        requires began { (F.chip flash).setting.faults ≤ (F.chip flash).faults }
        ensures start { IfOk result (λ r. r.node.start ≡ flash) }
        ensures saved { IfOk result (λ r. (F.chip r.node.flash).setting.saved ≡ (F.chip flash).setting.saved) }
        ensures called { IfOk result (λ r. (F.chip r.node.flash).setting.called ≡ (F.chip flash).setting.called) }
        ensures moment { IfOk result (λ r. (F.chip r.node.flash).setting.moment ≡ (F.chip flash).setting.moment) }
        ensures programmed { IfOk result
            (λ r. (F.chip r.node.flash).setting.programmed ≡ (F.chip flash).setting.programmed) }
        ensures usable { IfOk result (λ r. r.node.machine.closed ≡ false) }
        ensures begins { IfOk result (λ r. r.node.machine.entries ≡ []) }
        ensures held { IfOk result (λ r. HasLived M.role M.image F.chip r [] []) }
        ensures opened { IfOk result (λ r. MigratesOnly (F.chip flash) (F.chip r.node.flash)) }
        ensures cause { IfErr result
            (λ e. IfSome e.flash (λ f. IsStartCause M.image (F.chip flash) (F.chip f) e.fault)) }
        ensures unopened { IfErr result (λ e. IfSome e.flash (λ f. MigratesOnly (F.chip flash) (F.chip f))) }
        ensures reset { WasReset (F.chip flash)
            → IfErr result (λ e. IfSome e.flash (λ f. IsUnwritten (F.chip flash) (F.chip f))) }
        ensures kept { IfErr result (λ e. IfSome e.flash (λ f. Keeps (F.chip flash) (F.chip f))) }
        ensures lost { IfErr result (λ e. e.flash ≡ None → e.fault ≡ faults.Memory) }
    {
        let mut flash = flash;
        let Ok(start) = Known::of(alloc, &flash) else {
            return Err(Unopened::lost());
        };
        let started = match M::start(alloc, &mut flash) {
            Ok(started) => started,
            Err(fault) => {
                return Err(Unopened {
                    fault,
                    flash: Some(flash),
                });
            }
        };
        let beginning = Beginning {
            flash,
            start,
            started,
            bearers: 1,
        };
        match HeldLife::begin(alloc, beginning) {
            Ok(life) => Ok(life),
            Err(AllocError) => Err(Unopened::lost()),
        }
    }

    /// One phase: its bearer has these events. What the phase left is told once all of it is stored, and nothing of it is kept (`held`): at any
    /// moment between two phases what was told stands.
    ///
    /// # Errors
    ///
    /// `AllocError`: the node was dropped with its flash. What was told of the phases before is stored all the same (`short`).
    pub fn phase(self, alloc: Global, events: &[Event]) -> Result<HeldPhase<M, F>, AllocError>
        requires usable { self.node.machine.closed ≡ false }
        requires events { AreEvents self.node.machine.elements events.now }
        ensures frame { IfOk result (λ r. IsSameNode self.node r.life.node) }
        ensures numbers { IfOk result (λ r. r.life.numbers ≡ self.numbers) }
        ensures saved { IfOk result
            (λ r. (F.chip r.life.node.flash).setting.saved ≡ (F.chip self.node.flash).setting.saved) }
        ensures called { IfOk result
            (λ r. (F.chip r.life.node.flash).setting.called ≡ (F.chip self.node.flash).setting.called) }
        ensures programmed { IfOk result
            (λ r. (F.chip r.life.node.flash).setting.programmed ≡ (F.chip self.node.flash).setting.programmed) }
        ensures moment { IfOk result
            (λ r. (F.chip r.life.node.flash).setting.moment ≡ (F.chip self.node.flash).setting.moment) }
        ensures place { IfOk result (λ r. r.log.first ≡ length self.node.machine.entries) }
        ensures bearers { IfOk result (λ r. length r.log.sends.items ≡ 1) }
        ensures part { IfOk result (λ r. IsPartDone r.life.node.machine.closed (events.now ∷ []) (did_of r.log)) }
        ensures entries { IfOk result
            (λ r. r.life.node.machine.entries ≡ self.node.machine.entries ++ r.log.entries.items) }
        ensures room { (phases : List (List (List Event))) (did : List PhaseDid)
            → HasLived M.role M.image F.chip self phases did → IfOk result (λ r. IsPrintablePhase (did_of r.log)) }
        ensures held { (phases : List (List (List Event))) (did : List PhaseDid)
            → HasLived M.role M.image F.chip self phases did
            → IfOk result
            (λ r. HasLived M.role M.image F.chip r.life (phases ++ (events.now ∷ []) ∷ []) (did ++ did_of r.log ∷ [])) }
        ensures short { (phases : List (List (List Event))) (did : List PhaseDid)
            → HasLived M.role M.image F.chip self phases did
            → OnErr result
            (FellShort M.role is_any given_phases told_phases [] (phases ++ (events.now ∷ []) ∷ []) [] did 1
            (F.chip self.node.start)) }
    {
        let HeldLife { going } = self;
        let Going {
            node,
            mut seats,
            bearers,
            elements,
        } = going;
        let done = one_phase_alone(alloc, node, &mut seats, events)?;
        let going = Going {
            node: done.node,
            seats,
            bearers,
            elements,
        };
        Ok(HeldPhase {
            life: HeldLife { going },
            log: done.log,
        })
    }

    /// In how many ticks of 10 ms something is due, at most 2^32 - 1, as `Node::due` says it.
    pub fn due(&self) -> u32
        ensures idle { self.now.node.machine.closed ≡ false → IsIdleNode M.role F.chip self.now.node result }
        ensures least { self.now.node.machine.closed ≡ false → IsDueNode M.role M.quiet F.chip self.now.node result }
        ensures closed { self.now.node.machine.closed ≡ true → result ≡ 2 ^ 32 - 1 }
    {
        self.going.node.due()
    }

    /// The number of elements of the node.
    pub fn elements(&self) -> u8
        ensures value { result ≡ self.now.node.machine.elements }
    {
        self.going.elements
    }

    /// Whether the flash failed. Then the life takes no phase more.
    pub fn is_closed(&self) -> bool
        ensures value { result ≡ self.now.node.machine.closed }
    {
        self.going.node.is_closed()
    }

    /// Ends the life, and gives back what is left of it. It is cut where the flash failed in it, and only where it failed since its power was cycled;
    /// else its owner had no phase more.
    pub fn close(self) -> LifeLeft<F>
        ensures last { result.last ≡ last_held self.node.machine.closed }
        ensures flash { result.flash ≡ self.node.flash }
        ensures closed { result.closed ≡ self.node.machine.closed }
        ensures lived { (phases : List (List (List Event))) (did : List PhaseDid)
            → HasLived M.role M.image F.chip self phases did
            → LivedOn (Stood M.view (M.stands (found_of (F.chip self.node.start))) F.chip result.flash) M.role M.image is_any given_phases told_phases [] phases [] did 1
            (F.chip self.node.start) (F.chip result.flash) self.node.flash result.flash result.refills result.drawn
            result.closed result.last }
    {
        let HeldLife { going } = self;
        let Going {
            node,
            seats,
            bearers: _,
            elements: _,
        } = going;
        let last = last_of(node.is_closed());
        end_life(Gone { node, seats, last })
    }
}

impl<M: Machine> HeldLife<M, NotedFlash> {
    /// The writes of the flash since this was called last, or since it was made, as `Node::take_writes` says it: those that the flash noted, in
    /// that order (`noted`), at most so many as program and erase calls were counted since then, as long as that count isn't ffffffff (`few`). Those
    /// that are no erase have at most so many octets as program calls were given since then, with the same proviso (`lean`). Each
    /// gives its octets on a chip too (`on_chip`), and each front of them, with its last write torn or whole, is content that a power cut might
    /// have left since then (`fronts`). None waits any more then (`none`), and the life goes on as it was (`held`).
    ///
    /// Whoever takes them makes them durable, in their order, before anything leaves that a call of this life handed out.
    pub fn take_writes(&mut self) -> Vec<Write>
        ensures writes { written (map put_of result.items) (⟦<NotedFlash as Flash>⟧.chip self.old.node.flash).setting.saved
            ≡ (⟦<NotedFlash as Flash>⟧.chip self.old.node.flash).now }
        ensures inside { All IsInside result.items }
        ensures on_chip { AreOnChip (map put_of result.items) (⟦<NotedFlash as Flash>⟧.chip self.old.node.flash).setting.saved }
        ensures fronts { AreFronts (map put_of result.items) (⟦<NotedFlash as Flash>⟧.chip self.old.node.flash).setting.saved
            ((⟦<NotedFlash as Flash>⟧.chip self.old.node.flash).since (⟦<NotedFlash as Flash>⟧.chip self.old.node.flash).setting.moment) }
        ensures few { (⟦<NotedFlash as Flash>⟧.chip self.old.node.flash).changes < 4294967295
            → (⟦<NotedFlash as Flash>⟧.chip self.old.node.flash).setting.called + length result.items
            ≤ (⟦<NotedFlash as Flash>⟧.chip self.old.node.flash).changes }
        ensures lean { (⟦<NotedFlash as Flash>⟧.chip self.old.node.flash).octets < 4294967295
            → (⟦<NotedFlash as Flash>⟧.chip self.old.node.flash).setting.programmed + octets_given (map put_of result.items)
            ≤ (⟦<NotedFlash as Flash>⟧.chip self.old.node.flash).octets }
        ensures noted { Some (map put_of result.items) ≡ ⟦<NotedPlace as Backing>⟧.waiting self.old.node.flash.backing }
        ensures none { ⟦<NotedPlace as Backing>⟧.waiting self.new.node.flash.backing ≡ Some [] }
        ensures flash { IsHandedOut (⟦<NotedFlash as Flash>⟧.chip self.old.node.flash)
            (⟦<NotedFlash as Flash>⟧.chip self.new.node.flash) }
        ensures frame { self.new ≡ record self.old { node = record self.old.node { flash = self.new.node.flash } } }
        ensures held { (phases : List (List (List Event))) (did : List PhaseDid)
            → HasLived M.role M.image ⟦<NotedFlash as Flash>⟧.chip self.old phases did
            → HasLived M.role M.image ⟦<NotedFlash as Flash>⟧.chip self.new phases did }
    {
        let writes = self.going.node.take_writes();
        // It does nothing when it runs: the proof uses what it says.
        self.going.node.known();
        writes
    }
}
