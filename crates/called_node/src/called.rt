//! A node as calls.
#![tactic(auto)]

ghost use Rattle.std.specs.Prelude.{◌≡◌, ◌≢◌, ◌↔◌, ◌+◌, ◌≤◌, Bool, List, [], ◌∷◌, None, Some, false, length, true, map, All, IfOk, IfErr, IfSome, IsSomeAnd, MatchOption};
ghost use Rattle.std.specs.Option.{ForSome};
ghost use Rattle.file_flash.specs.Noted.{IsInside, Put, put_of};
ghost use Rattle.locked_node.specs.Stands.{IsDueNode, IsIdleNode};
ghost use Rattle.mesh_node.specs.Held.{HasLived};
ghost use Rattle.node_bearer.specs.Did.{AreEvents};
ghost use Rattle.called_node.specs.Called.{HasStory, IsBegun, IsCause, IsGiven, IsLineDone, IsOver, IsPhaseDone, IsTaken, IsUsable, NoneCounted, is_erase};
ghost use Rattle.called_node.specs.declared.called.Called.TheVariants as C;

use crate::phase::{PhaseLeft, do_phase};
use file_flash::{Backing, NotedFlash, NotedPlace, Write};
use flash_model::Flash;
use live_lines::phase::phase_of;
use live_lines::{Saying, line_says};
use machine_contract::Machine;
use mesh_node::HeldLife;
use mesh_types::events::Event;
use script_events::OutsideNode;
use script_reader::counted::Rule;
use std::alloc::{AllocError, Global};
use std::marker::Model;
use std::mem;

/// The bearers of a node that is linked.
const BEARERS: u8 = 1;

/// What a call of a line came to.
#[derive(Clone, Copy, Debug, PartialEq, Eq)]
pub enum Called {
    /// It happened: it was a phase of the life.
    Happened,
    /// The line says nothing: it is empty, or a comment.
    Nothing,
    /// The line is wrong, and fails by this rule first.
    Wrong(Rule),
    /// Something of the call before isn't taken yet. Nothing changed.
    Waiting,
    /// The life takes no line more: its flash failed before, or it was lost.
    Over,
    /// Memory ran out before anything happened. Nothing changed.
    Memory,
    /// Memory ran out within the phase: the life was dropped, and nothing of the phase is left, neither writes nor report. To the image that
    /// its caller has the phase is one that never came.
    Lost,
}

/// A node that is linked, with what its last phase left until it is taken. Its flash is a [`NotedFlash`].
#[derive(Drop)]
pub struct CalledNode<M: Machine, F: Flash + Send + Drop> {
    /// The life, as long as there was memory for it.
    life: Option<HeldLife<M, F>>,
    /// What seals the PDUs of lines `peer` and `talk`.
    outside: OutsideNode,
    /// The writes of the last phase, and how many of them were taken.
    writes: Vec<Write>,
    taken: usize,
    /// The text of the last phase, until it is taken.
    report: Vec<u8>,
    ghost story: { ForSome life (HasStory M.role M.image F.chip) },
    ghost counted: { ForSome life (NoneCounted F.chip) },
    ghost few: { taken ≤ length writes.items },
    ghost inside: { All IsInside writes.items },
}

impl<M: Machine, F: Flash + Send + Drop> Model for CalledNode<M, F> {
    ghost use Rattle.std.specs.Prelude.{drop, map};
    ghost use Rattle.file_flash.specs.Noted.{put_of};
    ghost use Rattle.called_node.specs.Called.{CalledView, is_erase};

    ghost Value = { CalledView F };

    ghost view = { λ n. record {
      life = n.life;
      writes = drop n.taken (map put_of n.writes.items);
      erases = drop n.taken (map is_erase n.writes.items);
      report = n.report.items;
    } };
}

/// The events of the one bearer.
fn only_list(lists: &[Vec<Event>]) -> &[Event]
    requires one { length lists.now ≡ 1 }
    ensures value { map (λ v. v.items) lists.now ≡ result.now ∷ [] }
{
    lists[0].as_slice()
}

/// Has a life do the phase of a line.
fn do_line<M: Machine>(
    alloc: Global,
    life: HeldLife<M, NotedFlash>,
    lists: &[Vec<Event>],
) -> Result<PhaseLeft<M>, AllocError>
    requires usable { life.node.machine.closed ≡ false }
    requires one { length lists.now ≡ 1 }
    requires events { All (λ v. AreEvents life.node.machine.elements v.items) lists.now }
    requires story { HasStory M.role M.image ⟦<NotedFlash as Flash>⟧.chip life }
    requires counted { NoneCounted ⟦<NotedFlash as Flash>⟧.chip life }
    ensures story { IfOk result (λ r. HasStory M.role M.image ⟦<NotedFlash as Flash>⟧.chip r.life) }
    ensures inside { IfOk result (λ r. All IsInside r.writes.items) }
    ensures done { IfOk result
        (λ r. IsPhaseDone M.role M.image ⟦<NotedFlash as Flash>⟧.chip (λ f. ⟦<NotedPlace as Backing>⟧.waiting f.backing)
        (map (λ v. v.items) lists.now) life r.life (map put_of r.writes.items) r.report.items) }
{
    do_phase(alloc, life, only_list(lists))
}

impl<M: Machine> CalledNode<M, NotedFlash> {
    /// A life with its first writes.
    fn begun(alloc: Global, life: HeldLife<M, NotedFlash>, writes: Vec<Write>) -> Self
        requires story { HasStory M.role M.image ⟦<NotedFlash as Flash>⟧.chip life }
        requires counted { NoneCounted ⟦<NotedFlash as Flash>⟧.chip life }
        requires inside { All IsInside writes.items }
        ensures value { result
            ≡ record {
              life = Some life;
              writes = map put_of writes.items;
              erases = map is_erase writes.items;
              report = [];
            } }
    {
        CalledNode {
            life: Some(life),
            outside: OutsideNode::new(),
            writes,
            taken: 0,
            report: Vec::new(alloc),
        }
    }

    /// The calls of a life at its beginning. What opening wrote is to be taken before the first line.
    pub fn new(alloc: Global, life: HeldLife<M, NotedFlash>) -> Self
        requires usable { life.node.machine.closed ≡ false }
        requires begins { HasLived M.role M.image ⟦<NotedFlash as Flash>⟧.chip life [] [] }
        ensures begun { IsBegun M.role M.image ⟦<NotedFlash as Flash>⟧.chip (λ f. ⟦<NotedPlace as Backing>⟧.waiting f.backing) life
            result }
    {
        let mut life = life;
        let writes = life.take_writes();
        CalledNode::begun(alloc, life, writes)
    }

    /// The next write that isn't taken yet: octets, one at least, for an offset of the image, within one sector of its 65,536 octets, or an erase of a
    /// sector. Whoever takes it makes it durable before the ones behind it, and all of them before the report leaves.
    pub fn next_write(&self) -> Option<&Write>
        ensures value { MatchOption result (self.now.writes ≡ [])
            (λ w. (rest : List Put) × (self.now.writes ≡ put_of w.now ∷ rest)) }
        ensures kind { IfSome result (λ w. (rest : List Bool) × (self.now.erases ≡ is_erase w.now ∷ rest)) }
        ensures inside { IfSome result (λ w. IsInside w.now) }
    {
        self.writes.get(self.taken)
    }

    /// Takes the next write, if there is one.
    pub fn pass_write(&mut self)
        ensures writes { (put : Put) (rest : List Put) → self.old.writes ≡ put ∷ rest → self.new.writes ≡ rest }
        ensures kinds { (erase : Bool) (rest : List Bool) → self.old.erases ≡ erase ∷ rest → self.new.erases ≡ rest }
        ensures none { self.old.writes ≡ [] → self.new.writes ≡ [] }
        ensures frame { self.new ≡ record self.old { writes = self.new.writes; erases = self.new.erases } }
    {
        if self.taken < self.writes.len() {
            self.taken += 1;
        }
    }

    /// The text of the last phase, that isn't taken yet: its lines as `meshnoded --hex` writes them. It leaves only once all writes are durable.
    pub fn report(&self) -> &[u8]
        ensures value { result.now ≡ self.now.report }
    {
        self.report.as_slice()
    }

    /// Takes the text.
    pub fn pass_report(&mut self)
        ensures value { self.new ≡ record self.old { report = [] } }
    {
        self.report.clear();
    }

    /// Whether something is left of the last phase.
    pub fn has_left(&self) -> bool
        ensures value { result ≡ false ↔ IsTaken self.now }
    {
        match self.next_write() {
            Some(_) => true,
            None => !self.report.is_empty(),
        }
    }

    /// Whether the life takes lines: it is there, and its flash didn't fail.
    pub fn is_usable(&self) -> bool
        ensures yes { result ≡ true → IsUsable self.now }
        ensures no { result ≡ false → IsOver self.now }
    {
        match &self.life {
            Some(life) => !life.is_closed(),
            None => false,
        }
    }

    /// The number of elements, where the life takes lines.
    fn usable_elements(&self) -> Option<u8>
        ensures value { MatchOption result (IsOver self.now)
            (λ n. IsSomeAnd self.now.life
            (λ life. (life.node.machine.closed ≡ false) × (n ≡ life.node.machine.elements))) }
    {
        match &self.life {
            Some(life) if !life.is_closed() => Some(life.elements()),
            _ => None,
        }
    }

    /// The phase of a line, where the life takes it. Else it says what the line came to.
    fn phase_of(&mut self, alloc: Global, text: &[u8]) -> Result<Vec<Vec<Event>>, Called>
        ensures given { IfOk result
            (λ lists. IsGiven text.now self.old (map (λ v. v.items) lists.items)) }
        ensures refused { IfErr result (λ called. (called ≢ C.Happened) × (called ≢ C.Lost)) }
        ensures cause { IfErr result (IsCause text.now self.old) }
        ensures frame { self.new ≡ self.old }
    {
        if self.has_left() {
            return Err(Called::Waiting);
        }
        let Some(elements) = self.usable_elements() else {
            return Err(Called::Over);
        };
        match line_says(alloc, BEARERS, elements, text) {
            Ok(Saying::Nothing) => Err(Called::Nothing),
            Ok(Saying::Wrong(rule)) => Err(Called::Wrong(rule)),
            Ok(Saying::Happens(line)) => {
                match phase_of(alloc, BEARERS, &mut self.outside, &line) {
                    Ok(lists) => Ok(lists),
                    Err(_) => Err(Called::Memory),
                }
            }
            Err(_) => Err(Called::Memory),
        }
    }

    /// Keeps what a phase left, until it is taken.
    fn keep(&mut self, left: PhaseLeft<M>)
        requires story { HasStory M.role M.image ⟦<NotedFlash as Flash>⟧.chip left.life }
        requires counted { NoneCounted ⟦<NotedFlash as Flash>⟧.chip left.life }
        requires inside { All IsInside left.writes.items }
        ensures value { self.new
            ≡ record {
              life = Some left.life;
              writes = map put_of left.writes.items;
              erases = map is_erase left.writes.items;
              report = left.report.items;
            } }
    {
        let PhaseLeft {
            life,
            writes,
            report,
        } = left;
        self.life = Some(life);
        self.taken = 0;
        self.writes = writes;
        self.report = report;
    }

    /// A line of what happens, without its LF: it is done as one phase, and what it left is to be taken before the next line.
    ///
    /// A line is one of a bearer as a script has it, with the bearer `b0`, whose word may be left out: rules 1, 3, 4 and 5 of `line_says` of
    /// `live_lines`.
    #[tactic(auto, using(crate::proofs::Lines::is_there))]
    pub fn line(&mut self, alloc: Global, text: &[u8]) -> Called
        ensures happened { result ≡ C.Happened
            → IsLineDone M.role M.image ⟦<NotedFlash as Flash>⟧.chip (λ f. ⟦<NotedPlace as Backing>⟧.waiting f.backing) text.now self.old
            self.new }
        ensures lost { result ≡ C.Lost → self.new ≡ record { life = None; writes = []; erases = []; report = [] } }
        ensures still { result ≢ C.Happened → result ≢ C.Lost → self.new ≡ self.old }
        ensures cause { IsCause text.now self.old result }
    {
        let lists = match self.phase_of(alloc, text) {
            Ok(lists) => lists,
            Err(called) => return called,
        };
        let Some(life) = mem::replace(&mut self.life, None) else {
            unreachable!()
        };
        match do_line(alloc, life, lists.as_slice()) {
            Ok(left) => {
                self.keep(left);
                Called::Happened
            }
            Err(_) => Called::Lost,
        }
    }

    /// In how many ticks of 10 ms something of the node is due; None where its life takes no line more.
    pub fn due(&self) -> Option<u32>
        ensures value { MatchOption result (IsOver self.now)
            (λ ticks. IsSomeAnd self.now.life
            (λ life. IsIdleNode M.role ⟦<NotedFlash as Flash>⟧.chip life.node ticks
            × IsDueNode M.role M.quiet ⟦<NotedFlash as Flash>⟧.chip life.node ticks)) }
        ensures usable { IfSome result (λ ticks. IsUsable self.now) }
    {
        match &self.life {
            Some(life) if !life.is_closed() => Some(life.due()),
            _ => None,
        }
    }
}
