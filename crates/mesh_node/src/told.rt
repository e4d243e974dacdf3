//! Where the phases of a life come from, and who is told of each.
#![tactic(auto)]

ghost use Rattle.std.specs.Prelude.{◌≡◌, ◌++◌, [], length, map, replicate, All, None, false, IfErr, IfOk, IfSome, OnOk, OnErr};
ghost use Rattle.life_laws.specs.Phases.{both_of};
ghost use Rattle.node_bearer.specs.Did.{AreEvents};
ghost use Rattle.mesh_node.specs.Told.{GivesNone, IsLastTold, IsPrintablePhase, SinkSteps, SourceSteps, did_of};

use crate::log::{append_lines, no_lines, put_behind};
use mesh_types::events::Event;
use mesh_types::history::{Entry, Sent};
use std::alloc::{AllocError, Global};
use thiserror::Error;

/// What a phase leaves.
#[derive(Drop)]
pub struct PhaseLog {
    /// How many entries the life had before it.
    pub first: u32,
    /// Its entries, in the order in which the node handled them.
    pub entries: Vec<Entry>,
    /// What became of the jobs in it, bearer by bearer, in the order in which each did them. A line names its entry by its place among all
    /// entries of the life, from 0 on.
    pub sends: Vec<Vec<Sent>>,
}

impl PhaseLog {
    /// The log of a life of so many bearers before its first phase.
    pub fn none(alloc: Global, bearers: u8) -> Result<Self, AllocError>
        ensures entries { IfOk result (λ r. r.entries.items ≡ []) }
        ensures sends { IfOk result (λ r. map (λ v. v.items) r.sends.items ≡ replicate bearers []) }
    {
        let sends = no_lines(alloc, bearers)?;
        Ok(PhaseLog {
            first: 0,
            entries: Vec::new(alloc),
            sends,
        })
    }

    /// Puts what a phase left behind what phases before it left.
    pub fn add(&mut self, more: PhaseLog) -> Result<(), AllocError>
        requires bearers { length self.old.sends.items ≡ length more.sends.items }
        ensures entries { OnOk result (self.new.entries.items ≡ self.old.entries.items ++ more.entries.items) }
        ensures sends { OnOk result
            (map (λ v. v.items) self.new.sends.items
            ≡ both_of (map (λ v. v.items) self.old.sends.items) (map (λ v. v.items) more.sends.items)) }
    {
        let PhaseLog {
            first: _,
            entries,
            sends,
        } = more;
        put_behind(&mut self.entries, entries)?;
        append_lines(self.sends.as_mut_slice(), sends)
    }
}

/// Why a life took no phase more.
#[derive(Clone, Copy, Debug, PartialEq, Eq)]
pub enum LastStep {
    /// The source had none more.
    Ended,
    /// The source failed when it was asked for one.
    Unread,
    /// The flash failed in the last phase, of which the sink was told.
    Cut,
    /// The sink failed when it was told of the last phase.
    Untold,
}

/// A source gave no phase since it failed. What failed is told by the source itself.
#[derive(Clone, Copy, Debug, PartialEq, Eq, Error)]
#[error("the source of phases failed")]
pub struct SourceFailed;

/// A sink wasn't told of a phase, or not of all of it, since it failed. What failed is told by the sink itself.
#[derive(Clone, Copy, Debug, PartialEq, Eq, Error)]
#[error("the sink of phases failed")]
pub struct SinkFailed;

/// Where the phases of a life come from, one after another. The life asks for a phase once the one before it is through and told.
pub trait PhaseSource {
    // How it goes from one state to another. A source over octets says here what it read of them.
    ghost steps: { SourceSteps Self };

    /// The next phase: a list of events for each of so many bearers, of a node with so many elements; or None where there is none more. `due` is in
    /// how many ticks of 10 ms something of the node is due, behind the phases so far: a source that tells time needn't tell it before.
    fn next(
        &mut self,
        bearers: u8,
        elements: u8,
        due: u32,
    ) -> Result<Option<Vec<Vec<Event>>>, SourceFailed>
        ensures gives { IfOk result
            (λ r. IfSome r (λ lists. steps.gives bearers elements due self.old (map (λ v. v.items) lists.items) self.new)) }
        ensures long { IfOk result (λ r. IfSome r (λ lists. length lists.items ≡ bearers)) }
        ensures events { IfOk result
            (λ r. IfSome r (λ lists. All (λ v. AreEvents elements v.items) lists.items)) }
        ensures ends { IfOk result (λ r. r ≡ None → steps.ends self.old self.new) }
        ensures fails { OnErr result (steps.fails bearers elements due self.old self.new) };
}

/// Who is told of each phase of a life: at once when it is over, and so only once all of it is stored.
pub trait PhaseSink {
    // How it goes from one state to another. A sink of octets says here what it wrote of a phase.
    ghost steps: { SinkSteps Self };

    /// Takes what a phase left, for which a report has room.
    fn tell(&mut self, log: PhaseLog) -> Result<(), SinkFailed>
        requires room { IsPrintablePhase (did_of log) }
        ensures takes { OnOk result (steps.takes self.old (did_of log) self.new) }
        ensures fails { OnErr result (steps.fails self.old (did_of log) self.new) };
}

/// Asks a source for a phase, of a node of which something is due in so many ticks. An error says why there is none.
pub fn ask<S: PhaseSource>(
    source: &mut S,
    bearers: u8,
    elements: u8,
    due: u32,
) -> Result<Vec<Vec<Event>>, LastStep>
    ensures gives { IfOk result
        (λ lists. S.steps.gives bearers elements due source.old (map (λ v. v.items) lists.items) source.new) }
    ensures long { IfOk result (λ lists. length lists.items ≡ bearers) }
    ensures events { IfOk result (λ lists. All (λ v. AreEvents elements v.items) lists.items) }
    ensures none { IfErr result (λ last. GivesNone S.steps bearers elements due last source.old source.new) }
{
    match source.next(bearers, elements, due) {
        Ok(Some(lists)) => Ok(lists),
        Ok(None) => Err(LastStep::Ended),
        Err(_) => Err(LastStep::Unread),
    }
}

/// Has a sink told of a phase, in which the flash failed or not. Returns why the life takes no phase more, if that is so.
pub fn tell_phase<T: PhaseSink>(sink: &mut T, log: PhaseLog, closed: bool) -> Option<LastStep>
    requires room { IsPrintablePhase (did_of log) }
    ensures none { result ≡ None → (closed ≡ false) × T.steps.takes sink.old (did_of log) sink.new }
    ensures some { IfSome result (λ last. IsLastTold T.steps last closed sink.old (did_of log) sink.new) }
{
    match sink.tell(log) {
        Err(_) => Some(LastStep::Untold),
        Ok(()) => { if closed { Some(LastStep::Cut) } else { None } }
    }
}
