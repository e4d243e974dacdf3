//! The plan of the lines so far.
#![tactic(auto)]

ghost use Rattle.std.specs.Prelude.{◌≡◌, ◌<◌, [], ◌∷◌, ◌++◌, length, map, replicate, IfOk, IfSome, OnOk};
ghost use Rattle.life_plans.specs.Drafts.{begun, ended, with_event, with_happening, with_line};
ghost use Rattle.life_laws.specs.Plan.{steps_of};
ghost use Rattle.run_definitions.specs.Order.{arm};
ghost use Rattle.script_events.specs.Happenings.{IsRead, said};
ghost use Rattle.std.specs.Option.{option_map};

use crate::rooms::lines_of;
use life_laws::plan::{LifePlan, PlanStep};
use mesh_types::events::Event;
use node_limits::BEARERS;
use script_definitions::line::{ArmLine, ScriptLine};
use script_events::{Happening, OutsideNode};
use std::alloc::{AllocError, Global};
use std::marker::Model;

/// The plan of the lines so far.
#[derive(Drop)]
pub(crate) struct Draft {
    /// The steps that ended.
    steps: Vec<PlanStep>,
    /// The events of the phase that goes on, bearer by bearer, where it has lines.
    events: Option<Vec<Vec<Event>>>,
    /// How many lines it is of.
    seen: usize,
}

impl Model for Draft {
    ghost use Rattle.std.specs.Prelude.{◌≡◌, length, map, IfSome};
    ghost use Rattle.std.specs.Option.{option_map};
    ghost use Rattle.life_plans.specs.Drafts.{Drafted};
    ghost use Rattle.life_laws.specs.Plan.{steps_of};
    ghost use Rattle.node_limits.specs.declared.TheConstants.{BEARERS};

    ghost Value = { Drafted };

    ghost view = { λ d. record {
      steps = steps_of d.steps.items;
      events = option_map (λ events. map (λ v. v.items) events.items) d.events;
    } };

    ghost invariant = { λ d. IfSome d.events (λ events. length events.items ≡ BEARERS) };
}

/// No events of any bearer, and memory for those that a phase has which begins with these lines.
fn no_events(alloc: Global, lines: &[ScriptLine]) -> Result<Vec<Vec<Event>>, AllocError>
    ensures value { IfOk result (λ events. map (λ v. v.items) events.items ≡ replicate BEARERS []) }
{
    let mut events = Vec::new(alloc);
    for bearer in 0..BEARERS as u8 {
        events.push(Vec::with_capacity(alloc, lines_of(lines, bearer))?)?;
    }
    Ok(events)
}

/// The events so far of a phase that goes on, bearer by bearer. Where it begins, it does so with these lines.
fn begun(
    alloc: Global,
    events: Option<Vec<Vec<Event>>>,
    lines: &[ScriptLine],
) -> Result<Vec<Vec<Event>>, AllocError>
    ensures value { IfOk result
        (λ now. map (λ v. v.items) now.items ≡ begun (option_map (λ events. map (λ v. v.items) events.items) events)) }
{
    match events {
        Some(events) => Ok(events),
        None => no_events(alloc, lines),
    }
}

/// Puts an event behind those of its bearer.
fn push_event(events: &mut Vec<Vec<Event>>, happening: Happening) -> Result<(), AllocError>
    requires bearer { happening.bearer < length events.old.items }
    ensures ok { OnOk result
        (map (λ v. v.items) events.new.items
        ≡ with_event (map (λ v. v.items) events.old.items) happening.bearer happening.event) }
{
    events[usize::from(happening.bearer)].push(happening.event)?;
    Ok(())
}

/// Puts what happens, if anything does, behind the events of its bearer.
fn push_happening(
    events: &mut Vec<Vec<Event>>,
    happening: Option<Happening>,
) -> Result<(), AllocError>
    requires bearer { IfSome happening (λ h. h.bearer < length events.old.items) }
    ensures ok { OnOk result
        (map (λ v. v.items) events.new.items
        ≡ with_happening (map (λ v. v.items) events.old.items) (option_map said happening)) }
{
    match happening {
        Some(happening) => push_event(events, happening),
        None => Ok(()),
    }
}

impl Draft {
    /// The plan of no lines.
    pub(crate) fn new(alloc: Global) -> Draft
        ensures value { result ≡ record { steps = []; events = None } }
    {
        Draft {
            steps: Vec::new(alloc),
            events: None,
            seen: 0,
        }
    }

    /// Ends the phase, if it has lines.
    fn end_phase(&mut self) -> Result<(), AllocError>
        ensures ok { OnOk result (self.new ≡ record { steps = ended self.old; events = None }) }
    {
        if let Some(events) = self.events.take() {
            self.steps.push(PlanStep::Phase(events))?;
        }
        Ok(())
    }

    /// Ends the phase, and has a call torn.
    fn arm(&mut self, line: ArmLine) -> Result<(), AllocError>
        ensures ok { OnOk result
            (self.new ≡ record { steps = ended self.old ++ arm line.calls line.mask ∷ []; events = None }) }
    {
        self.end_phase()?;
        self.steps.push(PlanStep::Arm {
            calls: line.calls,
            mask: line.mask,
        })?;
        Ok(())
    }

    /// Goes on with the phase by what happens, if anything does, which is what these lines begin with.
    fn go_on(
        &mut self,
        alloc: Global,
        lines: &[ScriptLine],
        happening: Option<Happening>,
    ) -> Result<(), AllocError>
        requires bearer { IfSome happening (λ h. h.bearer < BEARERS) }
        ensures ok { OnOk result
            (self.new
            ≡ record {
              steps = self.old.steps;
              events = Some (with_happening (begun self.old.events) (option_map said happening));
            }) }
    {
        let mut events = begun(alloc, self.events.take(), lines)?;
        push_happening(&mut events, happening)?;
        self.events = Some(events);
        Ok(())
    }

    /// Goes on by a line, which is the next one of a life with these lines; the outside node seals what it makes heard.
    pub(crate) fn add(
        &mut self,
        alloc: Global,
        outside: &mut OutsideNode,
        lines: &[ScriptLine],
        line: &ScriptLine,
    ) -> Result<(), AllocError>
        requires ranges { IsRead line.now }
        ensures ok { OnOk result (self.new ≡ with_line self.old line.now) }
    {
        let (_, left) = lines.split_at(self.seen.min(lines.len()));
        self.seen = self.seen.saturating_add(1);
        match line {
            ScriptLine::Sync => self.end_phase(),
            ScriptLine::Arm(line) => self.arm(*line),
            line => self.go_on(alloc, left, outside.happening_of(line)),
        }
    }

    /// The plan of all lines, of which there are no more.
    pub(crate) fn into_plan(mut self) -> Result<LifePlan, AllocError>
        ensures steps { IfOk result (λ p. steps_of p.steps.items ≡ ended self) }
        ensures bearers { IfOk result (λ p. p.bearers ≡ BEARERS) }
    {
        self.end_phase()?;
        let Draft { steps, .. } = self;
        Ok(LifePlan {
            bearers: BEARERS as u8,
            steps,
        })
    }
}
