//! The phase of a line.
#![tactic(auto)]

ghost use Rattle.std.specs.Prelude.{◌≡◌, ℕ, [], ◌∷◌, ◌++◌, map, replicate, slice_index_or, slice_set, All, IfOk, OnOk};
ghost use Rattle.node_bearer.specs.Did.{AreEvents};
ghost use Rattle.script_definitions.specs.Ranges.{IsLine};
ghost use Rattle.script_definitions.specs.declared.kind.Grammar.TheVariants as G;
ghost use Rattle.script_events.specs.Happenings.{IsRead};
ghost use Rattle.live_lines.specs.Saying.{phase_of};

use mesh_types::events::Event;
use script_definitions::line::ScriptLine;
use script_events::{Happening, OutsideNode};
use std::alloc::{AllocError, Global};

/// No events of any of so many bearers.
fn no_events(alloc: Global, bearers: u8) -> Result<Vec<Vec<Event>>, AllocError>
    ensures value { IfOk result (λ lists. map (λ v. v.items) lists.items ≡ replicate bearers []) }
{
    let mut lists = Vec::with_capacity(alloc, usize::from(bearers))?;
    for _ in 0..bearers {
        lists.push(Vec::new(alloc))?;
    }
    Ok(lists)
}

/// Puts an event behind those of its bearer, where there is such a bearer.
fn push_event(lists: &mut Vec<Vec<Event>>, happening: Happening) -> Result<(), AllocError>
    ensures ok { OnOk result
        (let old = map (λ v. v.items) lists.old.items in
        map (λ v. v.items) lists.new.items
        ≡ slice_set old happening.bearer (slice_index_or old happening.bearer [] ++ happening.event ∷ [])) }
{
    let at = usize::from(happening.bearer);
    if at < lists.len() {
        let list = &mut lists[at];
        list.reserve_exact(1)?;
        list.push(happening.event)?;
    }
    Ok(())
}

/// The phase of a line of a bearer, for so many bearers: the one that it is of has its event. The outside node seals what the line makes heard.
/// A line for a node with so many elements gives events that it may have (`fits`).
pub fn phase_of(
    alloc: Global,
    bearers: u8,
    outside: &mut OutsideNode,
    line: &ScriptLine,
) -> Result<Vec<Vec<Event>>, AllocError>
    requires ranges { IsRead line.now }
    ensures value { IfOk result (λ lists. map (λ v. v.items) lists.items ≡ phase_of bearers line.now) }
    ensures fits { (elements : ℕ) → IsLine G.Node elements line.now
        → IfOk result (λ lists. All (λ v. AreEvents elements v.items) lists.items) }
{
    let mut lists = no_events(alloc, bearers)?;
    match outside.happening_of(line) {
        Some(happening) => {
            push_event(&mut lists, happening)?;
            Ok(lists)
        }
        None => Ok(lists),
    }
}
