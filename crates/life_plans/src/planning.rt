//! The plan of one life.
#![tactic(auto)]

ghost use Rattle.std.specs.Prelude.{◌≡◌, ℕ, All, IfOk};
ghost use Rattle.life_plans.specs.Plans.{IsPlanFor, plan_of_lines};
ghost use Rattle.life_laws.specs.Plan.{steps_of};
ghost use Rattle.script_definitions.specs.Ranges.{IsLife};
ghost use Rattle.script_definitions.specs.declared.kind.Grammar.{Grammar};
ghost use Rattle.script_events.specs.Happenings.{IsRead};

use crate::draft::Draft;
use life_laws::plan::LifePlan;
use node_limits::BEARERS;
use script_definitions::line::ScriptLine;
use script_events::OutsideNode;
use std::alloc::{AllocError, Global};

/// The plan of the lines of one life, as a reader gives them, for eight bearers. `sync` ends a phase, and so does `arm`, which then has a
/// call torn; `peer`, `talk` and `beacon` are sealed, by one outside node for the life.
///
/// Of the clauses, `planned` speaks of a life of a script of either grammar with so many elements; `script_law` says that each life of a script
/// that was read is one, and that its lines are in the ranges that are asked for.
pub fn plan_of(alloc: Global, lines: &[ScriptLine]) -> Result<LifePlan, AllocError>
    requires ranges { All IsRead lines.now }
    ensures value { IfOk result (λ p. steps_of p.steps.items ≡ plan_of_lines lines.now) }
    ensures bearers { IfOk result (λ p. p.bearers ≡ BEARERS) }
    ensures planned { (grammar : Grammar) (elements : ℕ) → IsLife grammar elements lines.now
        → IfOk result (IsPlanFor elements) }
{
    let mut draft = Draft::new(alloc);
    let mut outside = OutsideNode::new();
    for line in lines {
        draft.add(alloc, &mut outside, lines, line)?;
    }
    draft.into_plan()
}
