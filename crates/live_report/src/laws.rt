//! Laws of what was written of a life. Each is the contract of a function that does nothing.
#![tactic(auto)]

ghost use Rattle.std.specs.Prelude.{List};
ghost use Rattle.live_report.specs.Laws.{AllIsWritten, EndBehindIsFront, EndIsFront, LastIsFront, OpeningIsFront, PhasesAloneAreFront, PhasesAreFront};
ghost use Rattle.live_report.specs.Lines.{phases_lines};
ghost use Rattle.live_report.specs.Steps.{FailsAtLast, Wrote, WroteTo};
ghost use Rattle.live_report.specs.declared.report.LiveReport.{LiveReport};
ghost use Rattle.mesh_node.specs.Told.{BySteps, FailedAtLast, HasTaken, PhaseDid};
ghost use Rattle.mesh_node.specs.declared.told.LastStep.{LastStep};

use crate::report::LiveReport;
use mesh_base::outside::Sink;
use mesh_node::PhaseSink;

/// What a report wrote of a life that went on: where it took what each phase did, the lines of all of them, one phase behind another (`taken`);
/// for each cause that such a life ends for, all of them or a front (`told`); and where it failed, the lines of all phases but the last one, and a
/// front of those of that (`last`).
pub fn told_law<K: Sink>()
    ensures taken { (old new : LiveReport K) (did : List PhaseDid)
        → BySteps ⟦<LiveReport<K> as PhaseSink>⟧.steps.takes old did new
        → Wrote K.held K.pieces K.faults (phases_lines old.hex did) old new }
    ensures told { (last : LastStep) (old new : LiveReport K) (did : List PhaseDid)
        → HasTaken ⟦<LiveReport<K> as PhaseSink>⟧.steps last old did new
        → WroteTo K.held K.pieces K.faults last (phases_lines old.hex did) old new }
    ensures last { (old new : LiveReport K) (did : List PhaseDid)
        → FailedAtLast ⟦<LiveReport<K> as PhaseSink>⟧.steps old did new
        → FailsAtLast K.held K.pieces K.faults old did new }
{}

/// What stands in a sink of a life that was told: all its lines behind its opening, its phases and its end (`whole`); a front of them, wherever
/// it was broken off: in the opening (`opening`), in the phases (`phases`), in the last of them (`last`), in front of the end (`open_end`) or in it
/// (`end`, `end_behind`).
pub fn life_law()
    ensures whole { AllIsWritten }
    ensures opening { OpeningIsFront }
    ensures phases { PhasesAreFront }
    ensures last { LastIsFront }
    ensures open_end { PhasesAloneAreFront }
    ensures end { EndIsFront }
    ensures end_behind { EndBehindIsFront }
{}
