//! Phases from lines as a source of phases.
#![tactic(auto)]

ghost use Rattle.live_lines.specs.Sources.{line_steps};

use crate::clock::ClockedSource;
use crate::line_phases::LinePhases;
use crate::lines::LineStop;
use mesh_base::outside::Sink;
use mesh_node::{PhaseSource, SourceFailed};
use mesh_types::events::Event;

impl<S: ClockedSource, E: Sink> PhaseSource for LinePhases<S, E> {
    ghost steps = { line_steps S.clocked S.left S.faults S.time E.held E.pieces E.faults };

    fn next(
        &mut self,
        bearers: u8,
        elements: u8,
        due: u32,
    ) -> Result<Option<Vec<Vec<Event>>>, SourceFailed> {
        if self.lines.why.is_some() {
            return Err(SourceFailed);
        }
        if bearers != self.lines.bearers || elements != self.lines.elements {
            self.lines.why = Some(LineStop::OtherNode);
            return Err(SourceFailed);
        }
        match self.next_phase(due) {
            Ok(phase) => Ok(phase),
            Err(why) => {
                self.lines.why = Some(why);
                Err(SourceFailed)
            }
        }
    }
}
