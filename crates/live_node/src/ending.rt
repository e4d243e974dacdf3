//! The end of a life.
#![tactic(auto)]

ghost use Rattle.std.specs.Prelude.{◌≡◌};
ghost use Rattle.mesh_base.specs.Outside.{Rose};
ghost use Rattle.report_writer.specs.Writing.{view_of};
ghost use Rattle.live_node.specs.Ending.{IsEndTold, status_behind};
ghost use Rattle.mesh_node.specs.declared.told.LastStep.TheVariants as steps;

use crate::status::{Status, line_status, stop_status};
use live_lines::LineStop;
use live_report::LiveReport;
use mesh_base::outside::Sink;
use mesh_node::LastStep;
use mesh_types::report::{End, Opened};
use report_writer::{WriteStop, write_end};
use std::alloc::Global;

/// Writes the last line of a life whose source came to its end.
fn tell_end<K: Sink>(alloc: Global, sink: &mut K, opened: Opened) -> Status
    ensures told { IsEndTold opened result (view_of K.held K.pieces sink.old) (K.faults sink.old)
        (view_of K.held K.pieces sink.new) (K.faults sink.new) }
{
    match write_end(alloc, sink, opened, End::Ended) {
        Ok(()) => Status::Done,
        Err(stop) => stop_status(stop),
    }
}

/// Why a life was given up whose source had perhaps more: the flash failed, or the source of lines or the report did, which tells why.
fn given_up(last: LastStep, why: Option<LineStop>, stopped: Option<WriteStop>) -> Status
    ensures value { result ≡ status_behind last why stopped }
{
    match last {
        LastStep::Ended => Status::Done,
        LastStep::Cut => Status::Cut,
        LastStep::Unread => match why {
            Some(why) => line_status(why),
            None => Status::Memory,
        },
        LastStep::Untold => match stopped {
            Some(stop) => stop_status(stop),
            None => Status::Memory,
        },
    }
}

/// How a life ended whose last step was this: where its source came to its end, its last line is written. Its lines and its report tell why else.
pub(crate) fn end_status<K: Sink + Drop>(
    alloc: Global,
    report: &mut LiveReport<K>,
    opened: Opened,
    last: LastStep,
    why: Option<LineStop>,
) -> Status
    ensures told { last ≡ steps.Ended
        → IsEndTold opened result (view_of K.held K.pieces report.old.sink) (K.faults report.old.sink)
        (view_of K.held K.pieces report.new.sink) (K.faults report.new.sink) }
    ensures given_up { (last ≡ steps.Ended → ⊥)
        → (result ≡ status_behind last why report.old.stopped) × (report.new.sink ≡ report.old.sink) }
{
    if last == LastStep::Ended {
        tell_end(alloc, &mut report.sink, opened)
    } else {
        given_up(last, why, report.stopped)
    }
}
