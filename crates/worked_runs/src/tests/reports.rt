//! The report of a living node.

ghost use Rattle.std.specs.Prelude.{IfOk};
ghost use Rattle.mesh_node.specs.Told.{IsPrintablePhase, did_of};

use live_report::LiveReport;
use mesh_base::memory::MemSink;
use mesh_node::{PhaseLog, PhaseSink};
use mesh_types::answers::Answer;
use mesh_types::events::Event;
use mesh_types::history::{Entry, Sent};
use mesh_types::jobs::JobDraft;
use mesh_types::lines::Outcome;
use mesh_types::told::{Told, ToldEvent};
use report_writer::WriteStop;
use std::alloc::{AllocError, Global};

/// A phase behind three entries: time passed, and a bearer had no number left.
fn phase(alloc: Global) -> Result<PhaseLog, AllocError>
    ensures room { IfOk result (λ r. IsPrintablePhase (did_of r)) }
{
    let mut entries = Vec::new(alloc);
    entries.push(Entry {
        bearer: 1,
        number: 2,
        event: ToldEvent::of(&Event::Tick(5)),
        fills: 0,
        answer: Answer::Ticked { now: 7 },
        jobs: Told::of(&JobDraft::new(alloc)?.finish()),
    })?;
    let mut lines = Vec::new(alloc);
    lines.push(Sent {
        entry: 2,
        job: 0,
        outcome: Outcome::Spent { iv: 0x1234_5678 },
    })?;
    let mut sends = Vec::new(alloc);
    sends.push(lines)?;
    Ok(PhaseLog {
        first: 3,
        entries,
        sends,
    })
}

/// Whether the report of that phase comes to this text, over a sink whose calls with these numbers fail; and whether it stopped for a fault then.
fn is_told(alloc: Global, failing: &[u32], text: &[u8], stopped: bool) -> Result<bool, AllocError> {
    let sink = MemSink::new(alloc, failing)?;
    let mut report = LiveReport::new(alloc, true, sink);
    let told = report.tell(phase(alloc)?).is_ok();
    Ok(
        report.sink.octets() == text
            && told != stopped
            && (report.stopped == Some(WriteStop::Fault)) == stopped,
    )
}

#[test]
fn a_phase(rt: HostRuntime) {
    let text = b"e 4 b1 2 tick ticked 7\ns b0 3.1 spent 12345678\n";
    assert!(rt; is_told(rt.alloc(), &[], text, false) == Ok(true));
}

#[test]
fn a_phase_that_breaks_off(rt: HostRuntime) {
    assert!(rt; is_told(rt.alloc(), &[2], b"e 4 b1 2 tick ticked 7\n", true) == Ok(true));
}
