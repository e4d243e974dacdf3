//! Runs whose source or sink fails at one call, at each in turn.

use flash_model::MemFlash;
use mesh_base::memory::{MemSink, MemSource};
use mesh_node::FreeGate;
use mesh_run::{Status, run};
use std::sync::Wait;
use std::thread::Threads;

/// A node of two lives, the first of which is cut.
const SCRIPT: &str =
    "provision 1201 1 12345678 00 000 7dd7364cd842ad18c17c2b820c84c3d6 9d6dd0e96eb25dc19a40ed9914f8f03f
life
b0 raw fffd 00 034b50057e400000010000
arm 0 ff
b0 tick 360000
life
b0 raw fffd 00 034b50057e400000010000
";

/// The status of a run whose read and whose write with these numbers fail, and the sink; the first call has the number 1.
fn run_with<R: AllocGlobal + Threads + Wait + Sync>(
    rt: &R,
    read: u32,
    write: u32,
) -> Option<(Status, MemSink)> {
    let alloc = rt.alloc();
    let failing = [read];
    let mut source = MemSource::new(SCRIPT.as_bytes(), &failing);
    let mut sink = MemSink::new(alloc, &[write]).ok()?;
    let flash = MemFlash::new(alloc).ok()?;
    let ended = run(
        rt,
        alloc,
        &["run"],
        &mut source,
        &mut sink,
        flash,
        &FreeGate,
    );
    Some((ended.status, sink))
}

/// How many reads there are, where the failure of each is told, and nothing is written then.
fn reads<R: AllocGlobal + Threads + Wait + Sync>(rt: &R) -> Option<u32> {
    for number in 1..1_000u32 {
        let (status, sink) = run_with(rt, number, 0)?;
        match status {
            Status::ReadFault if sink.octets().is_empty() => {}
            Status::Done => return Some(number - 1),
            _ => return None,
        }
    }
    None
}

/// How many writes there are, where the failure of each is told, and what was written then is a front of the whole report, and not all of it.
fn writes<R: AllocGlobal + Threads + Wait + Sync>(rt: &R) -> Option<u32> {
    let (_, whole) = run_with(rt, 0, 0)?;
    for number in 1..1_000u32 {
        let (status, sink) = run_with(rt, 0, number)?;
        let same = sink.octets() == whole.octets();
        match status {
            Status::WriteFault if whole.octets().starts_with(sink.octets()) && !same => {}
            Status::Done if same => return Some(number - 1),
            _ => return None,
        }
    }
    None
}

#[test]
fn a_source_that_fails_at_each_read(rt: HostRuntime) {
    let reads = reads(&rt).expect(&rt, "each failure is told");
    assert!(rt; reads > 1);
}

#[test]
fn a_sink_that_fails_at_each_write(rt: HostRuntime) {
    let writes = writes(&rt).expect(&rt, "each failure is told");
    assert!(rt; writes > 1);
}
