//! How a run of a script ends.

use flash_model::{Flash, MemFlash};
use flaw_flash::FlawFlash;
use mesh_base::memory::{MemSink, SureSource};
use mesh_node::Gate;
use mesh_run::{Status, run};
use std::sync::Wait;
use std::thread::Threads;

/// How a run ended, by its status and its report.
#[derive(Drop)]
pub(super) enum End {
    /// An octet of the flash isn't ff, the one at 5; nothing was written.
    NotErased,
    /// The flash failed before the first life; nothing was written.
    Faulty,
    /// It failed as the first life was opened.
    Cut,
    /// The first life ended.
    Whole,
    /// In another way.
    Other,
}

/// What a status and a report tell.
fn told(status: Status, report: &[u8]) -> End {
    match status {
        Status::NotErased { at: 5 } => if_empty(report, End::NotErased),
        Status::FlashFault => if_empty(report, End::Faulty),
        Status::Done => lived(report),
        _ => End::Other,
    }
}

/// This, where nothing was written.
fn if_empty(report: &[u8], end: End) -> End {
    if report.is_empty() { end } else { End::Other }
}

/// What a report tells of its last life.
fn lived(report: &[u8]) -> End {
    if report.ends_with(b"\nend\n") {
        End::Whole
    } else if report == b"life 1 cut\ncut 0\n".as_slice() {
        End::Cut
    } else {
        End::Other
    }
}

/// How a run of the script at this gate ends, over a flash whose octet at 5 is this one, and whose read with this number fails; the first read
/// has the number 1.
pub(super) fn end_of<R: AllocGlobal + Threads + Wait + Sync, G: Gate>(
    rt: &R,
    script: &str,
    octet: u8,
    read: u32,
    gate: &G,
) -> End {
    let alloc = rt.alloc();
    let mut source = SureSource::new(script.as_bytes());
    let Ok(mut sink) = MemSink::new(alloc, &[]) else {
        return End::Other;
    };
    let Ok(mut flash) = MemFlash::new(alloc) else {
        return End::Other;
    };
    let _ = flash.program(5, &[octet]);
    let Ok(flash) = FlawFlash::new(alloc, flash, &[read]) else {
        return End::Other;
    };
    let ended = run(rt, alloc, &["run"], &mut source, &mut sink, flash, gate);
    told(ended.status, sink.octets())
}
