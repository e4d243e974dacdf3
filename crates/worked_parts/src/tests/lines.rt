//! Lines of a living node: the phases and what is told of wrong lines, in whatever pieces a source gives its octets, and where a stream fails.

use live_lines::{ClockedSource, LinePhases, LineStop};
use mesh_base::memory::{MemSink, MemSource};
use mesh_base::standard::StdSource;
use mesh_types::events::Event;
use std::alloc::Global;
use std::io::Read;

/// Lines of a node with one bearer: those that say nothing, events with the word of the bearer and without it, one wrong line by each rule, and
/// octets behind the last LF.
const TEXT: &[u8] =
    b"# a node\n\nb0 tick 5\r\nraw 0003 07 00\nb1 tick 1\nlife\nb0 tick\nb0 tick 0\n\x01x y\ntick 7\nb0 ti";

/// What is told of them.
const TOLD: &[u8] =
    b"line 5: rule 3: b1\nline 6: rule 3: life\nline 7: rule 4: b0\nline 8: rule 5: b0\nline 9: rule 1: x\nline 11: not ended\n";

/// The ticks of the one event of the one bearer; 0 where that is none.
fn ticks_of(lists: &[Vec<Event>]) -> Option<u32> {
    let [events] = lists else { return None };
    match events.as_slice() {
        [Event::Tick(ticks)] => Some(*ticks),
        [_] => Some(0),
        _ => None,
    }
}

/// The phases of the lines of a source, and what is told of wrong ones.
fn all_of<S: ClockedSource + Drop>(alloc: Global, source: S) -> Option<(Vec<u32>, Vec<u8>)> {
    let errors = MemSink::new(alloc, &[]).ok()?;
    let mut lines = LinePhases::new(alloc, source, errors, 1, 1).ok()?;
    let mut phases = Vec::new(alloc);
    for _ in 0..16 {
        match lines.next_phase(1).ok()? {
            Some(lists) => phases.push(ticks_of(lists.as_slice())?).ok()?,
            None => {
                let told = lines.lines.errors.octets().to_vec(alloc).ok()?;
                return Some((phases, told));
            }
        }
    }
    None
}

/// Whether a text gives these phases and is told so, where the source gives its first octets at one call and the others at the next.
fn is_so(alloc: Global, text: &[u8], cut: usize, phases: &[u32], told: &[u8]) -> bool {
    let (front, back) = text.split_at(cut.min(text.len()));
    match all_of(alloc, StdSource::new(front.chain(back))) {
        Some(all) => all.0.as_slice() == phases && all.1.as_slice() == told,
        None => false,
    }
}

/// A line of so many octets, between two ticks.
fn long_line(alloc: Global, octets: usize) -> Option<Vec<u8>> {
    let mut text = b"tick 1\n".to_vec(alloc).ok()?;
    for _ in 0..octets {
        text.push(b'#').ok()?;
    }
    text.extend_from_slice(b"\ntick 2\n").ok()?;
    Some(text)
}

/// Why no phase came, where these calls of the source and of the sink fail.
fn stop_of(alloc: Global, source: &[u32], sink: &[u32]) -> Option<LineStop> {
    let errors = MemSink::new(alloc, sink).ok()?;
    let source = MemSource::new(b"life\n", source);
    let mut lines = LinePhases::new(alloc, source, errors, 1, 1).ok()?;
    lines.next_phase(1).err()
}

#[test]
fn phases_are_the_same_in_any_pieces(rt: HostRuntime) {
    for cut in 0..TEXT.len() {
        assert!(rt; is_so(rt.alloc(), TEXT, cut, &[5, 0, 7], TOLD));
    }
}

#[test]
fn a_long_line_is_wrong(rt: HostRuntime) {
    for (octets, told) in [
        (1200, b"".as_slice()),
        (
            1201,
            b"line 2: rule 1: ########################################\n",
        ),
        (
            9000,
            b"line 2: rule 1: ########################################\n",
        ),
    ] {
        let text = long_line(rt.alloc(), octets).expect(&rt, "there is memory");
        assert!(rt; is_so(rt.alloc(), text.as_slice(), 100, &[1, 2], told));
    }
}

#[test]
fn a_stream_that_fails_is_the_cause(rt: HostRuntime) {
    assert!(rt; stop_of(rt.alloc(), &[1], &[]) == Some(LineStop::Source));
    assert!(rt; stop_of(rt.alloc(), &[], &[1]) == Some(LineStop::Errors));
    assert!(rt; stop_of(rt.alloc(), &[], &[]).is_none());
}
