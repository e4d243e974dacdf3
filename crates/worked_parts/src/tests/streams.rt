//! What no clause says: that calls which may lack memory succeed, and that sources and sinks serve as their callers need them.

use mesh_base::memory::{MemSink, MemSource, SureSink, SureSource};
use mesh_base::outside::{Failed, Sink, Source};
use mesh_base::standard::{StdSink, StdSource};
use std::io::{self, Read, Write};

#[test]
fn memory_fails_at_the_listed_calls(rt: HostRuntime) {
    let mut source = MemSource::new(&[1, 2, 3, 4, 5], &[2, 4]);
    let mut buf = [0; 2];
    for want in [Ok(2), Err(Failed), Ok(2), Err(Failed), Ok(1), Ok(0), Ok(0)] {
        assert!(rt; source.read(&mut buf) == want);
    }
    assert!(rt; buf.as_slice() == [5, 4].as_slice());

    let mut sink = MemSink::new(rt.alloc(), &[1, 3]).expect(&rt, "there is memory");
    for want in [Err(Failed), Ok(2), Err(Failed), Ok(2)] {
        assert!(rt; sink.write(&[7, 8]) == want);
        assert!(rt; !sink.lacked_memory());
    }
    assert!(rt; sink.octets() == [7, 8, 7, 8].as_slice());
}

#[test]
fn sure_memory_takes_all(rt: HostRuntime) {
    let mut source = SureSource::new(&[1, 2, 3]);
    let mut buf = [0; 2];
    for want in [Ok(2), Ok(1), Ok(0)] {
        assert!(rt; source.read(&mut buf) == want);
    }

    let mut sink = SureSink::new(rt.alloc(), 3).expect(&rt, "there is memory");
    assert!(rt; sink.write(&[1, 2]) == Ok(2));
    assert!(rt; sink.write(&[3]) == Ok(1));
    assert!(rt; sink.octets() == Some([1, 2, 3].as_slice()));
    assert!(rt; sink.write(&[4]) == Ok(1));
    assert!(rt; sink.octets().is_none());
}

/// A reader that fails at its first call, and gives the octet 7 at each later one.
#[derive(Drop)]
struct FailsFirst {
    calls: u32,
}

impl Read for FailsFirst {
    fn read(&mut self, buf: &mut [u8]) -> io::Result<usize> {
        self.calls = self.calls.saturating_add(1);
        if self.calls == 1 || buf.is_empty() {
            return Err(io::ErrorKind::Other.into());
        }
        buf[0] = 7;
        Ok(1)
    }
}

/// A writer that fails at its first call, takes nothing at its second, and one octet of a piece at each later one.
#[derive(Drop)]
struct TakesLate {
    calls: u32,
}

impl Write for TakesLate {
    fn write(&mut self, buf: &[u8]) -> io::Result<usize> {
        self.calls = self.calls.saturating_add(1);
        match self.calls {
            1 => Err(io::ErrorKind::Other.into()),
            2 => Ok(0),
            _ => Ok(buf.len().min(1)),
        }
    }

    fn flush(&mut self) -> io::Result<()> {
        Ok(())
    }
}

#[test]
fn std_is_passed_on(rt: HostRuntime) {
    let mut source = StdSource::new([1, 2, 3].as_slice());
    let mut buf = [0; 2];
    for want in [Ok(2), Ok(1), Ok(0)] {
        assert!(rt; source.read(&mut buf) == want);
    }
    assert!(rt; source.faults == 0);

    let mut sink = StdSink::new(Vec::new(rt.alloc()));
    assert!(rt; sink.write(&[1, 2]) == Ok(2));
    assert!(rt; sink.inner.as_slice() == [1, 2].as_slice());
    assert!(rt; sink.faults == 0);
}

#[test]
fn std_errors_are_told_once(rt: HostRuntime) {
    let mut source = StdSource::new(FailsFirst { calls: 0 });
    let mut buf = [0; 2];
    for (want, faults) in [(Err(Failed), 1), (Ok(1), 1), (Ok(1), 1)] {
        assert!(rt; source.read(&mut buf) == want);
        assert!(rt; source.faults == faults);
    }
    assert!(rt; buf.as_slice() == [7, 0].as_slice());

    let mut sink = StdSink::new(TakesLate { calls: 0 });
    for (want, faults) in [(Err(Failed), 1), (Err(Failed), 2), (Ok(1), 2), (Ok(1), 2)] {
        assert!(rt; sink.write(&[8, 9]) == want);
        assert!(rt; sink.faults == faults);
    }
    // A piece of no octets is taken whole.
    assert!(rt; sink.write(&[]) == Ok(0));
    assert!(rt; sink.faults == 2);
}
