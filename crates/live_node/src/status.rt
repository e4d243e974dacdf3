//! How a life ends.
#![tactic(auto)]

ghost use Rattle.std.specs.Prelude.{◌≡◌, Some};
ghost use Rattle.live_node.specs.Status.{line_status, status_text, stop_status};

use live_lines::LineStop;
use report_writer::WriteStop;
use std::fmt;
use std::fmt::{Display, Formatter};

/// How the life of a node ended.
#[derive(Clone, Copy, Debug, PartialEq, Eq)]
pub enum Status {
    /// The source came to its end, and the whole report was written.
    Done,
    /// The source failed.
    ReadFault,
    /// The sink of the report failed.
    WriteFault,
    /// There was no memory; or in 2^64 - 1 moves the source gave no event.
    Memory,
    /// The flash failed as the life was opened.
    FlashFault,
    /// The flash failed in the life.
    Cut,
    /// The sink failed that is told of lines which are wrong.
    ErrorsFault,
    /// There was a Node Reset: the node can't be run any more.
    WasReset,
}

impl Status {
    ghost use Rattle.live_node.specs.Status.{exit_number};

    /// The number that the program ends with. Those that `meshnode` has too are the same.
    pub fn number(&self) -> u8
        ensures value { result ≡ exit_number self.now }
    {
        match self {
            Status::Done => 0,
            Status::ReadFault => 4,
            Status::WriteFault => 5,
            Status::Memory => 6,
            Status::FlashFault => 9,
            Status::Cut => 12,
            Status::ErrorsFault => 13,
            Status::WasReset => 14,
        }
    }
}

/// The name in lower-case letters.
impl Display for Status {
    ghost output = { λ status. Some (status_text status) };

    fn fmt<W: fmt::Write>(&self, f: &mut Formatter<W>) -> fmt::Result {
        match self {
            Status::Done => f.write_str("done"),
            Status::ReadFault => f.write_str("readfault"),
            Status::WriteFault => f.write_str("writefault"),
            Status::Memory => f.write_str("memory"),
            Status::FlashFault => f.write_str("flashfault"),
            Status::Cut => f.write_str("cut"),
            Status::ErrorsFault => f.write_str("errorsfault"),
            Status::WasReset => f.write_str("wasreset"),
        }
    }
}

/// The status of a life whose report was broken off so.
pub(crate) fn stop_status(stop: WriteStop) -> Status
    ensures value { result ≡ stop_status stop }
{
    match stop {
        WriteStop::Fault => Status::WriteFault,
        WriteStop::Memory => Status::Memory,
    }
}

/// The status of a life whose lines were broken off so.
pub(crate) fn line_status(stop: LineStop) -> Status
    ensures value { result ≡ line_status stop }
{
    match stop {
        LineStop::Source => Status::ReadFault,
        LineStop::Errors => Status::ErrorsFault,
        LineStop::Memory | LineStop::Endless | LineStop::OtherNode => Status::Memory,
    }
}

/// The streams of a node.
#[derive(Drop)]
pub struct Streams<S, E, K> {
    /// Where the lines come from.
    pub source: S,
    /// Where it is told what is wrong with a line.
    pub errors: E,
    /// Where the report goes.
    pub sink: K,
}

/// How a life ended, and what it leaves.
#[derive(Drop)]
pub struct Ended<F, S, E, K> {
    /// How it ended.
    pub status: Status,
    /// Whether the flash failed in the life. Then it was cut, whatever ended it first.
    pub closed: bool,
    /// The flash, which may be lost for want of memory alone.
    pub flash: Option<F>,
    /// The streams.
    pub streams: Streams<S, E, K>,
}
