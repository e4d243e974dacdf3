//! How a run ends.
#![tactic(auto)]

ghost use Rattle.std.specs.Prelude.{◌≡◌, Some};
ghost use Rattle.run_steps.specs.Status.{status_text};

use std::fmt;
use std::fmt::{Display, Formatter};

/// How a run ended.
#[derive(Clone, Copy, Debug, PartialEq, Eq)]
pub enum Status {
    /// The whole report was written.
    Done,
    /// The words aren't a command.
    Usage,
    /// The octets read aren't a script.
    Script {
        /// The first failing line, from 1 on.
        line: u32,
        /// The rule by which it fails first, 1 to 7.
        rule: u8,
    },
    /// The source failed.
    ReadFault,
    /// The sink failed; what was written is a front of the report.
    WriteFault,
    /// There was no memory; what was written is a front of the report.
    Memory,
    /// The source gave more than 4,194,304 octets.
    TooLong,
    /// The flash wasn't erased.
    NotErased {
        /// The first octet that isn't ff.
        at: u32,
    },
    /// The flash failed before the first life.
    FlashFault,
    /// The octets read aren't what an audit reads: keys, and then lines of a report.
    Report {
        /// The first line that isn't of the form, from 1 on.
        line: u32,
    },
}

/// How a run ended, and the flash, which is lost for want of memory alone.
#[derive(Drop)]
pub struct Ended<B> {
    /// How it ended.
    pub status: Status,
    /// The flash.
    pub flash: Option<B>,
}

impl<B> Ended<B> {
    /// It ended so, and this is the flash.
    pub fn with_flash(status: Status, flash: B) -> Ended<B>
        ensures value { result ≡ record { status = status; flash = Some flash } }
    {
        Ended {
            status,
            flash: Some(flash),
        }
    }
}

impl Status {
    ghost use Rattle.run_steps.specs.Status.{exit_number};

    /// The number that the program ends with.
    pub fn number(&self) -> u8
        ensures value { result ≡ exit_number self.now }
    {
        match self {
            Status::Done => 0,
            Status::Usage => 2,
            Status::Script { .. } => 3,
            Status::ReadFault => 4,
            Status::WriteFault => 5,
            Status::Memory => 6,
            Status::TooLong => 7,
            Status::NotErased { .. } => 8,
            Status::FlashFault => 9,
            Status::Report { .. } => 11,
        }
    }
}

/// The name in lower-case letters, and the numbers behind it.
impl Display for Status {
    ghost output = { λ status. Some (status_text status) };

    fn fmt<W: fmt::Write>(&self, f: &mut Formatter<W>) -> fmt::Result {
        match self {
            Status::Done => f.write_str("done"),
            Status::Usage => f.write_str("usage"),
            Status::Script { line, rule } => write!(f, "script {line} {rule}"),
            Status::ReadFault => f.write_str("readfault"),
            Status::WriteFault => f.write_str("writefault"),
            Status::Memory => f.write_str("memory"),
            Status::TooLong => f.write_str("toolong"),
            Status::NotErased { at } => write!(f, "noterased {at}"),
            Status::FlashFault => f.write_str("flashfault"),
            Status::Report { line } => write!(f, "report {line}"),
        }
    }
}
