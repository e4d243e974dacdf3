//! Why there is no file of a node.
#![tactic(auto)]

ghost use Rattle.std.specs.Prelude.{◌≡◌};
ghost use Rattle.node_file.specs.declared.faults.MakeFault.TheVariants.{Memory, System};

use node_store::ImageFault;
use std::alloc::AllocError;
use std::io;
use thiserror::Error;

/// Why a file isn't opened. Nothing was written to it then.
#[derive(Debug, Drop, Error)]
pub enum OpenFault {
    /// There is no file of this name.
    #[error("there is no such file")]
    Missing,
    /// It is a folder, a link or a device.
    #[error("it is no file")]
    NotAFile,
    /// It has a second name.
    #[error("it has a second name")]
    SecondName,
    /// Another process has it.
    #[error("another process has it")]
    Locked,
    /// It has not 65,536 octets.
    #[error("it has {octets} octets, and not 65536")]
    Size { octets: u64 },
    /// It holds no node.
    #[error("{0}")]
    Image(ImageFault),
    /// The system refused a call.
    #[error("{0}")]
    System(io::Error),
    /// There was no memory.
    #[error("out of memory")]
    Memory,
}

/// Why a file isn't made. There is none under its name then, unless there was one before; or, where the system refused a call behind the last
/// step, the whole node.
#[derive(Debug, Drop, Error)]
pub enum MakeFault {
    /// There is a file of this name.
    #[error("there is such a file")]
    Taken,
    /// There is a file of the name under which it is made: another process makes one, or died as it made one.
    #[error("there is a file of this name with .new behind it")]
    Begun,
    /// The system refused a call.
    #[error("{0}")]
    System(io::Error),
    /// There was no memory.
    #[error("out of memory")]
    Memory,
}

impl From<io::Error> for OpenFault {
    fn from(error: io::Error) -> Self {
        OpenFault::System(error)
    }
}

impl From<AllocError> for OpenFault {
    fn from(_: AllocError) -> Self {
        OpenFault::Memory
    }
}

impl From<ImageFault> for OpenFault {
    fn from(fault: ImageFault) -> Self {
        OpenFault::Image(fault)
    }
}

impl From<io::Error> for MakeFault {
    ghost from_gives = { λ error fault. fault ≡ System error };

    fn from(error: io::Error) -> Self {
        MakeFault::System(error)
    }
}

impl From<AllocError> for MakeFault {
    ghost from_gives = { λ _ fault. fault ≡ Memory };

    fn from(_: AllocError) -> Self {
        MakeFault::Memory
    }
}
