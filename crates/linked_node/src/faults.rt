//! Why an image isn't opened.
#![tactic(auto)]

use node_store::ImageFault;
use thiserror::Error;

/// Why an image isn't opened. Nothing is to be written then.
#[derive(Debug, Drop, Error)]
pub enum OpenFault {
    /// It has not 65,536 octets.
    #[error("it has {octets} octets, and not 65536")]
    Size { octets: u64 },
    /// It holds no node.
    #[error("{0}")]
    Image(ImageFault),
    /// There was a Node Reset.
    #[error("the node was reset")]
    WasReset,
    /// The flash refused a write, as one that notes them does for want of memory.
    #[error("the flash failed")]
    Flash,
    /// Memory ran out.
    #[error("out of memory")]
    Memory,
}
