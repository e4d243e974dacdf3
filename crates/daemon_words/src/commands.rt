//! The commands.
#![tactic(auto)]

use crate::numbers::NodeNumbers;

/// How a node is to run.
#[derive(Clone, Copy, Debug, PartialEq, Eq)]
pub struct RunWays {
    /// `--bearers N`: how many bearers it has, 1 to 8; 1 where it isn't said.
    pub bearers: u8,
    /// `--hex`: what it tells shows the octets of network PDUs.
    pub hex: bool,
    /// `--clock`: it tells itself what time passed.
    pub clock: bool,
}

/// A command of the program. All but `Help` and `Version` name a file, which isn't part of this value (`file_of`).
#[derive(Clone, Copy, Debug, PartialEq, Eq)]
pub enum Command {
    /// `init`: the file of a new node is made, which is provisioned with these numbers, and with keys from standard input.
    Init(NodeNumbers),
    /// `run`: the node of the file is run.
    Run(RunWays),
    /// `show`: what the file stores is told, but no key.
    Show,
    /// `check`: it is told whether the file holds a node.
    Check,
    /// `--help`: the commands are told.
    Help,
    /// `--version`: the program's version is told.
    Version,
}
