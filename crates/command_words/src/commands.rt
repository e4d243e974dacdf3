//! The commands.
#![tactic(auto)]

/// What kind of node runs a script.
#[derive(Clone, Copy, Debug, PartialEq, Eq)]
pub enum NodeKind {
    /// A node with all its layers, on up to eight bearers.
    Node,
    /// A Low Power node, on one bearer.
    LowPower,
}

/// The flags of a run.
#[derive(Clone, Copy, Debug, PartialEq, Eq)]
pub struct RunFlags {
    /// `--hex`: the report shows the octets of network PDUs.
    pub hex: bool,
    /// `--old`: the node is provisioned in format 01, which its first life migrates. A Low Power node has no such flag.
    pub old: bool,
}

/// A command of the program.
#[derive(Clone, Copy, Debug, PartialEq, Eq)]
pub enum Command {
    /// `run`, or `lpn` for a Low Power node: a script is run, and its report written.
    Run(NodeKind, RunFlags),
    /// `audit`: a log is audited, and its verdict written.
    Audit,
    /// `gen`: a script is generated and run, and the summary of its report written.
    Generate {
        /// How many lines of bearers the script has, 1 to 32,768.
        count: u32,
        /// The number behind which those of its lines begin.
        start: u32,
    },
}
