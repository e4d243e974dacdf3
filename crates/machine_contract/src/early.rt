//! What is read before an event is handled.
#![tactic(auto)]

/// How often network PDUs were read before they were handled. Each number stays at 2^64 - 1.
#[derive(Clone, Copy, Debug, PartialEq, Eq)]
pub struct EarlyReads {
    /// How many were read again when they were handled, since the machine didn't read by the same keys and IV Index any more.
    pub again: u64,
    /// How many were handled as they were read before.
    pub before: u64,
}

/// What was read before an event is handled, and by what.
#[derive(Drop)]
pub struct ReadBefore<'a, R, G> {
    /// By what it was read.
    pub reader: &'a R,
    /// What was read, if anything was.
    pub reading: &'a G,
}
