//! What a node's lock keeps. No value of these types is made: they stand in contracts alone.
#![tactic(auto)]

use mesh_types::events::Event;
use mesh_types::history::Entry;
use seq_word::Numbers;
use std::collections::LinkedList;

/// An entry of the lock.
pub enum Mark {
    /// An entry of the history, with what the counter was behind it.
    Handled(Entry, Behind),
    /// A bearer stopped, since the flash failed; with the event that was in hand when it failed, if there was one.
    Stopped(Option<Event>),
}

/// The counter of sequence numbers behind an entry.
pub struct Behind {
    /// The word that it had been moved to last, 0 where it hadn't been.
    pub moved: u64,
    /// The word that was found in it.
    pub counter: u64,
}

/// The order to tear a call of the flash.
pub struct Armed {
    /// How many program and erase calls come before the torn one.
    pub calls: u64,
    /// The mask under which it is torn.
    pub mask: u64,
    /// What was counted when it was given.
    pub changes: u64,
}

/// What doesn't change while the lock stands.
pub struct Origin<F> {
    /// The flash as the life found it.
    pub start: F,
    /// The counter and the mark that the machine publishes at; where the counter was opened isn't told.
    pub numbers: Numbers,
    /// How many entries of the history were taken before.
    pub taken: u64,
    /// How many refills were stored behind those and before the next, where none was in hand.
    pub fills: Option<u64>,
    /// The elements of the node.
    pub elements: u64,
    /// The order that the flash was given.
    pub arm: Option<Armed>,
    /// What was read of the flash when its setting was made: for one that notes its writes, when they were handed out last.
    pub saved: LinkedList<u8>,
    /// Its moment then.
    pub moment: u64,
    /// How many program and erase calls had been counted then.
    pub called: u64,
    /// How many octets the program calls among them had been given.
    pub programmed: u64,
}
