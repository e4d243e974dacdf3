//! The rule of the two words, as `atomic_table` takes it. The definitions stand in `specs/Rule.antt`.
//!
//! There are sixteen kinds of atomic step. Each changes the view of the seat that takes it, and a join that of the other seat too.
//!
//! | Step | Seat | What its view notes |
//! |---|---|---|
//! | a load of the mark | a drawer | the mark, among its looks |
//! | a load of the counter | a drawer | the word, among its looks; where it owed no word above that, it owes none any more |
//! | a compare-exchange on the counter, only from the word last seen there to the next | a drawer | won: the word as drawn, and what it left in the counter, and that it owes none; lost: the word found, as by a load |
//! | a store on the mark, less than a block above what the keeper was promised | the keeper | the mark as its own |
//! | a store on the mark, of the word to move to | the keeper | the mark as its own, and that it moves |
//! | a fetch_max on the counter, to the mark | the keeper | the word found, and the one moved to, which is as good as promised; it doesn't move any more |
//! | a split | a drawer | it has one part less; the new seat has that, notes all that was drawn here, or noted, and knows the looks here, or known. At the start the keeper's seat hands all its parts to the first drawer |
//! | a split of a promise | a drawer | that it owes the word above the one that it found in the counter last; the new seat knows that this is promised, and can't draw |
//! | a split of the mark | the keeper | nothing; the new seat knows that the mark isn't below this one, and can't draw |
//! | a split of the draws | a drawer | nothing; the new seat notes all that was drawn here, or noted, knows all that was seen here, or known, and where it was told that the counter was, and can't draw |
//! | a load of the counter | the keeper | that it forgets what it was told of the draws, over all of which its mark is |
//! | a split of a watcher | a drawer | nothing; the new seat knows nothing, and can't draw |
//! | a load of the counter | a watcher | the word, which is over all that it was told of the draws, and not below those that it found before; and that it forgets what it was told |
//! | a split of the counters | a watcher | nothing; the new seat knows where the counter was, and can't draw |
//! | a split of the moves | the keeper | nothing; the new seat knows where the counter was moved to, and can't draw |
//! | a join | a drawer, or the keeper | all that the other seat knows, and its parts; at the end also the keeper's mark. The other seat is left knowing nothing |
#![tactic(auto)]

use crate::looks::Look;
use atomic_table::{Join, Play, Split, Table, TableRule};
use std::alloc::Global;
use std::collections::LinkedList;

/// The place of the counter among the words.
pub const COUNTER: usize = 0;

/// The place of the mark among the words.
pub const MARK: usize = 1;

/// What a seat at the two words knows. No value of it is made: it stands in proofs alone, so its lists take no memory and its numbers no bound.
pub struct View {
    /// Whether this is the keeper's seat.
    pub keeps: bool,
    /// The keeper's mark.
    pub mark: u64,
    /// Whether the keeper is moving: its mark is where the counter is to go to, and the counter may be far below still.
    pub lifted: bool,
    /// The keeper's advances: the word that each found in the counter, and the one that it moved the counter to.
    pub advances: LinkedList<(u64, u64)>,
    /// Whether this is the seat of a drawer.
    pub draws: bool,
    /// Its parts of the 1,024 that all drawers have between them, as long as no part was lost.
    pub parts: u64,
    /// The words that were drawn at this seat, in their order.
    pub drawn: LinkedList<u64>,
    /// What each of these draws left in the counter.
    pub raised: LinkedList<u64>,
    /// What a seat that watches the counter found there, in order.
    pub counters: LinkedList<u64>,
    /// The words that had been drawn at the seat from which this one was split off, or were noted there.
    pub noted: LinkedList<u64>,
    /// The looks at the two words, in their order.
    pub looks: LinkedList<Look>,
    /// The looks at the seat from which this one was split off, or that were known there.
    pub known: LinkedList<Look>,
    /// Where the keeper had moved the counter to, as this seat was told.
    pub informed: LinkedList<u64>,
    /// The word that the counter is to reach yet by what this seat does; 0 where it owes none.
    pub owes: u64,
    /// A word that the counter has reached, or that some seat owes, as this seat was told.
    pub promised: u64,
    /// A word that the mark isn't below, as this seat was told.
    pub marked: u64,
}

/// What both words are when the table is made.
#[derive(Drop)]
pub struct Opening {
    /// The counter, and the mark.
    pub first: u64,
}

/// The table of the two words. It has no slots.
pub type Words = Table<u8, View, Opening, Law, Global>;

/// The running rule, as the rule of the table.
pub struct Law;

impl TableRule<u8, View, Opening> for Law {
    ghost use Rattle.seq_word.specs.Rule.{Ruled, first_keeper};

    ghost holds = { λ key. Ruled key.first };

    ghost first = { λ key. first_keeper key.first };
}

/// A load of the mark.
pub struct SeesMark;

impl Play<u8, View> for SeesMark {
    ghost use Rattle.seq_word.specs.Rule as rule;

    ghost then = { rule.SeesMark };
}

/// A load of the counter.
pub struct SeesNext;

impl Play<u8, View> for SeesNext {
    ghost use Rattle.seq_word.specs.Rule as rule;

    ghost then = { rule.SeesNext };
}

/// A compare-exchange on the counter.
pub struct Draws;

impl Play<u8, View> for Draws {
    ghost use Rattle.seq_word.specs.Rule as rule;

    ghost then = { rule.Draws };
}

/// A store on the mark, a block higher.
pub struct Publishes;

impl Play<u8, View> for Publishes {
    ghost use Rattle.seq_word.specs.Rule as rule;

    ghost then = { rule.Publishes };
}

/// A store on the mark, of where the counter is to go to.
pub struct Lifts;

impl Play<u8, View> for Lifts {
    ghost use Rattle.seq_word.specs.Rule as rule;

    ghost then = { rule.Lifts };
}

/// A fetch_max on the counter.
pub struct Advances;

impl Play<u8, View> for Advances {
    ghost use Rattle.seq_word.specs.Rule as rule;

    ghost then = { rule.Advances };
}

/// A load of the counter by the keeper.
pub struct Bounds;

impl Play<u8, View> for Bounds {
    ghost use Rattle.seq_word.specs.Rule as rule;

    ghost then = { rule.Bounds };
}

/// A load of the counter by a seat that watches it.
pub struct Counts;

impl Play<u8, View> for Counts {
    ghost use Rattle.seq_word.specs.Rule as rule;

    ghost then = { rule.Counts };
}

/// How the first drawer's seat is cut off the keeper's.
pub struct Opens;

impl Split<View> for Opens {
    ghost use Rattle.seq_word.specs.Rule.{without_parts, first_drawer};

    ghost left = { without_parts };

    ghost right = { first_drawer };
}

/// How a seat that tells what it will owe is cut off a drawer's.
pub struct Promises;

impl Split<View> for Promises {
    ghost use Rattle.seq_word.specs.Rule.{owing, promise_of};

    ghost left = { owing };

    ghost right = { promise_of };
}

/// How a seat that tells where the mark is is cut off the keeper's.
pub struct Tells;

impl Split<View> for Tells {
    ghost use Rattle.seq_word.specs.Rule.{mark_of};

    ghost left = { λ v. v };

    ghost right = { mark_of };
}

/// How a seat that tells what was drawn and seen is cut off a drawer's.
pub struct Shows;

impl Split<View> for Shows {
    ghost use Rattle.seq_word.specs.Rule.{draws_of};

    ghost left = { λ v. v };

    ghost right = { draws_of };
}

/// How a seat that tells where the counter was moved to is cut off the keeper's.
pub struct Informs;

impl Split<View> for Informs {
    ghost use Rattle.seq_word.specs.Rule.{moves_of};

    ghost left = { λ v. v };

    ghost right = { moves_of };
}

/// How a seat that watches the counter is cut off a drawer's.
pub struct Watches;

impl Split<View> for Watches {
    ghost use Rattle.seq_word.specs.Rule.{watch_of};

    ghost left = { λ v. v };

    ghost right = { watch_of };
}

/// How a seat that tells where the counter was is cut off a watcher's.
pub struct Recalls;

impl Split<View> for Recalls {
    ghost use Rattle.seq_word.specs.Rule.{counters_of};

    ghost left = { λ v. v };

    ghost right = { counters_of };
}

/// How drawers' seats are cut in two, and how seats are put together.
pub struct Seats;

impl Split<View> for Seats {
    ghost use Rattle.seq_word.specs.Rule.{keeping, split_off};

    ghost left = { keeping };

    ghost right = { split_off };
}

impl Join<View> for Seats {
    ghost use Rattle.seq_word.specs.Rule as rule;

    ghost both = { rule.both };

    ghost spent = { rule.nobody };
}
