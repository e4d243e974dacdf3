//! What the words held at the end.
#![tactic(auto)]

ghost use Rattle.std.specs.Prelude.{◌≡◌};

use crate::rule::View;
use atomic_table::Seat;
use std::marker::Model;
use std::snapshot::Snapshot;

/// What the two words held at the end, what was drawn and seen at the seats that were joined, and the keeper's advances. Only `Numbers::close` makes one.
#[derive(Drop)]
pub struct Closed {
    pub(crate) next: u64,
    pub(crate) mark: u64,
    pub(crate) last: Snapshot<Seat<u8, View>>,
}

impl Model for Closed {
    ghost use Rattle.seq_word.specs.Seen.{ClosedView};

    ghost Value = { ClosedView };

    ghost view = { λ c. let v = c.last.value.me.0 in record {
      next = c.next;
      mark = c.mark;
      drawn = v.drawn;
      looks = v.looks;
      advances = v.advances;
    } };
}

impl Closed {
    /// The counter: the word that would have been drawn next.
    pub fn next(&self) -> u64
        ensures { result ≡ self.now.next }
    {
        self.next
    }

    /// The mark.
    pub fn mark(&self) -> u64
        ensures { result ≡ self.now.mark }
    {
        self.mark
    }
}
