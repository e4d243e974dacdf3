//! That the counter had reached the mark.
#![tactic(auto)]

use crate::rule::View;
use atomic_table::Seat;
use std::fmt;
use std::fmt::{Debug, Display, Formatter};
use std::marker::Model;
use std::snapshot::Snapshot;

/// That a draw found the counter at the mark, or above it: what a refill is asked for with. Only a draw makes one, once for each time, and it
/// can't be copied: so for each time that the mark was reached at most one refill is stored, and published.
///
/// It is handed in with the seat that drew, which then owes a draw behind the mark that is published (`Numbers::publish`).
#[derive(Drop)]
pub struct Dry {
    pub(crate) next: u64,
    pub(crate) mark: u64,
    pub(crate) by: Snapshot<Seat<u8, View>>,
}

impl Model for Dry {
    ghost use Rattle.std.specs.Prelude.{◌≤◌, ◌<◌, ◌^◌};
    ghost use Rattle.seq_word.specs.Dry.{DryView};
    ghost use Rattle.seq_word.specs.Word.{seq_of};

    ghost Value = { DryView };

    ghost view = { λ d. record { which = d.by.value.table_id; next = d.next; mark = d.mark } };

    // The counter was at the mark or above, and its IV Index had numbers left.
    ghost invariant = { λ d. (d.mark ≤ d.next) × (seq_of d.next < 2 ^ 24) };
}

impl Dry {
    ghost use Rattle.std.specs.Prelude.{◌≡◌, ◌≤◌};

    /// The mark that was found, a word of `crate::word`.
    pub fn mark(&self) -> u64
        ensures value { result ≡ self.now.mark }
        ensures reached { self.now.mark ≤ self.now.next }
    {
        self.mark
    }
}

impl Display for Dry {
    fn fmt<W: fmt::Write>(&self, f: &mut Formatter<W>) -> fmt::Result {
        write!(
            f,
            "the counter {:x} has reached the mark {:x}",
            self.next, self.mark
        )
    }
}

impl Debug for Dry {
    fn fmt<W: fmt::Write>(&self, f: &mut Formatter<W>) -> fmt::Result {
        write!(f, "Dry {{ next: {}, mark: {} }}", self.next, self.mark)
    }
}
