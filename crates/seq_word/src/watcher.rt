//! A seat that watches the counter.
#![tactic(auto)]

use crate::rule::View;
use atomic_table::Seat;
use std::marker::Model;

/// A seat that looks at the counter, and neither draws nor moves anything. It takes no memory. A contract sees what it found there, in order; the
/// words of that stand in contracts alone.
#[derive(Drop)]
pub struct Watcher {
    pub(crate) seat: Seat<u8, View>,
}

impl Model for Watcher {
    ghost use Rattle.std.specs.Prelude.{◌≡◌, []};
    ghost use Rattle.seq_word.specs.Rule.{OnlyWatches};
    ghost use Rattle.seq_word.specs.Seen.{WatcherView};

    ghost Value = { WatcherView };

    ghost view = { λ w. record { which = w.seat.table_id; counters = w.seat.me.0.counters } };

    ghost invariant = { λ w. OnlyWatches w.seat.me.0 × (w.seat.me.1 ≡ []) };
}
