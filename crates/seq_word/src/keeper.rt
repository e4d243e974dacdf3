//! The seat that moves the mark.
#![tactic(auto)]

use crate::rule::View;
use atomic_table::Seat;
use std::marker::Model;

/// The one seat that moves the mark, and the counter to a new IV Index. It knows the mark, since no other seat moves it.
#[derive(Drop)]
pub struct Keeper {
    pub(crate) seat: Seat<u8, View>,
}

impl Model for Keeper {
    ghost use Rattle.std.specs.Prelude.{◌≡◌, true, []};
    ghost use Rattle.seq_word.specs.Seen.{KeeperView};
    ghost use Rattle.seq_word.specs.Rule.{OnlyKeeps};

    ghost Value = { KeeperView };

    ghost view = { λ k. record { which = k.seat.table_id; mark = k.seat.me.0.mark; advances = k.seat.me.0.advances } };

    ghost invariant = { λ k. OnlyKeeps k.seat.me.0 × (k.seat.me.1 ≡ []) };
}
