//! A seat that draws.
#![tactic(auto)]

use crate::rule::View;
use atomic_table::Seat;
use std::marker::Model;

/// A seat that draws, at the words that it was made with. It takes no memory. Hand each thread that draws a seat of its own.
///
/// A contract sees what was drawn here and what that left in the counter, what had been drawn where this seat was split
/// off, the looks at the two words in their order, those that had been made where this seat was split off, where it was told that the keeper had moved
/// the counter to, its parts of the 1,024, and the word that the counter is to reach yet, since the mark was raised for this seat (0 for none). Any
/// try to draw, whatever it answers, leaves a seat that owes none.
#[derive(Drop)]
pub struct Drawer {
    pub(crate) seat: Seat<u8, View>,
}

impl Model for Drawer {
    ghost use Rattle.std.specs.Prelude.{◌≡◌, []};
    ghost use Rattle.seq_word.specs.Rule.{OnlyDraws};
    ghost use Rattle.seq_word.specs.Seen.{DrawerView};

    ghost Value = { DrawerView };

    ghost view = { λ d. let v = d.seat.me.0 in record {
      which = d.seat.table_id;
      drawn = v.drawn;
      raised = v.raised;
      noted = v.noted;
      looks = v.looks;
      known = v.known;
      informed = v.informed;
      parts = v.parts;
      owes = v.owes;
    } };

    // It draws, keeps no mark, has made no advance and holds no slot; and what it owes is at most a mark that it was told.
    ghost invariant = { λ d. OnlyDraws d.seat.me.0 × (d.seat.me.1 ≡ []) };
}
