//! A value of the past.
#![tactic(auto)]

ghost use Rattle.std.specs.Prelude.{◌≡◌, IfOk};

use atomic_table::{Seat, Table, TableRule};
use std::alloc::{AllocError, Global};
use std::marker::Model;
use std::snapshot::Snapshot;

/// A table without a rule: its key alone is used.
pub struct Law;

impl<X> TableRule<u8, u8, Snapshot<X>> for Law {
    ghost use Rattle.locked_node.specs.Known.{Unruled};

    ghost holds = { λ _. Unruled };

    ghost first = { λ _. 0 };
}

/// What some value was at an earlier moment. A contract sees that value; nothing of it is kept when the program runs.
///
/// It may be handed to another thread, as a `Snapshot` may not.
#[derive(Drop)]
pub struct Known<X> {
    table: Table<u8, u8, Snapshot<X>, Law, Global>,
    seat: Seat<u8, u8>,
}

impl<X> Model for Known<X> {
    ghost Value = { X };

    ghost view = { λ k. k.table.shared.key.value };
}

impl<X> Known<X> {
    /// What this value is now. It takes memory for one word.
    pub fn of(alloc: Global, value: &X) -> Result<Self, AllocError>
        ensures value { IfOk result (λ k. k ≡ value.now) }
    {
        let now = Snapshot::of(value);
        let (table, seat) = Table::of_words(alloc, &[0], &now)?;
        Ok(Known { table, seat })
    }
}
