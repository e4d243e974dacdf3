//! What a pass knows, the rule of the lock, and its kinds of steps. All of it is for proofs.
use crate::logged::Logged;
use atomic_table::{Join, Play, Split, TableRule};
use std::collections::LinkedList;
use std::snapshot::Snapshot;

/// What a pass knows. No value of it is made.
pub struct View<T, E> {
    /// Its parts of the lock.
    pub parts: u64,
    /// It has a ticket.
    pub waits: bool,
    /// The ticket, a number without bound: the words hold it modulo 2^64.
    pub ticket: u64,
    /// It has the value.
    pub inside: bool,
    /// The value that was given to `start`.
    pub first: Option<T>,
    /// All entries, as far as it has seen them.
    pub seen: LinkedList<E>,
    /// What a pass had seen that it took in.
    pub told: LinkedList<E>,
    /// The entries that it added, each with its place.
    pub own: LinkedList<(u64, E)>,
}

/// The rule between any two steps.
pub struct Law;

impl<E, T: Logged<Entry = E>> TableRule<Option<T>, View<T, E>, Snapshot<T>> for Law {
    ghost use Rattle.turn_lock.specs.Views.{starting};
    ghost use Rattle.turn_lock.specs.Rule.{Ruled};

    ghost holds = { λ key. Ruled T.entries T.origin key.value };

    ghost first = { λ key. starting key.value (T.entries key.value) };
}

/// Take a ticket: a `fetch_add` on the ticket word.
pub struct TakeTicket;

impl<T, E> Play<Option<T>, View<T, E>> for TakeTicket {
    ghost use Rattle.turn_lock.specs.Plays.{TakesTicket};

    ghost then = { TakesTicket };
}

/// Look at serving: a load of the serving word. Where the number is the pass's ticket, the slot is its own from then on.
pub struct LookAtServing;

impl<E, T: Logged<Entry = E>> Play<Option<T>, View<T, E>> for LookAtServing {
    ghost use Rattle.turn_lock.specs.Plays.{LooksAtServing};

    ghost then = { LooksAtServing T.entries T.origin };
}

/// Count the entries added: a `fetch_add` on the count.
pub struct CountEntries;

impl<E, T: Logged<Entry = E>> Play<Option<T>, View<T, E>> for CountEntries {
    ghost use Rattle.turn_lock.specs.Plays.{Counts};

    ghost then = { Counts T.entries };
}

/// Pass on: a `fetch_add` on the serving word. The slot is home from then on.
pub struct PassOn;

impl<T, E> Play<Option<T>, View<T, E>> for PassOn {
    ghost use Rattle.turn_lock.specs.Plays.{PassesOn};

    ghost then = { PassesOn };
}

/// A load of the ticket word after a join, by which the pass learns that what one had seen begins what the other had.
pub struct Learn;

impl<T, E> Play<Option<T>, View<T, E>> for Learn {
    ghost use Rattle.turn_lock.specs.Plays.{IsTold};

    ghost then = { IsTold };
}

/// Split a pass, and join two: a load of the ticket word each.
pub struct Parts;

impl<T, E> Split<View<T, E>> for Parts {
    ghost use Rattle.turn_lock.specs.Views.{keeping, fresh};

    ghost left = { keeping };

    ghost right = { fresh };
}

impl<T, E> Join<View<T, E>> for Parts {
    ghost use Rattle.turn_lock.specs.Views.{both, nobody};

    ghost both = { both };

    ghost spent = { nobody };
}
