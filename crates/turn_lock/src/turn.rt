//! The lock and its passes.
ghost use Rattle.std.specs.Prelude.{◌≡◌, ◌≢◌, ℕ, ◌+◌, ◌-◌, ◌%◌, ◌<◌, ◌^◌, true, false, [], ◌∷◌, ◌++◌, length, Some, None, IfOk, IfSome, IfNone, IsSome};
ghost use Rattle.atomic_table.specs.Table.{rest};
ghost use Rattle.turn_lock.specs.Entries.{IsPrefix, IsLongerOf, StandFrom, added, entries_of, merge};
ghost use Rattle.turn_lock.specs.Views.{IsPassOf, queueing, entering, adding, leaving};
ghost use Rattle.turn_lock.specs.Plays.{Finds, in_hand};

use crate::logged::Logged;
use crate::view::{CountEntries, Law, Learn, LookAtServing, Parts, PassOn, TakeTicket, View};
use atomic_table::{Seat, Table};
use std::alloc::{AllocError, Global};
use std::marker::Model;
use std::snapshot::Snapshot;
use std::sync::Wait;
use std::thread;

/// The ticket word: the next ticket to be given. Tickets are counted on without end, and the words hold them modulo 2^64.
const TICKET: usize = 0;

/// The serving word: the ticket whose turn it is.
const SERVING: usize = 1;

/// The count of the value's entries.
const COUNT: usize = 2;

/// The value's home.
const HOME: usize = 0;

/// A lock that hands its value out in the order of tickets. Threads share it by `&`.
///
/// A contract sees which lock it is, and the value that was given to `start` (`first`).
#[derive(Drop)]
pub struct Turn<T: Logged> {
    table: Table<Option<T>, View<T, T::Entry>, Snapshot<T>, Law, Global>,
}

impl<T: Logged> Model for Turn<T> {
    ghost use Rattle.std.specs.Prelude.{◌≡◌};
    ghost use Rattle.turn_lock.specs.Views.{TurnView};

    ghost Value = { TurnView T };

    ghost view = { λ t. record { which = t.table.shared.table_id; first = t.table.shared.key.value } };

    ghost invariant = { λ t. (t.table.shared.table_id.words ≡ 3) × (t.table.shared.table_id.slots ≡ 1) };
}

/// The right to take turns at a lock. Each thread has one of its own.
///
/// A contract sees its parts of the lock, whether it is inside, the entries that it has seen, and its own entries with
/// their places, which are counted from 0.
#[derive(Drop)]
pub struct Pass<T: Logged> {
    seat: Seat<Option<T>, View<T, T::Entry>>,
    /// How many entries it found when it last went in.
    found: u64,
}

impl<T: Logged> Model for Pass<T> {
    ghost use Rattle.turn_lock.specs.Views.{PassView, IsAtRest};

    ghost Value = { PassView T T.Entry };

    ghost view = { λ p. record {
      which = p.seat.table_id;
      first = p.seat.me.0.first;
      parts = p.seat.me.0.parts;
      inside = p.seat.me.0.inside;
      seen = p.seat.me.0.seen;
      own = p.seat.me.0.own;
    } };

    ghost invariant = { λ p. IsAtRest p.seat.me p.found };
}

impl<T: Logged + Drop> Turn<T> {
    /// Makes a lock for the value, and the pass that has all 1,024 parts of it. For want of memory the value is dropped.
    pub fn start(alloc: Global, value: T) -> Result<(Turn<T>, Pass<T>), AllocError>
        requires few { length (T.entries value) < 2 ^ 64 }
        ensures first { IfOk result (λ r. r.0.first ≡ value) }
        ensures pass { IfOk result (λ r. IsPassOf r.0 r.1) }
        ensures parts { IfOk result (λ r. r.1.parts ≡ 1024) }
        ensures outside { IfOk result (λ r. r.1.inside ≡ false) }
        ensures seen { IfOk result (λ r. r.1.seen ≡ T.entries value) }
        ensures own { IfOk result (λ r. r.1.own ≡ []) }
        ensures stands { IfOk result (λ r. StandFrom 0 r.1.seen r.1.own) }
    {
        let first = Snapshot::of(&value);
        let words = [0, 0, value.count()];
        let mut home = Vec::new(alloc);
        home.push(Some(value))?;
        let Ok((table, seat)) = Table::new(alloc, &words, home, &first) else {
            return Err(AllocError);
        };
        Ok((Turn { table }, Pass { seat, found: 0 }))
    }

    // Takes a ticket.
    fn queue(&self, seat: &mut Seat<Option<T>, View<T, T::Entry>>) -> u64
        requires table { seat.old.table_id ≡ self.now.which }
        requires outside { seat.old.me.0.waits ≡ false }
        requires parts { 0 < seat.old.me.0.parts }
        ensures table { seat.new.table_id ≡ seat.old.table_id }
        ensures ticket { (ticket : ℕ) × (result ≡ ticket % 2 ^ 64)
            × (seat.new.me ≡ (queueing seat.old.me.0 ticket, seat.old.me.1)) }
    {
        self.table.shared.fetch_add::<TakeTicket>(seat, TICKET, 1)
    }

    // Looks once whether its ticket is served, and takes the value out if it is.
    fn look(&self, seat: &mut Seat<Option<T>, View<T, T::Entry>>, ticket: u64) -> Option<T>
        requires table { seat.old.table_id ≡ self.now.which }
        requires waits { (seat.old.me.0.waits ≡ true) × (seat.old.me.0.inside ≡ false) × (seat.old.me.1 ≡ []) }
        requires ticket { ticket ≡ seat.old.me.0.ticket % 2 ^ 64 }
        requires first { seat.old.me.0.first ≡ Some self.now.first }
        ensures table { seat.new.table_id ≡ seat.old.table_id }
        ensures inside { IfSome result
            (λ value. seat.new.me ≡ (entering seat.old.me.0 (T.entries value), (0, None) ∷ [])) }
        ensures finds { IfSome result (λ value. Finds T.entries T.origin seat.old.me.0 self.now.first value) }
        ensures none { IfNone result (seat.new.me ≡ seat.old.me) }
        ensures alone { seat.old.me.0.parts ≡ 1024 → IsSome result }
    {
        let table = &self.table.shared;
        if table.load::<LookAtServing>(seat, SERVING) != ticket {
            return None;
        }
        let Some(value) = table.exchange(seat, HOME, None) else {
            unreachable!()
        };
        Some(value)
    }

    // Waits until its ticket is served, and takes the value out.
    fn take(&self, rt: &impl Wait, seat: &mut Seat<Option<T>, View<T, T::Entry>>, ticket: u64) -> T
        requires table { seat.old.table_id ≡ self.now.which }
        requires waits { (seat.old.me.0.waits ≡ true) × (seat.old.me.0.inside ≡ false) × (seat.old.me.1 ≡ []) }
        requires ticket { ticket ≡ seat.old.me.0.ticket % 2 ^ 64 }
        requires first { seat.old.me.0.first ≡ Some self.now.first }
        ensures table { seat.new.table_id ≡ seat.old.table_id }
        ensures inside { seat.new.me ≡ (entering seat.old.me.0 (T.entries result), (0, None) ∷ []) }
        ensures finds { Finds T.entries T.origin seat.old.me.0 self.now.first result }
    {
        for _ in rt.forever() {
            if let Some(value) = self.look(seat, ticket) {
                return value;
            }
            // The thread whose turn it is might not run for long.
            thread::yield_now();
        }
        unreachable!()
    }

    /// Takes a ticket, waits for its turn, and hands the value out. Where its ticket is served at once, it doesn't wait.
    pub fn enter(&self, rt: &impl Wait, p: &mut Pass<T>) -> T
        requires pass { IsPassOf self.now p.old }
        requires outside { p.old.inside ≡ false }
        ensures origin { T.origin result ≡ T.origin self.now.first }
        ensures few { length (T.entries result) < 2 ^ 64 }
        ensures seen { IsPrefix p.old.seen (T.entries result) }
        ensures stands { StandFrom 0 (T.entries result) p.old.own }
        ensures whole { p.old.parts ≡ 1024 → T.entries result ≡ T.entries self.now.first ++ entries_of p.old.own }
        ensures places { p.old.parts ≡ 1024 → p.old.own ≡ added (T.entries self.now.first) (T.entries result) }
        ensures frame { p.new ≡ record p.old { inside = true; seen = T.entries result } }
    {
        let ticket = self.queue(&mut p.seat);
        let value = self.take(rt, &mut p.seat, ticket);
        p.found = value.count();
        value
    }

    /// Hands the value out to a pass that has all parts of the lock. It waits for nobody, since no other pass can have a turn.
    pub fn enter_alone(&self, p: &mut Pass<T>) -> T
        requires pass { IsPassOf self.now p.old }
        requires outside { p.old.inside ≡ false }
        requires alone { p.old.parts ≡ 1024 }
        ensures origin { T.origin result ≡ T.origin self.now.first }
        ensures few { length (T.entries result) < 2 ^ 64 }
        ensures seen { IsPrefix p.old.seen (T.entries result) }
        ensures stands { StandFrom 0 (T.entries result) p.old.own }
        ensures whole { T.entries result ≡ T.entries self.now.first ++ entries_of p.old.own }
        ensures places { p.old.own ≡ added (T.entries self.now.first) (T.entries result) }
        ensures frame { p.new ≡ record p.old { inside = true; seen = T.entries result } }
    {
        let ticket = self.queue(&mut p.seat);
        let Some(value) = self.look(&mut p.seat, ticket) else {
            unreachable!()
        };
        p.found = value.count();
        value
    }

    /// Takes the value back, and passes the turn on. The entries that were added since `enter` are the pass's own.
    pub fn leave(&self, p: &mut Pass<T>, value: T)
        requires pass { IsPassOf self.now p.old }
        requires inside { p.old.inside ≡ true }
        requires origin { T.origin value ≡ T.origin self.now.first }
        requires few { length (T.entries value) < 2 ^ 64 }
        requires seen { IsPrefix p.old.seen (T.entries value) }
        ensures own { p.new.own ≡ p.old.own ++ added p.old.seen (T.entries value) }
        ensures stands { StandFrom 0 p.new.seen p.new.own }
        ensures frame { p.new ≡ record p.old { inside = false; seen = T.entries value; own = p.new.own } }
    {
        let more = value.count() - p.found;
        let table = &self.table.shared;
        let None = table.exchange(&mut p.seat, HOME, Some(value)) else {
            unreachable!()
        };
        table.fetch_add::<CountEntries>(&mut p.seat, COUNT, more);
        table.fetch_add::<PassOn>(&mut p.seat, SERVING, 1);
    }

    /// A new pass, for another thread. It has one of the parts of `p`, no entries of its own, and has seen what `p` has seen.
    pub fn split(&self, p: &mut Pass<T>) -> Pass<T>
        requires pass { IsPassOf self.now p.old }
        requires outside { p.old.inside ≡ false }
        requires two { 1 < p.old.parts }
        ensures value { result ≡ record p.old { parts = 1; own = [] } }
        ensures stands { StandFrom 0 p.new.seen p.new.own × StandFrom 0 result.seen result.own }
        ensures frame { p.new ≡ record p.old { parts = p.old.parts - 1 } }
    {
        let seat = self.table.shared.split_seat::<Parts>(&mut p.seat);
        Pass { seat, found: 0 }
    }

    /// Takes another pass in. `p` then has the parts and the own entries of both, and has seen what either has seen.
    pub fn join(&self, p: &mut Pass<T>, other: Pass<T>)
        requires pass { IsPassOf self.now p.old }
        requires other { IsPassOf self.now other }
        requires outside { (p.old.inside ≡ false) × (other.inside ≡ false) }
        ensures own { p.new.own ≡ merge p.old.own other.own }
        ensures seen { IsLongerOf p.old.seen other.seen p.new.seen }
        ensures stands { StandFrom 0 p.new.seen p.new.own }
        ensures stood { StandFrom 0 p.old.seen p.old.own × StandFrom 0 other.seen other.own }
        ensures frame { p.new ≡ record p.old { parts = p.old.parts + other.parts; seen = p.new.seen; own = p.new.own } }
    {
        let Pass {
            seat: other_seat,
            found: _,
        } = other;
        let table = &self.table.shared;
        table.join_seat::<Parts>(&mut p.seat, other_seat);
        table.load::<Learn>(&mut p.seat, TICKET);
    }

    /// Ends the lock. The pass is inside, so the caller has the value, and keeps it.
    pub fn close(self, p: Pass<T>)
        requires pass { IsPassOf self p }
        requires inside { p.inside ≡ true }
    {
        drop(p);
        drop(self);
    }
}
