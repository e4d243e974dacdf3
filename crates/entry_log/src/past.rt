//! The entries so far, behind each the word that the counter of sequence numbers had been moved to last. They take memory when they are made, and
//! none as they grow: they stand in the view of a seat, of which no value is kept.
#![tactic(auto)]

ghost use Rattle.std.specs.Prelude.{◌≡◌, ℕ, IfOk};
ghost use Rattle.mesh_types.specs.declared.history.Entry.{Entry as Told};
ghost use Rattle.entry_log.specs.Past.{beginning, noted};
ghost use Rattle.seq_word.specs.Seen.{last_word, went_to};

use atomic_table::{Play, Seat, Table, TableRule};
use mesh_types::history::Entry;
use seq_word::Keeper;
use std::alloc::{AllocError, Global};
use std::collections::LinkedList;
use std::marker::{Brand, Model, PhantomData};

/// What the seat knows. No value of it is made.
pub struct Past {
    /// The entries, in their order.
    pub entries: LinkedList<Entry>,
    /// Behind each entry the word that the counter of sequence numbers had been moved to last, 0 where it hadn't.
    pub moves: LinkedList<u64>,
}

/// The table has one word, and no rule: its one seat does each step, a store for one more entry.
pub struct Log;

impl TableRule<u8, Past, u8> for Log {
    ghost use Rattle.entry_log.specs.Past.{Unruled, beginning};

    ghost holds = { λ _. Unruled };

    ghost first = { λ _. beginning };
}

/// The entry that is added, and where the counter had been moved to last.
pub trait Added {
    ghost entry: { Told };

    ghost moved: { ℕ };
}

impl Added for Brand {
    ghost use Rattle.entry_log.specs.Past.{some_entry};

    ghost entry = { some_entry };

    ghost moved = { 0 };
}

pub struct AddsEntry<N>(PhantomData<N>);

impl<N: Added> Play<u8, Past> for AddsEntry<N> {
    ghost use Rattle.entry_log.specs.Past.{Adds};

    ghost then = { Adds N.entry N.moved };
}

/// The table and its seat. To a contract it is the list of entries, and of moves.
#[derive(Drop)]
pub struct Recorder {
    table: Table<u8, Past, u8, Log, Global>,
    seat: Seat<u8, Past>,
}

impl Model for Recorder {
    ghost use Rattle.std.specs.Prelude.{◌≡◌};
    ghost use Rattle.entry_log.specs.declared.past.Past.{Past};

    ghost Value = { Past };

    ghost view = { λ r. r.seat.me.0 };

    ghost invariant = { λ r. (r.table.shared.table_id.words ≡ 1) × (r.seat.table_id ≡ r.table.shared.table_id) };
}

impl Recorder {
    /// No entries.
    pub fn new(alloc: Global) -> Result<Self, AllocError>
        ensures { IfOk result (λ r. r ≡ beginning) }
    {
        let (table, seat) = Table::of_words(alloc, &[0], &0)?;
        Ok(Recorder { table, seat })
    }

    /// One entry more, behind which the counter has been moved as this keeper knows.
    pub fn note(&mut self, entry: &Entry, keeper: &Keeper)
        ensures { self.new ≡ noted entry.now (last_word (went_to keeper.now.advances)) self.old }
    {
        add_entry::<Brand>(&self.table, &mut self.seat, entry, keeper);
    }
}

fn add_entry<N: Added>(
    table: &Table<u8, Past, u8, Log, Global>,
    seat: &mut Seat<u8, Past>,
    entry: &Entry,
    keeper: &Keeper,
)
    requires entry { entry.now ≡ N.entry }
    requires moved { last_word (went_to keeper.now.advances) ≡ N.moved }
    requires word { table.now.shared.table_id.words ≡ 1 }
    requires seat { seat.old.table_id ≡ table.now.shared.table_id }
    ensures seat { seat.new.table_id ≡ seat.old.table_id }
    ensures noted { seat.new.me.0 ≡ noted entry.now (last_word (went_to keeper.now.advances)) seat.old.me.0 }
{
    // They stand in the clauses alone.
    let _ = entry;
    let _ = keeper;
    table.shared.store::<AddsEntry<N>>(seat, 0, 0);
}
