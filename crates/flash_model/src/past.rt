// What a flash in memory has been through. It takes memory when it is made, and none as it grows: the contents that
// its calls found, and its counts, stand in the view of a seat, of which no value is kept.
ghost use Rattle.std.specs.Prelude.{◌≡◌, ℕ, List, IfOk};
ghost use Rattle.atomic_table.specs.Table.{Me};
ghost use Rattle.flash_model.specs.Past.{beginning, noted};

use atomic_table::{Play, Seat, Table, TableRule};
use std::alloc::{AllocError, Global};
use std::collections::LinkedList;
use std::marker::{Brand, Model, PhantomData};

/// What the seat knows. No value of it is made.
pub struct Past {
    /// The content that each call found which changed something or failed, in order.
    pub contents: LinkedList<LinkedList<u8>>,
    /// How many of them failed.
    pub faults: u64,
    /// How many had failed at the last power cycle.
    pub cycled: u64,
    /// The content at the last power cycle, or when the flash was made.
    pub saved: LinkedList<u8>,
    /// The moment then.
    pub moment: u64,
    /// How often power was cycled.
    pub cycles: u64,
}

/// What one call adds to the past, as the number that its step stores.
pub const CHANGED: u64 = 0;

pub const FAILED: u64 = 1;

pub const CYCLED: u64 = 2;

/// The table has one word, and no rule: its one seat does each step, a store for one more call.
pub struct Log;

impl TableRule<u8, Past, u8> for Log {
    ghost use Rattle.flash_model.specs.Past.{Unruled, beginning};

    ghost holds = { λ _. Unruled };

    ghost first = { λ _. beginning };
}

/// The content that a call found.
pub trait Found {
    ghost content: { List ℕ };
}

impl Found for Brand {
    ghost use Rattle.std.specs.Prelude.{[]};

    ghost content = { [] };
}

pub struct AddsCall<N>(PhantomData<N>);

impl<N: Found> Play<u8, Past> for AddsCall<N> {
    ghost use Rattle.flash_model.specs.Past.{Adds};

    ghost then = { Adds N.content };
}

/// The table and its seat. To a contract it is the past.
#[derive(Drop)]
pub struct Recorder {
    table: Table<u8, Past, u8, Log, Global>,
    seat: Seat<u8, Past>,
}

impl Model for Recorder {
    ghost use Rattle.std.specs.Prelude.{◌≡◌};
    ghost use Rattle.flash_model.specs.declared.past.Past.{Past};

    ghost Value = { Past };

    ghost view = { λ r. r.seat.me.0 };

    ghost invariant = { λ r. (r.table.shared.table_id.words ≡ 1) × (r.seat.table_id ≡ r.table.shared.table_id) };
}

impl Recorder {
    /// A past in which nothing has happened.
    pub fn new(alloc: Global) -> Result<Self, AllocError>
        ensures { IfOk result (λ r. r ≡ beginning) }
    {
        let (table, seat) = Table::of_words(alloc, &[CHANGED], &0)?;
        Ok(Recorder { table, seat })
    }

    /// One call more, which found this content.
    pub fn note(&mut self, call: u64, content: &[u8])
        ensures { self.new ≡ noted call content.now self.old }
    {
        add_call::<Brand>(&self.table, &mut self.seat, call, content);
    }
}

fn add_call<N: Found>(
    table: &Table<u8, Past, u8, Log, Global>,
    seat: &mut Seat<u8, Past>,
    call: u64,
    content: &[u8],
)
    requires content { content.now ≡ N.content }
    requires word { table.now.shared.table_id.words ≡ 1 }
    requires seat { seat.old.table_id ≡ table.now.shared.table_id }
    ensures seat { seat.new.table_id ≡ seat.old.table_id }
    ensures noted { seat.new.me.0 ≡ noted call content.now seat.old.me.0 }
{
    table.shared.store::<AddsCall<N>>(seat, 0, call);
}
