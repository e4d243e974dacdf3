// What was read of a flash when its setting was made, and what each of its calls was to do. It takes memory for a word: the octets stand in the view of
// a seat, of which no value is kept.
ghost use Rattle.std.specs.Prelude.{◌≡◌, ℕ, List, IfOk, length};
ghost use Rattle.atomic_table.specs.Table.{Me};
ghost use Rattle.file_flash.specs.Saved.{call_noted, nothing_saved};

use atomic_table::{Play, Seat, Table, TableRule};
use flash_model::Flash;
use std::alloc::{AllocError, Global};
use std::collections::LinkedList;
use std::marker::{Brand, Model, PhantomData};

/// A call of a flash. No value of it is made.
pub struct Call {
    /// The mirror's moment when it began.
    pub began: u64,
    /// The content that it found.
    pub old: LinkedList<u8>,
    /// The content that it was to leave.
    pub new: LinkedList<u8>,
}

/// What the seat knows. No value of it is made.
pub struct Saved {
    /// What was read.
    pub octets: LinkedList<u8>,
    /// The moment then: how many calls there had been.
    pub moment: u64,
    /// How many program and erase calls had been counted.
    pub called: u64,
    /// How many octets the program calls among them had been given.
    pub programmed: u64,
    /// The calls since the flash was made, in their order.
    pub calls: LinkedList<Call>,
}

/// The table has one word, and no rule.
pub struct Keeping;

impl TableRule<u8, Saved, u8> for Keeping {
    ghost use Rattle.file_flash.specs.Saved.{Unruled, nothing_saved};

    ghost holds = { λ _. Unruled };

    ghost first = { λ _. nothing_saved };
}

/// What is read of a flash.
pub trait Shown {
    ghost octets: { List ℕ };

    ghost called: { ℕ };

    ghost programmed: { ℕ };
}

impl Shown for Brand {
    ghost use Rattle.std.specs.Prelude.{[]};

    ghost octets = { [] };

    ghost called = { 0 };

    ghost programmed = { 0 };
}

pub struct Saves<N>(PhantomData<N>);

impl<N: Shown> Play<u8, Saved> for Saves<N> {
    ghost use Rattle.file_flash.specs.Saved.{Stores};

    ghost then = { Stores N.octets N.called N.programmed };
}

/// A call that begins.
pub trait Beginning {
    ghost began: { ℕ };

    ghost old: { List ℕ };

    ghost new: { List ℕ };
}

impl Beginning for Brand {
    ghost use Rattle.std.specs.Prelude.{[]};

    ghost began = { 0 };

    ghost old = { [] };

    ghost new = { [] };
}

pub struct NotesCall<N>(PhantomData<N>);

impl<N: Beginning> Play<u8, Saved> for NotesCall<N> {
    ghost use Rattle.file_flash.specs.Saved.{Notes};

    ghost then = { Notes N.began N.old N.new };
}

/// The table and its seat. To a contract it is what was read.
#[derive(Drop)]
pub struct Keeper {
    table: Table<u8, Saved, u8, Keeping, Global>,
    seat: Seat<u8, Saved>,
}

impl Model for Keeper {
    ghost use Rattle.std.specs.Prelude.{◌≡◌};
    ghost use Rattle.file_flash.specs.declared.saved.Saved.{Saved};

    ghost Value = { Saved };

    ghost view = { λ k. k.seat.me.0 };

    ghost invariant = { λ k. (k.table.shared.table_id.words ≡ 1) × (k.seat.table_id ≡ k.table.shared.table_id) };
}

impl Keeper {
    /// Nothing was read yet.
    pub fn new(alloc: Global) -> Result<Self, AllocError>
        ensures { IfOk result (λ k. k ≡ nothing_saved) }
    {
        let (table, seat) = Table::of_words(alloc, &[0], &0)?;
        Ok(Keeper { table, seat })
    }

    /// What is read of this flash now, how many calls there were so far, and its counts of program and erase calls and of the octets programmed.
    pub fn save<F: Flash>(&mut self, flash: &F)
        ensures { self.new
            ≡ record self.old {
              octets = (F.chip flash.now).now;
              moment = length self.old.calls;
              called = (F.chip flash.now).changes;
              programmed = (F.chip flash.now).octets;
            } }
    {
        save_shown::<F, Brand>(&self.table, &mut self.seat, flash);
    }

    /// A call begins, which is to make what is read of the one flash what is read of the other.
    pub fn note<F: Flash>(&mut self, mirror: &F, goal: &F)
        ensures { self.new ≡ call_noted (F.chip mirror.now).moment (F.chip mirror.now).now (F.chip goal.now).now self.old }
    {
        note_call::<F, Brand>(&self.table, &mut self.seat, mirror, goal);
    }
}

fn save_shown<F: Flash, N: Shown>(
    table: &Table<u8, Saved, u8, Keeping, Global>,
    seat: &mut Seat<u8, Saved>,
    flash: &F,
)
    requires octets { (F.chip flash.now).now ≡ N.octets }
    requires called { (F.chip flash.now).changes ≡ N.called }
    requires programmed { (F.chip flash.now).octets ≡ N.programmed }
    requires word { table.now.shared.table_id.words ≡ 1 }
    requires seat { seat.old.table_id ≡ table.now.shared.table_id }
    ensures seat { seat.new.table_id ≡ seat.old.table_id }
    ensures saved { seat.new.me.0
        ≡ record seat.old.me.0 {
          octets = (F.chip flash.now).now;
          moment = length seat.old.me.0.calls;
          called = (F.chip flash.now).changes;
          programmed = (F.chip flash.now).octets;
        } }
{
    let _ = flash;
    table.shared.store::<Saves<N>>(seat, 0, 0);
}

fn note_call<F: Flash, N: Beginning>(
    table: &Table<u8, Saved, u8, Keeping, Global>,
    seat: &mut Seat<u8, Saved>,
    mirror: &F,
    goal: &F,
)
    requires began { (F.chip mirror.now).moment ≡ N.began }
    requires old { (F.chip mirror.now).now ≡ N.old }
    requires new { (F.chip goal.now).now ≡ N.new }
    requires word { table.now.shared.table_id.words ≡ 1 }
    requires seat { seat.old.table_id ≡ table.now.shared.table_id }
    ensures seat { seat.new.table_id ≡ seat.old.table_id }
    ensures noted { seat.new.me.0 ≡ call_noted (F.chip mirror.now).moment (F.chip mirror.now).now (F.chip goal.now).now seat.old.me.0 }
{
    let _ = mirror;
    let _ = goal;
    table.shared.store::<NotesCall<N>>(seat, 0, 0);
}
