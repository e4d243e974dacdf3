// The pieces that a sink in memory was offered. The list takes memory when it is made, and none as it grows: it stands in the view of a
// seat, of which no value is kept.
ghost use Rattle.std.specs.Prelude.{◌≡◌, ℕ, List, [], ◌∷◌, ◌++◌, IfOk};

use atomic_table::{Play, Seat, Table, TableRule};
use std::alloc::{AllocError, Global};
use std::collections::LinkedList;
use std::marker::{Brand, Model, PhantomData};

/// What the seat knows. No value of it is made.
pub struct Offered {
    /// The pieces, in the order in which they were offered.
    pub pieces: LinkedList<LinkedList<u8>>,
}

/// The table has one word, and no rule: its one seat does each step, a store for one more piece.
pub struct Log;

impl TableRule<u8, Offered, u8> for Log {
    ghost use Rattle.mesh_base.specs.Pieces.{Unruled, nothing};

    ghost holds = { λ _. Unruled };

    ghost first = { λ _. nothing };
}

/// The piece that a step adds.
pub trait Piece {
    ghost octets: { List ℕ };
}

impl Piece for Brand {
    ghost use Rattle.std.specs.Prelude.{[]};

    ghost octets = { [] };
}

pub struct AddsPiece<N>(PhantomData<N>);

impl<N: Piece> Play<u8, Offered> for AddsPiece<N> {
    ghost use Rattle.mesh_base.specs.Pieces.{Adds};

    ghost then = { Adds N.octets };
}

/// The table and its seat. To a contract it is the list of the pieces.
#[derive(Drop)]
pub struct PieceLog {
    table: Table<u8, Offered, u8, Log, Global>,
    seat: Seat<u8, Offered>,
}

impl Model for PieceLog {
    ghost use Rattle.std.specs.Prelude.{◌≡◌, ℕ, List};

    ghost Value = { List (List ℕ) };

    ghost view = { λ r. r.seat.me.0.pieces };

    ghost invariant = { λ r. (r.table.shared.table_id.words ≡ 1) × (r.seat.table_id ≡ r.table.shared.table_id) };
}

impl PieceLog {
    /// No piece was offered yet.
    pub fn new(alloc: Global) -> Result<Self, AllocError>
        ensures { IfOk result (λ r. r ≡ []) }
    {
        let (table, seat) = Table::of_words(alloc, &[0], &0)?;
        Ok(PieceLog { table, seat })
    }

    /// One piece more.
    pub fn note(&mut self, piece: &[u8])
        ensures { self.new ≡ self.old ++ piece.now ∷ [] }
    {
        add_piece::<Brand>(&self.table, &mut self.seat, piece);
    }
}

fn add_piece<N: Piece>(
    table: &Table<u8, Offered, u8, Log, Global>,
    seat: &mut Seat<u8, Offered>,
    piece: &[u8],
)
    requires piece { piece.now ≡ N.octets }
    requires word { table.now.shared.table_id.words ≡ 1 }
    requires seat { seat.old.table_id ≡ table.now.shared.table_id }
    ensures seat { seat.new.table_id ≡ seat.old.table_id }
    ensures added { seat.new.me.0.pieces ≡ seat.old.me.0.pieces ++ piece.now ∷ [] }
{
    table.shared.store::<AddsPiece<N>>(seat, 0, 0);
}
