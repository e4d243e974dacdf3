//! The pieces of a message, each in the place of its SegO.
#![tactic(auto)]

ghost use Rattle.std.specs.Prelude.{◌≡◌, ◌+◌, ◌*◌, ◌<◌, ◌≤◌, ◌^◌, List, ℕ, Some, None, length, replicate, slice_set, unwrap_or, ◌++◌, []};
ghost use Rattle.layer_states.specs.Reassembly.{block_from, is_other as is_other_in, missing_of as missing_in, outcome as outcome_in, piece_at, whole_of as whole_in};

use arrayvec::ArrayVec;
use layer_states::reassembly::{Pieces, Taken};
use mesh_base::octets::Octets;

/// The places of a message of which nothing was heard.
pub(crate) fn no_pieces(seg_n: u8) -> Pieces
    requires { seg_n < 32 }
    ensures { result ≡ replicate (seg_n + 1) None }
{
    let mut places = ArrayVec::new();
    for _ in 0..seg_n + 1 {
        places.push(None);
    }
    Pieces { places }
}

/// How many pieces are missing.
pub(crate) fn missing_of(places: &[Option<Octets<12>>]) -> usize
    ensures value { result ≡ missing_in places.now }
    ensures most { result ≤ length places.now }
{
    places.iter().filter(|place| place.is_none()).count()
}

// Puts the octets of a piece, if it was heard, behind the others.
fn add_piece(out: &mut Octets<384>, place: &Option<Octets<12>>)
    requires { length out.old + 12 ≤ 384 }
    ensures value { out.new ≡ out.old ++ unwrap_or place.now [] }
    ensures length { length out.new ≤ length out.old + 12 }
{
    if let Some(piece) = place {
        out.extend(piece.as_slice());
    }
}

/// The octets of all pieces, in their order.
pub(crate) fn whole_of(places: &[Option<Octets<12>>]) -> Octets<384>
    requires { length places.now ≤ 32 }
    ensures { result ≡ whole_in places.now }
{
    let mut out = Octets::new();
    for place in places {
        add_piece(&mut out, place);
    }
    out
}

/// BlockAck: bit i stands for the piece with SegO i.
pub(crate) fn block_of(places: &[Option<Octets<12>>]) -> u32
    requires { length places.now ≤ 32 }
    ensures { result ≡ block_from 0 places.now }
{
    let mut block = 0;
    for (i, place) in places.iter().enumerate() {
        if place.is_some() {
            block += 1 << i;
        }
    }
    block
}

/// Whether a piece that was heard differs from this one.
pub(crate) fn is_other(held: &Option<Octets<12>>, piece: &[u8]) -> bool
    ensures { result ≡ is_other_in held.now piece.now }
{
    match held {
        None => false,
        Some(held) => held.as_slice() != piece,
    }
}

/// Puts a piece into its place.
pub(crate) fn set_piece(pieces: &mut Pieces, place: usize, piece: &[u8])
    requires place { place < length pieces.old }
    requires length { length piece.now ≤ 12 }
    ensures { pieces.new ≡ slice_set pieces.old place (Some piece.now) }
{
    let mut held = Octets::new();
    held.extend(piece);
    let places = pieces.places.as_mut_slice();
    places[place] = Some(held);
}

/// What becomes of a segment when these are the pieces.
pub(crate) fn outcome(places: &[Option<Octets<12>>]) -> Taken
    requires { length places.now ≤ 32 }
    ensures { result ≡ outcome_in places.now }
{
    let missing = missing_of(places);
    if missing > 0 {
        Taken::Waiting {
            missing: missing as u8,
        }
    } else {
        Taken::Whole(whole_of(places))
    }
}
