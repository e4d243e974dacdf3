//! One message, its pieces and its rounds.
#![tactic(auto)]

ghost use Rattle.std.specs.Prelude.{◌≡◌, ◌+◌, ◌*◌, ◌^◌, ◌≤◌, ◌<◌, ◌++◌, ◌&&◌, not, [], ◌∷◌, Some, None, if◌then◌else◌, length, map};
ghost use Rattle.layer_states.specs.Sending.{begun as begun_in, has_bit as has_bit_in, is_due as is_due_in, is_last as is_last_in, left_after, pieces_of as pieces_in, round_after as round_after_in, round_of as round_in, segments_due, stepped};
ghost use Rattle.segment_sender.specs.Held.{has_round as has_round_in};

use layer_states::sending::{DueList, PieceList, Sending};
use lower_transport::last_segment;
use mesh_base::table::Table;
use mesh_types::events::Outgoing;
use node_limits::{DUE_SEGMENTS, SEGMENTS};

// Puts a SegO behind the others.
fn push_piece(pieces: &mut PieceList, i: u8)
    requires { length pieces.old < 32 }
    ensures { pieces.new ≡ pieces.old ++ i ∷ [] }
{
    let _ = pieces.push(i);
}

/// SegO of every piece.
fn pieces_of(m: &Outgoing) -> PieceList
    ensures { result ≡ pieces_in m.now }
{
    let mut pieces = Table::new();
    for i in 0..last_segment(m.upper.as_slice()) + 1 {
        push_piece(&mut pieces, i);
    }
    pieces
}

// When the round after one at `now` is due.
fn round_after(now: u64, m: &Outgoing) -> u64
    requires { now ≤ 2 ^ 48 }
    ensures { result ≡ round_after_in now m.now }
{
    let ttl = m.ttl;
    now + 20 + 5 * u64::from(ttl)
}

/// A message when it begins.
pub(crate) fn begun(now: u64, m: &Outgoing) -> Sending
    requires { now ≤ 2 ^ 48 }
    ensures { result ≡ begun_in now m.now }
{
    Sending {
        message: m.copied(),
        left: pieces_of(m),
        rounds: 1,
        due: round_after(now, m),
    }
}

// Bit i of a BlockAck.
fn has_bit(block: u32, i: u8) -> bool
    ensures { result ≡ has_bit_in block i }
{
    if i >= 32 {
        return false;
    }
    (block >> i) % 2 == 1
}

/// Takes the pieces away that a BlockAck acknowledges.
pub(crate) fn leave(block: u32, s: &mut Sending)
    ensures { s.new ≡ record s.old { left = left_after block s.old } }
{
    s.left.retain(|i| !has_bit(block, *i));
}

// Whether the next round of a message is due.
fn is_due(now: u64, s: &Sending) -> bool
    ensures { result ≡ is_due_in now s.now }
{
    s.due <= now
}

// Whether a message has had all its rounds.
fn is_last(s: &Sending) -> bool
    ensures { result ≡ is_last_in s.now }
{
    if s.message.dst.is_unicast() {
        s.rounds >= 4
    } else {
        s.rounds >= 3
    }
}

// What a round sends.
fn round_of(s: &Sending) -> PieceList
    ensures { result ≡ round_in s.now }
{
    if s.message.dst.is_unicast() {
        s.left.copied()
    } else {
        pieces_of(&s.message)
    }
}

/// Whether a message sends a round.
pub(crate) fn has_round(now: u64, s: &Sending) -> bool
    ensures { result ≡ has_round_in now s.now }
{
    is_due(now, s) && !is_last(s)
}

/// The same message with what is known of it once more. It takes no memory.
pub(crate) fn again(s: &Sending) -> Sending
    ensures { result ≡ s.now }
{
    Sending {
        message: s.message.copied(),
        left: s.left.copied(),
        rounds: s.rounds,
        due: s.due,
    }
}

/// The pieces of a message that are due at `now`, in ticks of 10 ms, by their SegO in ascending order: to one element those that aren't
/// acknowledged, to several all of them; none before the round is due, or where the message has had all its rounds.
pub fn round_due(now: u64, s: &Sending) -> PieceList
    ensures value { result ≡ (if is_due_in now s.now && not (is_last_in s.now) then round_in s.now else []) }
    ensures length { length result ≤ SEGMENTS }
{
    if has_round(now, s) {
        round_of(s)
    } else {
        PieceList::new()
    }
}

// Puts segments of a message behind the others.
fn push_round(list: &mut DueList, s: &Sending, round: &[u8])
    requires { length list.old + length round.now ≤ DUE_SEGMENTS }
    ensures value { list.new ≡ list.old ++ map (λ i. (s.now.message.name, i)) round.now }
    ensures length { length list.new ≡ length list.old + length round.now }
{
    for i in round {
        let _ = list.push((s.message.name, *i));
    }
}

/// Puts the segments of a message that are due behind the others.
pub(crate) fn push_due(list: &mut DueList, now: u64, s: &Sending)
    requires { length list.old + SEGMENTS ≤ DUE_SEGMENTS }
    ensures value { list.new ≡ list.old ++ segments_due now s.now }
    ensures length { length list.new ≤ length list.old + SEGMENTS }
{
    push_round(list, s, round_due(now, s).as_slice());
}

/// Whether a message is still held at `now`; a round that is due then is counted.
pub(crate) fn step(now: u64, s: &mut Sending) -> bool
    requires { now ≤ 2 ^ 48 }
    ensures { stepped now s.old ≡ (if result then Some s.new else None) }
{
    if !is_due(now, s) {
        return true;
    }
    if is_last(s) {
        return false;
    }
    s.rounds += 1;
    s.due = round_after(now, &s.message);
    true
}
