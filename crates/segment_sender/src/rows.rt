//! What a call does to the list of messages.
#![tactic(auto)]

ghost use Rattle.std.specs.Prelude.{◌≡◌, ◌^◌, ◌+◌, ◌≤◌, ◌<◌, ◌++◌, ◌∷◌, [], if◌then◌else◌, filter, length, slice_index_or};
ghost use Rattle.std.specs.List.{filter_map, position};
ghost use Rattle.layer_states.specs.declared.sending.Sending.{Sending};
ghost use Rattle.layer_states.specs.Sending.{ack_of as ack_in, acked, all_due as all_due_in, belongs_to as belongs_in, left_at, rows_acked, stepped};
ghost use Rattle.segment_sender.specs.Held.{has_round as has_round_in};

use crate::message::{again, has_round, leave, push_due, step};
use arrayvec::ArrayVec;
use layer_states::sending::{Acked, DueList, Sending};
use mesh_base::address::Address;
use node_limits::OWN_MESSAGES;

/// The messages, in the order in which they began.
pub(crate) type Rows = ArrayVec<Sending, OWN_MESSAGES>;

// Whether an acknowledgment belongs to a message.
fn belongs_to(from: Address, obo: bool, seq_zero: u16, s: &Sending) -> bool
    ensures { result ≡ belongs_in from obo seq_zero s.now }
{
    s.message.name.pair.seq % 0x2000 == u32::from(seq_zero) && (obo || s.message.dst.0 == from.0)
}

// The place of the first message that an acknowledgment belongs to.
fn place_of(rows: &[Sending], from: Address, obo: bool, seq_zero: u16) -> Option<usize>
    ensures { result ≡ position (belongs_in from obo seq_zero) rows.now }
{
    rows.iter().position(|s| belongs_to(from, obo, seq_zero, s))
}

// What an acknowledgment does to the message at a place.
fn ack_at(rows: &mut Rows, place: usize, block: u32) -> Acked
    requires { place < length rows.old.items }
    ensures value { (d : Sending) → result ≡ ack_in block (slice_index_or rows.old.items place d) }
    ensures state { (d : Sending)
        → rows.new.items ≡ left_at rows.old.items place block (slice_index_or rows.old.items place d) }
{
    if block == 0 {
        rows.remove(place);
        return Acked::Cancelled;
    }
    leave(block, &mut rows.as_mut_slice()[place]);
    if rows.as_slice()[place].left.is_empty() {
        rows.remove(place);
        return Acked::Whole;
    }
    Acked::Part
}

/// What an acknowledgment does to the messages.
pub(crate) fn acknowledge(
    rows: &mut Rows,
    from: Address,
    obo: bool,
    seq_zero: u16,
    block: u32,
) -> Acked
    ensures value { result ≡ acked rows.old.items from obo seq_zero block }
    ensures state { rows.new.items ≡ rows_acked rows.old.items from obo seq_zero block }
{
    match place_of(rows.as_slice(), from, obo, seq_zero) {
        Some(place) => ack_at(rows, place, block),
        None => Acked::Stranger,
    }
}

/// The segments of all messages that are due.
pub(crate) fn all_due(rows: &[Sending], now: u64) -> DueList
    requires { length rows.now ≤ OWN_MESSAGES }
    ensures { result ≡ all_due_in now rows.now }
{
    let mut list = DueList::new();
    for s in rows {
        push_due(&mut list, now, s);
    }
    list
}

/// Counts the rounds that are due, and drops the messages that have had theirs.
pub(crate) fn step_all(rows: &mut Rows, now: u64)
    requires { now ≤ 2 ^ 48 }
    ensures { rows.new.items ≡ filter_map (stepped now) rows.old.items }
{
    rows.retain(|s| step(now, s));
}

// Puts a message behind the others, if it sends a round.
fn push_round(list: &mut Rows, now: u64, s: &Sending)
    requires { length list.old.items < OWN_MESSAGES }
    ensures value { list.new.items ≡ list.old.items ++ (if has_round_in now s.now then s.now ∷ [] else []) }
    ensures few { length list.new.items ≤ length list.old.items + 1 }
{
    if has_round(now, s) {
        list.push(again(s));
    }
}

/// The messages that send a round.
pub(crate) fn all_rounds(rows: &[Sending], now: u64) -> Rows
    requires { length rows.now ≤ OWN_MESSAGES }
    ensures { result.items ≡ filter (has_round_in now) rows.now }
{
    let mut list = Rows::new();
    for s in rows {
        push_round(&mut list, now, s);
    }
    list
}
