//! What a call does to the list of messages.
#![tactic(auto)]

ghost use Rattle.std.specs.Prelude.{◌≡◌, ◌^◌, ◌≤◌, ◌<◌, ◌++◌, length, map, take, slice_set, slice_index_or};
ghost use Rattle.std.specs.List.{filter_map, position};
ghost use Rattle.std.specs.Option.{option_to_list};
ghost use Rattle.layer_definitions.specs.Lower.{Fits};
ghost use Rattle.layer_states.specs.Names.{is_name as is_name_in};
ghost use Rattle.layer_states.specs.declared.reassembly.Assembly.{Assembly};
ghost use Rattle.layer_states.specs.Reassembly.{due_ack as due_ack_in, judged, judged_after, live, names_of as names_in, noted, rung, taken, without};

use crate::message::{begun, due_ack, judge, ring};
use arrayvec::ArrayVec;
use layer_states::reassembly::{AckList, Assembly, DueAck, PartHeard, Taken};
use mesh_base::pair::Name;
use node_limits::MESSAGES_IN_PROGRESS;

/// The messages, in the order in which they began.
pub(crate) type Rows = ArrayVec<Assembly, MESSAGES_IN_PROGRESS>;

// The place of a message.
fn place_of(rows: &[Assembly], name: &Name) -> Option<usize>
    ensures { result ≡ position (λ (a : Assembly). is_name_in name.now a.name) rows.now }
{
    rows.iter().position(|a| name.is_same(&a.name))
}

// The names of so many messages as have a place.
fn names_of(rows: &[Assembly]) -> [Name; MESSAGES_IN_PROGRESS]
    requires { length rows.now ≡ MESSAGES_IN_PROGRESS }
    ensures { result ≡ take MESSAGES_IN_PROGRESS (names_in rows.now) }
{
    let mut names = [Name::default(); MESSAGES_IN_PROGRESS];
    for (i, a) in rows.iter().enumerate() {
        names[i] = a.name;
    }
    names
}

/// Drops the messages that aren't in progress any more.
pub(crate) fn expire(rows: &mut Rows, now: u64)
    ensures { rows.new.items ≡ live now rows.old.items }
{
    rows.retain(|a| now.saturating_sub(a.renewed) < 1000);
}

/// Drops the message of this name.
pub(crate) fn drop_name(rows: &mut Rows, name: &Name)
    ensures { rows.new.items ≡ without name.now rows.old.items }
{
    rows.retain(|a| !name.is_same(&a.name));
}

// What becomes of a segment of the message at a place.
fn judge_at(rows: &mut [Assembly], place: usize, now: u64, h: &PartHeard) -> Taken
    requires place { place < length rows.old }
    requires fits { Fits h.now.part }
    requires time { now ≤ 2 ^ 48 }
    ensures value { (d : Assembly) → result ≡ judged (slice_index_or rows.old place d) now h.now }
    ensures state { (d : Assembly)
        → rows.new ≡ slice_set rows.old place (judged_after (slice_index_or rows.old place d) now h.now) }
{
    judge(&mut rows[place], now, h)
}

/// What becomes of a segment among the messages in progress.
pub(crate) fn take_in(rows: &mut Rows, now: u64, h: &PartHeard) -> Taken
    requires fits { Fits h.now.part }
    requires time { now ≤ 2 ^ 48 }
    ensures value { result ≡ taken rows.old.items now h.now }
    ensures state { rows.new.items ≡ noted rows.old.items now h.now }
{
    match place_of(rows.as_slice(), &h.name) {
        Some(place) => return judge_at(rows.as_mut_slice(), place, now, h),
        None => {}
    }
    if rows.is_full() {
        return Taken::NoRoom {
            held: names_of(rows.as_slice()),
        };
    }
    let mut message = begun(now, h);
    let taken = judge(&mut message, now, h);
    rows.push(message);
    taken
}

// Puts an acknowledgment, if there is one, behind the others.
fn push_due(list: &mut AckList, ack: Option<DueAck>)
    requires { length list.old < MESSAGES_IN_PROGRESS }
    ensures { list.new ≡ list.old ++ option_to_list ack }
{
    if let Some(ack) = ack {
        let _ = list.push(ack);
    }
}

/// The acknowledgments that are due of these messages.
pub(crate) fn due_acks(rows: &[Assembly], now: u64) -> AckList
    requires { length rows.now ≤ MESSAGES_IN_PROGRESS }
    ensures { result ≡ filter_map (due_ack_in now) rows.now }
{
    let mut list = AckList::new();
    for a in rows {
        push_due(&mut list, due_ack(now, a));
    }
    list
}

/// Stops each acknowledgment timer that ends.
pub(crate) fn ring_all(rows: &mut [Assembly], now: u64)
    ensures { rows.new ≡ map (rung now) rows.old }
{
    for a in rows.iter_mut() {
        ring(now, a);
    }
}
