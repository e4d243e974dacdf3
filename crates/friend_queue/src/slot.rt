//! A friendship, its Polls and its list (Mesh Profile 1.0.1, sections 3.6.6.3 and 3.6.6.4).
#![tactic(auto)]

ghost use Rattle.std.specs.Prelude.{◌≡◌, ◌-◌, ◌^◌, ◌≤◌, ◌&&◌, nat_lt, slice_index, if◌then◌else◌};
ghost use Rattle.std.specs.List.{list_any};
ghost use Rattle.layer_states.specs.Friends.{has_address as has_address_in, heard_of as heard_in, is_address as is_address_in, is_again as is_again_in, is_cleared as is_cleared_in, is_friend as is_friend_in, is_friendship as is_friendship_in, is_noted as is_noted_in, is_of as is_of_in, is_stored as is_stored_in, list_changed, list_with, list_without, poll_answer as poll_answer_in, poll_clear as poll_clear_in, polled, queued, renewed as renewed_in, with_address, with_kept};
ghost use Rattle.layer_states.specs.declared.friends.QueueEntry.TheVariants as Q;

use crate::queue::{
    answer_again, answer_next, drop_answered, enqueue_heard, enqueue_own, queue_left,
};
use layer_states::friends::{AddressTable, Friendship, KeptPdu, OwnShort, PollAnswer};
use mesh_base::address::Address;
use mesh_base::fields::{Heard, NetFields};
use mesh_base::octets::Octets;
use mesh_base::pair::Name;
use node_limits::FRIEND_ADDRESSES;

/// Whether a Poll came.
pub(crate) fn is_friendship(s: &Friendship) -> bool
    ensures { result ≡ is_friendship_in s.now }
{
    s.fsn.is_some()
}

/// Whether it is that of this Low Power node.
pub(crate) fn is_of(lpn: Address, s: &Friendship) -> bool
    ensures { result ≡ is_of_in lpn s.now }
{
    s.lpn.0 == lpn.0
}

/// Whether it is a friendship with this Low Power node.
pub(crate) fn is_friend(lpn: Address, s: &Friendship) -> bool
    ensures { result ≡ is_friend_in lpn s.now }
{
    is_of(lpn, s) && is_friendship(s)
}

/// Whether an address is one of the Low Power node's elements.
pub(crate) fn has_address(s: &Friendship, a: Address) -> bool
    ensures { result ≡ has_address_in s.now a }
{
    let behind = u32::from(s.lpn.0) + u32::from(s.request.elements);
    s.lpn.0 <= a.0 && u32::from(a.0) < behind
}

// Whether a list has an address.
fn has(list: &[Address], a: Address) -> bool
    ensures { result ≡ list_any (is_address_in a) list.now }
{
    list.iter().any(|b| a.0 == b.0)
}

// Whether the Poll before had this FSN.
fn is_again(fsn: bool, s: &Friendship) -> bool
    ensures { result ≡ is_again_in fsn s.now }
{
    match s.fsn {
        None => false,
        Some(last) => fsn == last,
    }
}

/// What answers a Poll.
pub(crate) fn poll_answer(fsn: bool, s: &Friendship) -> PollAnswer
    ensures { result ≡ poll_answer_in fsn s.now }
{
    if is_again(fsn, s) {
        answer_again(&s.kept)
    } else {
        answer_next(queue_left(s))
    }
}

/// The DST and the LPNCounter of the Clear that a Poll asks for.
pub(crate) fn poll_clear(s: &Friendship) -> Option<(Address, u16)>
    ensures { result ≡ poll_clear_in s.now }
{
    let previous = s.request.previous;
    if s.fsn.is_none() && previous.is_unicast() && previous.0 != s.own.0 {
        Some((previous, s.request.lpn_counter))
    } else {
        None
    }
}

// When it goes, if nothing more is heard of the Low Power node.
fn renewed(now: u64, s: &Friendship) -> u64
    requires { now ≤ 2 ^ 48 }
    ensures { result ≡ renewed_in now s.now }
{
    let timeout = s.request.poll_timeout;
    now + 10 * u64::from(timeout)
}

// A Poll.
fn poll(s: &mut Friendship, now: u64, fsn: bool)
    requires { now ≤ 2 ^ 48 }
    ensures { s.new ≡ polled now fsn s.old }
{
    s.until = renewed(now, s);
    if is_again(fsn, s) {
        return;
    }
    drop_answered(s);
    s.fsn = Some(fsn);
    s.answered = !s.queue.entries.is_empty();
    s.kept = None;
}

/// A Poll of this Low Power node.
pub(crate) fn poll_of(s: &mut Friendship, now: u64, lpn: Address, fsn: bool)
    requires { now ≤ 2 ^ 48 }
    ensures { s.new ≡ (if is_of_in lpn s.old then polled now fsn s.old else s.old) }
{
    if is_of(lpn, s) {
        poll(s, now, fsn);
    }
}

/// Whether octets are noted for the last Poll.
pub(crate) fn is_noted(lpn: Address, fsn: bool, s: &Friendship) -> bool
    ensures { result ≡ is_noted_in lpn fsn s.now }
{
    is_of(lpn, s) && is_again(fsn, s) && s.kept.is_none()
}

/// Notes the octets that answered the last Poll.
pub(crate) fn keep_of(s: &mut Friendship, lpn: Address, fsn: bool, name: &Name, pdu: &Octets<29>)
    ensures { s.new ≡ (if is_noted_in lpn fsn s.old then with_kept name.now pdu.now s.old else s.old) }
{
    if is_noted(lpn, fsn, s) {
        s.kept = Some(KeptPdu {
            name: *name,
            pdu: pdu.copied(),
        });
    }
}

// Whether a transport PDU is no segment.
fn is_unsegmented(tpdu: &[u8]) -> bool
    ensures { result ≡ nat_lt (slice_index tpdu.now 0) (2 ^ 7) }
{
    match tpdu.first() {
        None => true,
        Some(octet) => *octet < 0x80,
    }
}

// Whether a PDU heard is stored.
fn is_stored(f: &NetFields, s: &Friendship) -> bool
    ensures { result ≡ is_stored_in f.now s.now }
{
    is_friendship(s)
        && is_unsegmented(f.tpdu.as_slice())
        && f.ttl >= 2
        && !has_address(s, f.src)
        && (has_address(s, f.dst) || has(s.list.as_slice(), f.dst))
}

/// Stores a PDU heard, if it is for this Low Power node.
pub(crate) fn put_of(s: &mut Friendship, f: &NetFields)
    ensures { s.new
        ≡ (if is_stored_in f.now s.old then queued (Q.Heard (record f.now { ttl = f.now.ttl - 1 })) s.old else s.old) }
{
    if is_stored(f, s) {
        enqueue_heard(s, f);
    }
}

/// Whether it is a friendship with the node of this address.
pub(crate) fn is_befriended(s: &Friendship, a: Address) -> bool
    ensures { result ≡ (is_friendship_in s.now && has_address_in s.now a) }
{
    is_friendship(s) && has_address(s, a)
}

/// Stores an own message, if it is for this Low Power node.
pub(crate) fn put_own_of(s: &mut Friendship, m: &OwnShort)
    ensures { s.new
        ≡ (if is_friendship_in s.old && has_address_in s.old m.now.dst then queued (Q.Own m.now) s.old else s.old) }
{
    if is_befriended(s, m.dst) {
        enqueue_own(s, m);
    }
}

// Adds an address to a list, if there is room and it isn't there.
fn add(list: &mut AddressTable, a: Address)
    ensures { list.new ≡ with_address list.old a }
{
    if has(list.as_slice(), a) || list.len() >= FRIEND_ADDRESSES {
        return;
    }
    let _ = list.push(a);
}

// Adds addresses to a list.
fn add_all(list: &mut AddressTable, added: &[Address])
    ensures { list.new ≡ list_with list.old added.now }
{
    for a in added {
        add(list, *a);
    }
}

// Takes addresses from a list.
fn remove_all(list: &mut AddressTable, removed: &[Address])
    ensures { list.new ≡ list_without list.old removed.now }
{
    list.retain(|a| !has(removed, *a));
}

/// A List Add of this Low Power node.
pub(crate) fn list_add_of(s: &mut Friendship, now: u64, lpn: Address, added: &[Address])
    requires { now ≤ 2 ^ 48 }
    ensures { s.new
        ≡ (if is_friend_in lpn s.old then list_changed now (λ list. list_with list added.now) s.old else s.old) }
{
    if is_friend(lpn, s) {
        s.until = renewed(now, s);
        add_all(&mut s.list, added);
    }
}

/// A List Remove of this Low Power node.
pub(crate) fn list_remove_of(s: &mut Friendship, now: u64, lpn: Address, removed: &[Address])
    requires { now ≤ 2 ^ 48 }
    ensures { s.new
        ≡ (if is_friend_in lpn s.old then list_changed now (λ list. list_without list removed.now) s.old else s.old) }
{
    if is_friend(lpn, s) {
        s.until = renewed(now, s);
        remove_all(&mut s.list, removed);
    }
}

/// Whether a Clear ends it.
pub(crate) fn is_cleared(lpn: Address, counter: u16, s: &Friendship) -> bool
    ensures { result ≡ is_cleared_in lpn counter s.now }
{
    is_friend(lpn, s) && counter.wrapping_sub(s.request.lpn_counter) < 256
}

/// What is heard under its credentials.
pub(crate) fn heard_of(s: &Friendship) -> Heard
    ensures { result ≡ heard_in s.now }
{
    Heard {
        index: s.net,
        lpn: Some(s.lpn),
        fresh: false,
        material: s.material,
    }
}
