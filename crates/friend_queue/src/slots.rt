//! What a call does to the list of friendships and offers.
#![tactic(auto)]

ghost use Rattle.std.specs.Prelude.{◌≡◌, ◌^◌, ◌≤◌, ◌<◌, ◌++◌, ◌&&◌, ◌==◌, ◌+◌, ◌-◌, [], ◌∷◌, not, nat_lt, length, filter, count_by, find, option_copied};
ghost use Rattle.std.specs.List.{list_any};
ghost use Rattle.layer_states.specs.declared.friends.Friendship.{Friendship};
ghost use Rattle.layer_states.specs.declared.friends.QueueEntry.TheVariants as Q;
ghost use Rattle.layer_states.specs.Friends.{change_where, friend_keys, has_address as has_address_in, is_befriended as is_befriended_in, is_cleared as is_cleared_in, is_friend as is_friend_in, is_friendship as is_friendship_in, is_noted as is_noted_in, is_of as is_of_in, is_stored as is_stored_in, list_changed, list_with, list_without, others, poll_result as poll_result_in, poll_timeouts, polled, queued, request_fault as request_fault_in, standing, with_kept};
ghost use Rattle.mesh_base.specs.declared.fields.Heard.{Heard};

use crate::request::field_outside;
use crate::slot::{
    heard_of, is_befriended, is_cleared, is_friend, is_friendship, is_noted, is_of, keep_of,
    list_add_of, list_remove_of, poll_answer, poll_clear, poll_of, put_of, put_own_of,
};
use arrayvec::ArrayVec;
use layer_states::friends::{FriendFault, Friendship, OwnShort, PollList, Polled};
use mesh_base::address::Address;
use mesh_base::control::Request;
use mesh_base::fields::NetFields;
use mesh_base::octets::Octets;
use mesh_base::pair::Name;
use mesh_base::table::HeardList;
use node_limits::FRIENDSHIPS;

/// The friendships and offers, in the order of the offers.
pub(crate) type Slots = ArrayVec<Friendship, FRIENDSHIPS>;

/// Drops those whose time is over.
pub(crate) fn expire(slots: &mut Slots, now: u64)
    ensures { slots.new.items ≡ standing now slots.old.items }
{
    slots.retain(|s| now < s.until);
}

/// Drops those of a Low Power node.
pub(crate) fn drop_of(slots: &mut Slots, lpn: Address)
    ensures { slots.new.items ≡ others lpn slots.old.items }
{
    slots.retain(|s| !is_of(lpn, s));
}

/// Drops the friendship that a Clear ends.
pub(crate) fn drop_cleared(slots: &mut Slots, lpn: Address, counter: u16)
    ensures { slots.new.items ≡ filter (λ (s : Friendship). not (is_cleared_in lpn counter s)) slots.old.items }
{
    slots.retain(|s| !is_cleared(lpn, counter, s));
}

// Whether one stands that is of another Low Power node.
fn is_other(now: u64, lpn: Address, s: &Friendship) -> bool
    ensures { result ≡ (nat_lt now s.now.until && not (is_of_in lpn s.now)) }
{
    now < s.until && !is_of(lpn, s)
}

// How many pass both tests.
fn count_others(slots: &[Friendship], now: u64, lpn: Address) -> usize
    ensures value { result ≡ count_by (λ (s : Friendship). nat_lt now s.until && not (is_of_in lpn s)) slots.now }
    ensures most { result ≤ length slots.now }
{
    slots.iter().filter(|s| is_other(now, lpn, s)).count()
}

// How many of other Low Power nodes stand.
fn others_held(slots: &[Friendship], now: u64, lpn: Address) -> usize
    ensures value { result ≡ length (others lpn (standing now slots.now)) }
    ensures most { result ≤ length slots.now }
{
    count_others(slots, now, lpn)
}

/// Why a Request is refused, if it is.
pub(crate) fn request_fault(
    slots: &[Friendship],
    now: u64,
    lpn: Address,
    r: &Request,
) -> Option<FriendFault>
    requires { length slots.now ≤ FRIENDSHIPS }
    ensures { result ≡ request_fault_in now slots.now lpn r.now }
{
    let held = others_held(slots, now, lpn);
    if held >= FRIENDSHIPS {
        return Some(FriendFault::NoSlot { held: held as u32 });
    }
    match field_outside(lpn, r) {
        Some(field) => Some(FriendFault::BadRequest { field }),
        None => None,
    }
}

// Whether one stands that is of a Low Power node.
fn is_standing_of(now: u64, lpn: Address, s: &Friendship) -> bool
    ensures { result ≡ (nat_lt now s.now.until && is_of_in lpn s.now) }
{
    now < s.until && is_of(lpn, s)
}

// The first that stands of a Low Power node.
fn find_standing(slots: &[Friendship], now: u64, lpn: Address) -> Option<&Friendship>
    ensures { option_copied result ≡ find (λ (s : Friendship). nat_lt now s.until && is_of_in lpn s) slots.now }
{
    slots.iter().find(|s| is_standing_of(now, lpn, s))
}

/// What a Poll leads to.
pub(crate) fn poll_result(
    slots: &[Friendship],
    now: u64,
    lpn: Address,
    fsn: bool,
) -> Result<Polled, FriendFault>
    ensures { result ≡ poll_result_in slots.now now lpn fsn }
{
    match find_standing(slots, now, lpn) {
        Some(s) => Ok(Polled {
            answer: poll_answer(fsn, s),
            clear: poll_clear(s),
        }),
        None => Err(FriendFault::Stranger),
    }
}

/// A Poll of a Low Power node.
pub(crate) fn poll_all(slots: &mut [Friendship], now: u64, lpn: Address, fsn: bool)
    requires { now ≤ 2 ^ 48 }
    ensures { slots.new ≡ change_where (is_of_in lpn) (polled now fsn) slots.old }
{
    for s in slots.iter_mut() {
        poll_of(s, now, lpn, fsn);
    }
}

/// Whether octets are noted for the last Poll of a Low Power node.
pub(crate) fn has_noted(slots: &[Friendship], lpn: Address, fsn: bool) -> bool
    ensures { result ≡ list_any (is_noted_in lpn fsn) slots.now }
{
    slots.iter().any(|s| is_noted(lpn, fsn, s))
}

/// Notes octets for the last Poll of a Low Power node.
pub(crate) fn keep_all(
    slots: &mut [Friendship],
    lpn: Address,
    fsn: bool,
    name: &Name,
    pdu: &Octets<29>,
)
    ensures { slots.new ≡ change_where (is_noted_in lpn fsn) (with_kept name.now pdu.now) slots.old }
{
    for s in slots.iter_mut() {
        keep_of(s, lpn, fsn, name, pdu);
    }
}

/// Stores a PDU heard for each Low Power node that it is for.
pub(crate) fn put_all(slots: &mut [Friendship], f: &NetFields)
    ensures { slots.new
        ≡ change_where (is_stored_in f.now) (queued (Q.Heard (record f.now { ttl = f.now.ttl - 1 }))) slots.old }
{
    for s in slots.iter_mut() {
        put_of(s, f);
    }
}

/// Stores an own message for each Low Power node that it is for.
pub(crate) fn put_own_all(slots: &mut [Friendship], m: &OwnShort)
    ensures { slots.new
        ≡ change_where (λ s. is_friendship_in s && has_address_in s m.now.dst) (queued (Q.Own m.now)) slots.old }
{
    for s in slots.iter_mut() {
        put_own_of(s, m);
    }
}

/// Whether an address is one of a friendship.
pub(crate) fn has_befriended(slots: &[Friendship], a: Address) -> bool
    ensures { result ≡ is_befriended_in slots.now a }
{
    slots.iter().any(|s| is_befriended(s, a))
}

// Whether a friendship with a Low Power node stands.
fn is_standing_friend(now: u64, lpn: Address, s: &Friendship) -> bool
    ensures { result ≡ (nat_lt now s.now.until && is_friend_in lpn s.now) }
{
    now < s.until && is_friend(lpn, s)
}

// Whether one passes both tests.
fn any_standing(slots: &[Friendship], now: u64, lpn: Address) -> bool
    ensures { result ≡ list_any (λ (s : Friendship). nat_lt now s.until && is_friend_in lpn s) slots.now }
{
    slots.iter().any(|s| is_standing_friend(now, lpn, s))
}

/// Whether a friendship with a Low Power node stands.
pub(crate) fn has_friend(slots: &[Friendship], now: u64, lpn: Address) -> bool
    ensures { result ≡ list_any (is_friend_in lpn) (standing now slots.now) }
{
    any_standing(slots, now, lpn)
}

/// A List Add of a Low Power node.
pub(crate) fn list_add_all(slots: &mut [Friendship], now: u64, lpn: Address, added: &[Address])
    requires { now ≤ 2 ^ 48 }
    ensures { slots.new
        ≡ change_where (is_friend_in lpn) (list_changed now (λ list. list_with list added.now)) slots.old }
{
    for s in slots.iter_mut() {
        list_add_of(s, now, lpn, added);
    }
}

/// A List Remove of a Low Power node.
pub(crate) fn list_remove_all(slots: &mut [Friendship], now: u64, lpn: Address, removed: &[Address])
    requires { now ≤ 2 ^ 48 }
    ensures { slots.new
        ≡ change_where (is_friend_in lpn) (list_changed now (λ list. list_without list removed.now)) slots.old }
{
    for s in slots.iter_mut() {
        list_remove_of(s, now, lpn, removed);
    }
}

/// Whether a Clear ends a friendship.
pub(crate) fn has_cleared(slots: &[Friendship], lpn: Address, counter: u16) -> bool
    ensures { result ≡ list_any (is_cleared_in lpn counter) slots.now }
{
    slots.iter().any(|s| is_cleared(lpn, counter, s))
}

// Puts the friendship credentials behind the others.
fn push_credentials(list: &mut HeardList, s: &Friendship)
    requires { length list.old < 10 }
    ensures { list.new ≡ list.old ++ friend_keys (s.now ∷ []) }
{
    let _ = list.push(heard_of(s));
}

/// The friendship credentials, whatever their NID.
pub(crate) fn credentials(slots: &[Friendship]) -> HeardList
    requires { length slots.now ≤ FRIENDSHIPS }
    ensures value { result ≡ friend_keys slots.now }
    ensures length { length result ≤ FRIENDSHIPS }
{
    let mut list = HeardList::new();
    for s in slots {
        push_credentials(&mut list, s);
    }
    list
}

// Puts the friendship credentials behind the others, if they have this NID.
fn push_heard(list: &mut HeardList, nid: u8, s: &Friendship)
    requires { length list.old < 10 }
    ensures value { list.new ≡ list.old ++ filter (λ (h : Heard). h.material.nid == nid) (friend_keys (s.now ∷ [])) }
    ensures length { length list.new ≤ length list.old + 1 }
{
    if s.material.nid == nid {
        push_credentials(list, s);
    }
}

/// The friendship credentials with this NID.
pub(crate) fn heard_all(slots: &[Friendship], nid: u8) -> HeardList
    requires { length slots.now ≤ FRIENDSHIPS }
    ensures value { result ≡ filter (λ (h : Heard). h.material.nid == nid) (friend_keys slots.now) }
    ensures length { length result ≤ FRIENDSHIPS }
{
    let mut list = HeardList::new();
    for s in slots {
        push_heard(&mut list, nid, s);
    }
    list
}

// Puts a friendship behind the others, with its PollTimeout.
fn push_poll(list: &mut PollList, s: &Friendship)
    requires { length list.old < FRIENDSHIPS }
    ensures value { list.new ≡ list.old ++ poll_timeouts (s.now ∷ []) }
    ensures length { length list.new ≤ length list.old + 1 }
{
    if is_friendship(s) {
        let _ = list.push((s.lpn, s.request.poll_timeout));
    }
}

/// The Low Power nodes of the friendships, with their PollTimeout.
pub(crate) fn poll_list(slots: &[Friendship]) -> PollList
    requires { length slots.now ≤ FRIENDSHIPS }
    ensures { result ≡ poll_timeouts slots.now }
{
    let mut list = PollList::new();
    for s in slots {
        push_poll(&mut list, s);
    }
    list
}
