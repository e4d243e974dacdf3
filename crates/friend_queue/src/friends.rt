//! The table of friendships and offers.
#![tactic(auto)]

ghost use Rattle.std.specs.Prelude.{◌≡◌, ◌≢◌, ◌^◌, ◌≤◌, ◌==◌, [], length, filter, IsTrue, OnErr};
ghost use Rattle.std.specs.List.{list_any};
ghost use Rattle.layer_states.specs.Friends.{after, friend_keys, friend_result, is_befriended, is_cleared, is_friend, is_noted, offered, poll_result as poll_result_in, poll_timeouts, standing};
ghost use Rattle.layer_states.specs.Friends as friends;
ghost use Rattle.mesh_base.specs.declared.fields.Heard.{Heard};

use crate::request::{offer_of, offer_slot};
use crate::slots::{
    Slots, credentials, drop_cleared, drop_of, expire, has_befriended, has_cleared, has_friend,
    has_noted, heard_all, keep_all, list_add_all, list_remove_all, poll_all, poll_list,
    poll_result, put_all, put_own_all, request_fault,
};
use arrayvec::ArrayVec;
use layer_states::friends::{FriendFault, OwnShort, PollList, Polled};
use mesh_base::address::Address;
use mesh_base::control::{Offer, Request};
use mesh_base::fields::NetFields;
use mesh_base::keys::NetKeyRow;
use mesh_base::octets::Octets;
use mesh_base::pair::Name;
use mesh_base::table::HeardList;
use node_limits::FRIENDSHIPS;
use std::marker::Model;

/// At most `FRIENDSHIPS` friendships and offers, and the number of offers. A clause sees it as the list of them, in the order of
/// the offers, with that number modulo 2^16.
///
/// It stands for the calls on it so far: a new one for none, and after a call it is `after` of what it was and that
/// call. `now` is in ticks of 10 ms, at most 2^48; `lpn` is the address of a Low Power node's first element.
#[derive(Drop)]
pub struct Friends {
    pub(crate) slots: Slots,
    offers: u16,
}

impl Model for Friends {
    ghost use Rattle.layer_states.specs.Friends.{FriendsState};

    ghost Value = { FriendsState };

    ghost view = { λ f. record { slots = f.slots.items; offers = f.offers } };
}

impl Friends {
    /// No friendships, no offers.
    pub fn new() -> Friends
        ensures value { result ≡ record { slots = []; offers = 0 } }
    {
        Friends {
            slots: ArrayVec::new(),
            offers: 0,
        }
    }

    /// The offer that answers a Friend Request of a Low Power node, heard under the network key `net`; `own` is the
    /// address of this node's first element. What stood for the same Low Power node goes. `NoSlot` exactly where two
    /// others stand; else `BadRequest` exactly where a field of the Request is outside its range.
    pub fn request(
        &mut self,
        now: u64,
        net: &NetKeyRow,
        own: Address,
        lpn: Address,
        r: &Request,
    ) -> Result<Offer, FriendFault>
        requires { now ≤ 2 ^ 48 }
        ensures value { result ≡ offered self.old now lpn r.now }
        ensures state { self.new ≡ after self.old (friends.request now net.now own lpn r.now) }
        ensures unchanged { OnErr result (self.new ≡ self.old) }
    {
        match request_fault(self.slots.as_slice(), now, lpn, r) {
            Some(fault) => return Err(fault),
            None => {}
        }
        let offer = offer_of(self.offers);
        let slot = offer_slot(self.offers, now, net, own, lpn, r);
        expire(&mut self.slots, now);
        drop_of(&mut self.slots, lpn);
        self.slots.push(slot);
        self.offers = self.offers.wrapping_add(1);
        Ok(offer)
    }

    /// What a Friend Poll of a Low Power node leads to; the first one makes the friendship. `Stranger` exactly where
    /// neither a friendship nor an offer of that node stands.
    pub fn poll(&mut self, now: u64, lpn: Address, fsn: bool) -> Result<Polled, FriendFault>
        requires { now ≤ 2 ^ 48 }
        ensures value { result ≡ poll_result_in self.old.slots now lpn fsn }
        ensures state { self.new ≡ after self.old (friends.poll now lpn fsn) }
        ensures unchanged { OnErr result (self.new ≡ self.old) }
    {
        let polled = poll_result(self.slots.as_slice(), now, lpn, fsn)?;
        expire(&mut self.slots, now);
        poll_all(self.slots.as_mut_slice(), now, lpn, fsn);
        Ok(polled)
    }

    /// Notes the octets that answered the Poll of a Low Power node with this FSN; `name` is their SRC, IV Index and
    /// SEQ. True exactly where a friendship with that node stands, its last Poll has that FSN, and no octets are noted
    /// for it yet; else nothing changes.
    pub fn keep(&mut self, lpn: Address, fsn: bool, name: &Name, pdu: &Octets<29>) -> bool
        ensures value { result ≡ list_any (is_noted lpn fsn) self.old.slots }
        ensures state { self.new ≡ after self.old (friends.keep lpn fsn name.now pdu.now) }
    {
        let noted = has_noted(self.slots.as_slice(), lpn, fsn);
        keep_all(self.slots.as_mut_slice(), lpn, fsn, name, pdu);
        noted
    }

    /// Stores a network PDU of another node, with its TTL less one, for each friendship that it is for: it is no
    /// segment, its TTL is 2 or more, it isn't from that Low Power node, and it goes to one of that node's addresses
    /// or of its list. It wasn't read by friendship credentials, and the message cache didn't hold it.
    pub fn put(&mut self, f: &NetFields)
        ensures state { self.new ≡ after self.old (friends.put f.now) }
    {
        put_all(self.slots.as_mut_slice(), f);
    }

    /// Stores an own message for each friendship that its DST belongs to; `Stranger` exactly where there is none.
    pub fn put_own(&mut self, m: &OwnShort) -> Result<(), FriendFault>
        ensures value { result ≡ friend_result (is_befriended self.old.slots m.now.dst) }
        ensures state { self.new ≡ after self.old (friends.put_own m.now) }
        ensures unchanged { OnErr result (self.new ≡ self.old) }
    {
        if !has_befriended(self.slots.as_slice(), m.dst) {
            return Err(FriendFault::Stranger);
        }
        put_own_all(self.slots.as_mut_slice(), m);
        Ok(())
    }

    /// Adds addresses to the list of a Low Power node, each once, as long as there is a place. `Stranger` exactly
    /// where no friendship with that node stands.
    pub fn list_add(&mut self, now: u64, lpn: Address, a: &[Address]) -> Result<(), FriendFault>
        requires { now ≤ 2 ^ 48 }
        ensures value { result ≡ friend_result (list_any (is_friend lpn) (standing now self.old.slots)) }
        ensures state { self.new ≡ after self.old (friends.list_add now lpn a.now) }
        ensures unchanged { OnErr result (self.new ≡ self.old) }
    {
        if !has_friend(self.slots.as_slice(), now, lpn) {
            return Err(FriendFault::Stranger);
        }
        expire(&mut self.slots, now);
        list_add_all(self.slots.as_mut_slice(), now, lpn, a);
        Ok(())
    }

    /// Takes addresses from the list of a Low Power node. `Stranger` exactly where no friendship with that node stands.
    pub fn list_remove(&mut self, now: u64, lpn: Address, a: &[Address]) -> Result<(), FriendFault>
        requires { now ≤ 2 ^ 48 }
        ensures value { result ≡ friend_result (list_any (is_friend lpn) (standing now self.old.slots)) }
        ensures state { self.new ≡ after self.old (friends.list_remove now lpn a.now) }
        ensures unchanged { OnErr result (self.new ≡ self.old) }
    {
        if !has_friend(self.slots.as_slice(), now, lpn) {
            return Err(FriendFault::Stranger);
        }
        expire(&mut self.slots, now);
        list_remove_all(self.slots.as_mut_slice(), now, lpn, a);
        Ok(())
    }

    /// Ends the friendship with a Low Power node. `Stranger` exactly where none stands, or `counter`, the Clear's
    /// LPNCounter, isn't 0 to 255 above that of the friendship's Request, modulo 2^16.
    pub fn clear(&mut self, lpn: Address, counter: u16) -> Result<(), FriendFault>
        ensures value { result ≡ friend_result (list_any (is_cleared lpn counter) self.old.slots) }
        ensures state { self.new ≡ after self.old (friends.clear lpn counter) }
        ensures unchanged { OnErr result (self.new ≡ self.old) }
    {
        if !has_cleared(self.slots.as_slice(), lpn, counter) {
            return Err(FriendFault::Stranger);
        }
        drop_cleared(&mut self.slots, lpn, counter);
        Ok(())
    }

    /// Friendships and offers go whose time is over.
    pub fn tick(&mut self, now: u64)
        ensures state { self.new ≡ after self.old (friends.tick now) }
    {
        expire(&mut self.slots, now);
    }

    /// The credentials of all friendships and offers, in the order of the offers.
    pub fn credentials(&self) -> HeardList
        ensures value { result ≡ friend_keys self.now.slots }
        ensures length { length result ≤ FRIENDSHIPS }
    {
        credentials(self.slots.as_slice())
    }

    /// The friendship credentials with this NID, in the order of the offers.
    pub fn heard(&self, nid: u8) -> HeardList
        ensures value { result ≡ filter (λ (h : Heard). h.material.nid == nid) (friend_keys self.now.slots) }
        ensures length { length result ≤ FRIENDSHIPS }
    {
        heard_all(self.slots.as_slice(), nid)
    }

    /// Whether an address is one of a friendship that stands.
    pub fn belongs(&self, a: Address) -> bool
        ensures value { result ≡ is_befriended self.now.slots a }
    {
        has_befriended(self.slots.as_slice(), a)
    }

    /// The address and the PollTimeout of each friendship that stands.
    pub fn polls(&self) -> PollList
        ensures value { result ≡ poll_timeouts self.now.slots }
    {
        poll_list(self.slots.as_slice())
    }

    /// Ends all friendships and offers. The number of offers is as before.
    pub fn end(&mut self)
        ensures state { self.new ≡ after self.old friends.end_all }
    {
        self.slots.clear();
    }
}
