//! The friendships of a node.
#![tactic(auto)]

ghost use Rattle.std.specs.Prelude.{◌≡◌, ℕ, ◌≤◌, ◌<◌, ◌^◌, ◌==◌, false, [], ◌∷◌, fold, length, All};
ghost use Rattle.std.specs.List.{list_any};
ghost use Rattle.layer_definitions.specs.Network.{HasPdu};
ghost use Rattle.layer_states.specs.Friends.{after, end_all, is_befriended as is_befriended_in, is_friend as is_friend_in, is_noted, poll_timeouts, tick as tick_in};
ghost use Rattle.layer_states.specs.Friends as F;
ghost use Rattle.mesh_base.specs.declared.address.Address.{Address as At};
ghost use Rattle.mesh_base.specs.declared.fields.Heard.{Heard};
ghost use Rattle.mesh_reading.specs.Held.{reading_of};
ghost use Rattle.mesh_types.specs.declared.events.Event.TheVariants as E;
ghost use Rattle.node_friends.specs.Queues.{IsSendable};
ghost use Rattle.node_friends.specs.Steps.{AreFriendsOf};
ghost use Rattle.node_layers.specs.Friendship.{friend_keys, heard_calls, is_befriended as is_befriended_after, is_to_be_kept, kept_calls, no_friends, stored};
ghost use Rattle.event_definitions.specs.History.{Past};

use crate::heard::is_by_master;
use friend_queue::Friends;
use layer_states::friends::{OwnShort, PollList};
use mesh_base::address::Address;
use mesh_base::octets::Octets;
use mesh_base::pair::Name;
use mesh_base::table::HeardList;
use network_layer::NetReading;
use std::marker::Model;

/// The friendships and offers of a node in a life, at most 2. A clause sees them as the definitions of a life do: as the list of them, with the
/// number of offers.
///
/// What stands for the entries so far stands for one entry more after the calls that `friends_law` says. Times are in ticks of 10 ms, at most
/// 2^48.
#[derive(Drop)]
pub struct NodeFriends {
    pub(crate) friends: Friends,
}

impl Model for NodeFriends {
    ghost use Rattle.layer_states.specs.Friends.{FriendsState};
    ghost use Rattle.node_friends.specs.Queues.{HoldSendable};

    ghost Value = { FriendsState };

    ghost view = { λ n. n.friends };

    ghost invariant = { λ n. HoldSendable n.friends.slots };
}

// Whether a Low Power node is one of those that are asked for their PollTimeout.
fn has_poll(polls: &[(Address, u32)], lpn: Address) -> bool
    ensures { result ≡ list_any (λ (poll : At × ℕ). poll.0.0 == lpn.0) polls.now }
{
    polls.iter().any(|poll| poll.0.0 == lpn.0)
}

impl NodeFriends {
    /// No friendships and no offers: those of a life that begins.
    pub fn new() -> NodeFriends
        ensures value { result ≡ no_friends }
        ensures entries { AreFriendsOf result [] }
    {
        NodeFriends {
            friends: Friends::new(),
        }
    }

    /// A PDU that got past the message cache: where it came under master credentials, it is stored for each friendship that it is for. TTL is
    /// below 128, SEQ below 2^24, and the transport PDU has 1 to 16 octets, or 1 to 12 in a control message, as `network_layer::read` says of
    /// what it reads.
    pub fn heard(&mut self, r: &NetReading)
        requires pdu { HasPdu r.now.fields }
        ensures state { self.new ≡ fold after self.old (heard_calls (reading_of r.now)) }
        ensures befriended { (a : At) → is_befriended_in self.new.slots a ≡ is_befriended_in self.old.slots a }
        ensures polls { poll_timeouts self.new.slots ≡ poll_timeouts self.old.slots }
    {
        if is_by_master(r) {
            self.friends.put(&r.fields);
        }
    }

    /// A message of this node that goes unsegmented: it is stored for each friendship that its DST belongs to. TTL is below 128, an AID below
    /// 64, and there is a payload.
    pub fn send(&mut self, m: &OwnShort)
        requires sendable { IsSendable m.now }
        ensures state { self.new ≡ fold after self.old (stored (m.now ∷ [])) }
        ensures befriended { (a : At) → is_befriended_in self.new.slots a ≡ is_befriended_in self.old.slots a }
        ensures polls { poll_timeouts self.new.slots ≡ poll_timeouts self.old.slots }
    {
        // The proof uses that it has at most 11 octets.
        let _payload = m.payload.as_slice();
        let _ = self.friends.put_own(m);
    }

    /// Octets that answered the Poll of a Low Power node with this FSN; `name` is their SRC, IV Index and SEQ. True exactly where a friendship
    /// with that node stands, its last Poll has that FSN, and no octets are noted for it yet: then they are; else nothing changes.
    pub fn kept(&mut self, lpn: Address, fsn: bool, name: &Name, pdu: &Octets<29>) -> bool
        ensures value { result ≡ list_any (is_noted lpn fsn) self.old.slots }
        ensures past { (past : Past) → AreFriendsOf self.old past.told → result ≡ is_to_be_kept past lpn fsn }
        ensures state { self.new ≡ fold after self.old (kept_calls (E.Kept lpn fsn name.now pdu.now)) }
        ensures unchanged { result ≡ false → self.new ≡ self.old }
    {
        self.friends.keep(lpn, fsn, name, pdu)
    }

    /// Friendships and offers go whose time is over at this time.
    pub fn tick(&mut self, now: u64)
        ensures state { self.new ≡ after self.old (tick_in now) }
    {
        self.friends.tick(now);
    }

    /// Friendships and offers end: after Friend Set with 00.
    pub fn end(&mut self)
        ensures state { self.new ≡ after self.old end_all }
    {
        self.friends.end();
    }

    /// Whether an address is one of a friendship that stands.
    pub fn is_befriended(&self, a: Address) -> bool
        ensures value { result ≡ is_befriended_in self.now.slots a }
        ensures past { (past : Past) → AreFriendsOf self.now past.told → result ≡ is_befriended_after past a }
    {
        self.friends.belongs(a)
    }

    /// The credentials under which a PDU of a Low Power node may be heard: of all friendships and offers, in the order of the offers. They are
    /// tried behind the network keys. A NID has 7 bits.
    pub fn keys(&self) -> HeardList
        ensures value { result ≡ F.friend_keys self.now.slots }
        ensures past { (past : Past) → AreFriendsOf self.now past.told → result ≡ friend_keys past }
        ensures nid { All (λ (h : Heard). h.material.nid < 2 ^ 7) result }
        ensures length { length result ≤ 2 }
    {
        self.friends.credentials()
    }

    /// The address and the PollTimeout, in units of 100 ms, of each friendship that stands.
    pub fn polls(&self) -> PollList
        ensures value { result ≡ poll_timeouts self.now.slots }
    {
        self.friends.polls()
    }

    /// Whether a friendship with a Low Power node is held.
    pub(crate) fn is_friend(&self, lpn: Address) -> bool
        ensures value { result ≡ list_any (is_friend_in lpn) self.now.slots }
    {
        has_poll(self.friends.polls().as_slice(), lpn)
    }
}
