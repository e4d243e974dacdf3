//! A control message of a Low Power node (Mesh Profile 1.0.1, section 3.6.6).
#![tactic(auto)]

ghost use Rattle.std.specs.Prelude.{◌≡◌, ℕ, ◌≤◌, ◌<◌, ◌^◌, ◌++◌, if◌then◌else◌, fold};
ghost use Rattle.layer_states.specs.Friends.{after};
ghost use Rattle.mesh_base.specs.declared.control.ControlMsg.TheVariants as C;
ghost use Rattle.mesh_reading.specs.Held.{reading_of};
ghost use Rattle.node_friends.specs.Acts.{IsActOf};
ghost use Rattle.node_friends.specs.Queues.{IsSendableAct, IsSendableAnswer};
ghost use Rattle.node_friends.specs.Steps.{after_control};
ghost use Rattle.node_friends.specs.declared.acts.FriendAct.TheVariants as A;
ghost use Rattle.node_layers.specs.Friendship.{answered_calls, control_calls, stored_octets};
ghost use Rattle.node_records.specs.Tables.{config_in};
ghost use Rattle.event_definitions.specs.Answers.{name_of as name_in};
ghost use Rattle.store_definitions.specs.Config.{Config};

use crate::acts::FriendAct;
use crate::friends::NodeFriends;
use crate::heard::{is_by_friend, is_by_master, is_request};
use layer_states::friends::PollAnswer;
use mesh_base::control::{Clear, ControlMsg, Request, SubscriptionList};
use mesh_base::fields::NetFields;
use mesh_base::keys::net_row;
use mesh_base::pair::{Name, Pair};
use network_layer::{NetReading, seal};
use node_records::Persist;

// SRC, IV Index and SEQ of a network PDU.
fn name_of(f: &NetFields) -> Name
    ensures { result ≡ name_in f.now }
{
    Name {
        src: f.src,
        pair: Pair {
            iv: f.iv,
            seq: f.seq,
        },
    }
}

// A list message is confirmed where it is of a friendship that is held.
fn confirmed(held: bool, transaction: u8) -> FriendAct
    ensures value { result ≡ (if held then A.Confirmed transaction else A.Nothing) }
    ensures sendable { IsSendableAct result }
{
    if held {
        FriendAct::Confirmed { transaction }
    } else {
        FriendAct::Nothing
    }
}

impl NodeFriends {
    // A Friend Request: the network key is that by which it was heard.
    fn request(&mut self, p: &Persist, now: u64, r: &NetReading, q: &Request) -> FriendAct
        requires { now ≤ 2 ^ 48 }
        ensures state { self.new ≡ after_control self.old now (config_in p.now) (reading_of r.now) (C.Request q.now) }
        ensures act { IsActOf (config_in p.now) self.old now (reading_of r.now) (C.Request q.now) result }
        ensures sendable { IsSendableAct result }
    {
        if !is_request(p, r) {
            return FriendAct::Nothing;
        }
        let Some(net) = net_row(p.nets.as_slice(), r.by.index) else {
            return FriendAct::Nothing;
        };
        match self.friends.request(now, net, p.unicast, r.fields.src, q) {
            Ok(offer) => FriendAct::Offered(offer),
            Err(_) => FriendAct::Nothing,
        }
    }

    // Notes the octets of a stored PDU that answers a Poll: it is sealed under the credentials by which the Poll was heard.
    fn note(&mut self, r: &NetReading, fsn: bool, answer: &PollAnswer)
        requires nid { r.now.by.material.nid < 2 ^ 7 }
        requires sendable { IsSendableAnswer answer.now }
        ensures state { self.new
            ≡ fold after self.old (stored_octets r.now.by.material fsn r.now.fields.src answer.now) }
    {
        if let PollAnswer::Stored(f) = answer {
            let pdu = seal(&r.by.material, f);
            self.friends.keep(r.fields.src, fsn, &name_of(f), &pdu);
        }
    }

    // A Friend Poll.
    fn poll(&mut self, now: u64, r: &NetReading, fsn: bool) -> FriendAct
        requires now { now ≤ 2 ^ 48 }
        requires nid { r.now.by.material.nid < 2 ^ 7 }
        ensures state { (c : Config) → self.new ≡ after_control self.old now c (reading_of r.now) (C.Poll fsn) }
        ensures act { (c : Config) → IsActOf c self.old now (reading_of r.now) (C.Poll fsn) result }
        ensures sendable { IsSendableAct result }
    {
        if !is_by_friend(r) {
            return FriendAct::Nothing;
        }
        let Ok(polled) = self.friends.poll(now, r.fields.src, fsn) else {
            return FriendAct::Nothing;
        };
        self.note(r, fsn, &polled.answer);
        FriendAct::Answered { fsn, polled }
    }

    // A Friend Subscription List Add.
    fn list_add(&mut self, now: u64, r: &NetReading, l: &SubscriptionList) -> FriendAct
        requires { now ≤ 2 ^ 48 }
        ensures state { (c : Config) → self.new ≡ after_control self.old now c (reading_of r.now) (C.ListAdd l.now) }
        ensures act { (c : Config) → IsActOf c self.old now (reading_of r.now) (C.ListAdd l.now) result }
        ensures sendable { IsSendableAct result }
    {
        if !is_by_friend(r) {
            return FriendAct::Nothing;
        }
        let held = self.is_friend(r.fields.src);
        let _ = self
            .friends
            .list_add(now, r.fields.src, l.addresses.as_slice());
        confirmed(held, l.transaction)
    }

    // A Friend Subscription List Remove.
    fn list_remove(&mut self, now: u64, r: &NetReading, l: &SubscriptionList) -> FriendAct
        requires { now ≤ 2 ^ 48 }
        ensures state { (c : Config) → self.new ≡ after_control self.old now c (reading_of r.now) (C.ListRemove l.now) }
        ensures act { (c : Config) → IsActOf c self.old now (reading_of r.now) (C.ListRemove l.now) result }
        ensures sendable { IsSendableAct result }
    {
        if !is_by_friend(r) {
            return FriendAct::Nothing;
        }
        let held = self.is_friend(r.fields.src);
        let _ = self
            .friends
            .list_remove(now, r.fields.src, l.addresses.as_slice());
        confirmed(held, l.transaction)
    }

    // A Friend Clear.
    fn clear(&mut self, r: &NetReading, l: &Clear) -> FriendAct
        ensures state { (c : Config) (now : ℕ)
            → self.new ≡ after_control self.old now c (reading_of r.now) (C.Clear l.now) }
        ensures act { (c : Config) (now : ℕ) → IsActOf c self.old now (reading_of r.now) (C.Clear l.now) result }
        ensures sendable { IsSendableAct result }
    {
        if !is_by_master(r) {
            return FriendAct::Nothing;
        }
        match self.friends.clear(l.lpn, l.lpn_counter) {
            Ok(()) => FriendAct::Cleared(*l),
            Err(_) => FriendAct::Nothing,
        }
    }

    /// A control message that was accepted at this time, and what it leads to. `p` is what the records before the event say, and `r` how the
    /// message was heard: a NID has 7 bits, as that of each key held. The answer to a Poll can be sent, since whatever waits can.
    ///
    /// A PDU that answers a Poll is sealed here, since the octets of an answer are noted at its Poll.
    pub fn control(&mut self, p: &Persist, now: u64, r: &NetReading, m: &ControlMsg) -> FriendAct
        requires now { now ≤ 2 ^ 48 }
        requires nid { r.now.by.material.nid < 2 ^ 7 }
        ensures state { self.new
            ≡ fold after self.old
            (control_calls now (config_in p.now) (reading_of r.now) m.now
            ++ answered_calls self.old now (reading_of r.now) m.now) }
        ensures act { IsActOf (config_in p.now) self.old now (reading_of r.now) m.now result }
        ensures sendable { IsSendableAct result }
    {
        match m {
            ControlMsg::Request(q) => self.request(p, now, r, q),
            ControlMsg::Poll { fsn } => self.poll(now, r, *fsn),
            ControlMsg::ListAdd(l) => self.list_add(now, r, l),
            ControlMsg::ListRemove(l) => self.list_remove(now, r, l),
            ControlMsg::Clear(l) => self.clear(r, l),
            _ => FriendAct::Nothing,
        }
    }
}
