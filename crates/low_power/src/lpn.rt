//! The node and its calls.
#![tactic(auto)]

ghost use Rattle.std.specs.Prelude.{◌≡◌, ◌↔◌, None, Some, is_some, IfOk, IsErr, OnErr};
ghost use Rattle.std.specs.List.{list_any};
ghost use Rattle.layer_states.specs.Friends.{is_address};
ghost use Rattle.low_power_definitions.specs.State.{after, friend_of as friend_in, heard_as, heard_of, list_result, name_of as name_in, no_friend, offer_job, poll_job as poll_in, request_job as request_in};
ghost use Rattle.low_power_definitions.specs.State as lpn;

use crate::addresses::{add, has, is_full};
use crate::credentials::friend_material;
use crate::messages::{list_job, poll_job, request_job};
use crate::standing::{closed, friend_of, is_closing, is_polling, name_of, offered, polled};
use layer_states::friends::AddressTable;
use low_power_definitions::lpn::{
    Credentials, Friend, ListFault, LpnHeard, LpnJob, NoFriend, Standing,
};
use mesh_base::address::Address;
use mesh_base::fields::Heard;
use mesh_base::keys::NetKeyRow;
use mesh_base::pair::Name;
use network_layer::NetReading;
use std::marker::Model;

/// What a Low Power node knows of its friend in a life. A clause sees it as the state that `low_power_definitions` says.
///
/// It stands for the calls on it so far: a new one for none, and after a call it is `after` of what it was and that call. No call takes
/// memory.
#[derive(Drop)]
pub struct Lpn {
    own: Address,
    elements: u8,
    seeks: u16,
    standing: Standing,
    previous: Address,
    closed_by: Option<Name>,
    list: AddressTable,
    lists: u8,
}

impl Model for Lpn {
    ghost use Rattle.low_power_definitions.specs.State.{LowPowerState};

    ghost Value = { LowPowerState };

    ghost view = { λ l. record {
      own = l.own;
      elements = l.elements;
      seeks = l.seeks;
      standing = l.standing;
      previous = l.previous;
      closed_by = l.closed_by;
      list = l.list;
      lists = l.lists;
    } };
}

impl Lpn {
    /// A node in a life that begins: it has no friend, and didn't look for one. `own` is the address of its first element, and `elements`
    /// is how many it has.
    pub fn new(own: Address, elements: u8) -> Lpn
        ensures value { result ≡ no_friend own elements }
    {
        Lpn {
            own,
            elements,
            seeks: 0,
            standing: Standing::Alone,
            previous: Address(0),
            closed_by: None,
            list: AddressTable::new(),
            lists: 0,
        }
    }

    /// The Friend Request by which it looks for a friend (section 3.6.5.3). PreviousAddress is the last friend of this life, or 0000;
    /// LPNCounter is the number of Requests before in this life, modulo 2^16. The friendship ends, and the open Poll with it.
    pub fn seek(&mut self) -> LpnJob
        ensures value { result ≡ request_in self.old }
        ensures state { self.new ≡ after self.old lpn.seek }
    {
        let lpn_counter = self.seeks;
        self.seeks = lpn_counter.wrapping_add(1);
        self.standing = Standing::Seeking { lpn_counter };
        request_job(self.previous, self.elements, lpn_counter)
    }

    /// What an Offer from this address with this FriendCounter leads to (section 3.6.6.4.1). The first one since a Friend Request makes
    /// the friendship, and is answered by a Poll with FSN 0; None exactly where no Offer is waited for. An Offer comes under master
    /// credentials.
    pub fn offer(&mut self, from: Address, friend_counter: u16) -> Option<LpnJob>
        ensures value { result ≡ offer_job self.old from friend_counter }
        ensures state { self.new ≡ after self.old (lpn.offer from friend_counter) }
    {
        let credentials = offered(self.standing, from, friend_counter)?;
        self.standing = Standing::Befriended(Friend {
            credentials,
            fsn: false,
            polling: true,
        });
        self.previous = from;
        self.closed_by = None;
        Some(poll_job(credentials, false))
    }

    /// The Poll with the present FSN (section 3.6.6.4.2). It is open until a PDU closes it; then FSN changes, so one that is sent again
    /// before has the FSN of the one before. `NoFriend` exactly where there is no friend: no Offer was taken since the last Friend
    /// Request, or since the life began.
    pub fn poll(&mut self) -> Result<LpnJob, NoFriend>
        ensures ok { IfOk result (λ job. poll_in self.old ≡ Some job) }
        ensures no_friend { IsErr result ↔ (friend_in self.old.standing ≡ None) }
        ensures state { self.new ≡ after self.old lpn.poll }
        ensures unchanged { OnErr result (self.new ≡ self.old) }
    {
        let Some(friend) = friend_of(self.standing) else {
            return Err(NoFriend);
        };
        self.standing = polled(self.standing);
        Ok(poll_job(friend.credentials, friend.fsn))
    }

    /// The list message by which the friend stores what goes to this address, too (section 3.6.5.7). TransactionNumber is the number of
    /// list messages before in this life, modulo 2^8. An address that was listed before is sent once more, since a new friend doesn't
    /// have it. `NoFriend` exactly where there is no friend; else `TooMany` exactly where the address wasn't listed and 16 others were.
    pub fn list(&mut self, a: Address) -> Result<LpnJob, ListFault>
        ensures value { result ≡ list_result self.old a }
        ensures state { self.new ≡ after self.old (lpn.list a) }
        ensures unchanged { OnErr result (self.new ≡ self.old) }
    {
        let Some(friend) = friend_of(self.standing) else {
            return Err(ListFault::NoFriend);
        };
        if is_full(self.list.as_slice(), a) {
            return Err(ListFault::TooMany {
                held: self.list.len() as u32,
            });
        }
        let job = list_job(friend.credentials, self.lists, a);
        add(&mut self.list, a);
        self.lists = self.lists.wrapping_add(1);
        Ok(job)
    }

    /// What becomes of a PDU that was heard (section 3.6.6.4.2). `Unasked` exactly where it came under friendship credentials and no Poll
    /// is open; else `Repeat` exactly where it has the SRC, the IV Index and the SEQ of the PDU that closed the last Poll. Any other one
    /// passes, and under friendship credentials it closes the Poll and changes FSN. The credentials are those of the friend (`heard`),
    /// and the PDU is for this node: what it takes for malformed, or for another node's, doesn't come here.
    pub fn hear(&mut self, r: &NetReading) -> LpnHeard
        ensures value { result ≡ heard_as self.old (is_some r.now.by.lpn) (name_in r.now.fields) }
        ensures state { self.new ≡ after self.old (lpn.hear (is_some r.now.by.lpn) (name_in r.now.fields)) }
    {
        let by_friend = r.by.lpn.is_some();
        let name = name_of(&r.fields);
        if by_friend && !is_polling(self.standing) {
            return LpnHeard::Unasked;
        }
        if is_closing(self.closed_by, name) {
            return LpnHeard::Repeat;
        }
        if by_friend {
            self.standing = closed(self.standing);
            self.closed_by = Some(name);
        }
        LpnHeard::Pass
    }

    /// Whether an address was listed, so that what goes to it is this node's.
    pub fn is_listed(&self, a: Address) -> bool
        ensures value { result ≡ list_any (is_address a) self.now.list }
    {
        has(self.list.as_slice(), a)
    }

    /// The friendship credentials that are heard, by the row of the network key; None exactly where there is no friend. They are derived
    /// anew at each call, so the caller keeps them until the friend changes.
    pub fn heard(&self, net: &NetKeyRow) -> Option<Heard>
        ensures value { result ≡ heard_of self.now net.now }
    {
        let friend = friend_of(self.standing)?;
        Some(Heard {
            index: net.index,
            lpn: Some(self.own),
            fresh: false,
            material: friend_material(self.own, net, friend.credentials),
        })
    }
}
