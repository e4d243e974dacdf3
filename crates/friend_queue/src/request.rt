//! A Friend Request, and the offer that answers it (Mesh Profile 1.0.1, sections 3.6.5.3, 3.6.5.4 and 3.6.6.3.1).
#![tactic(auto)]

ghost use Rattle.std.specs.Prelude.{◌≡◌, ◌^◌, ◌≤◌, ◌==◌, ◌||◌, ◌+◌, ◌-◌, not, nat_lt};
ghost use Rattle.layer_definitions.specs.KeyRefresh.{transmit_key as transmit_key_in};
ghost use Rattle.layer_states.specs.Friends.{field_outside as field_outside_in, offer_of as offer_in, offer_slot as offer_slot_in};

use layer_states::friends::{Friendship, Queue};
use mesh_base::address::Address;
use mesh_base::control::{Offer, Request};
use mesh_base::keys::NetKeyRow;
use mesh_base::table::Table;
use net_keys::friendship;
use node_limits::{FRIEND_ADDRESSES, FRIEND_QUEUE, FRIEND_QUEUE_LOG};

// Whether there is an element, and each has a unicast address.
fn has_unicast(first: Address, elements: u8) -> bool
    ensures { result ≡ not (elements == 0 || nat_lt 0x7fff (first.0 + elements - 1)) }
{
    let count = u32::from(elements);
    count > 0 && u32::from(first.0) + count <= 0x8000
}

/// The first field outside its range, counted from 1.
pub(crate) fn field_outside(lpn: Address, r: &Request) -> Option<u8>
    ensures { result ≡ field_outside_in lpn r.now }
{
    let r = *r;
    let queue_size_log = r.criteria % 8;
    if !(1 <= queue_size_log && queue_size_log <= FRIEND_QUEUE_LOG) {
        Some(1)
    } else if r.receive_delay < 0x0a {
        Some(2)
    } else if !(0x00000a <= r.poll_timeout && r.poll_timeout <= 0x34bbff) {
        Some(3)
    } else if !(r.previous.is_unassigned() || r.previous.is_unicast()) {
        Some(4)
    } else if !has_unicast(lpn, r.elements) {
        Some(5)
    } else {
        None
    }
}

// What is sent under a network key.
fn transmit_key(net: &NetKeyRow) -> [u8; 16]
    ensures { result ≡ transmit_key_in net.now }
{
    if net.phase == 2 {
        net.next.unwrap_or(net.key)
    } else {
        net.key
    }
}

/// The offer with this FriendCounter.
pub(crate) fn offer_of(counter: u16) -> Offer
    ensures { result ≡ offer_in counter }
{
    Offer {
        receive_window: 0x64,
        queue_size: FRIEND_QUEUE as u8,
        subscription_list_size: FRIEND_ADDRESSES as u8,
        rssi: 0x7f,
        friend_counter: counter,
    }
}

/// What stands of an offer with this FriendCounter. The friendship credentials are derived here.
pub(crate) fn offer_slot(
    counter: u16,
    now: u64,
    net: &NetKeyRow,
    own: Address,
    lpn: Address,
    r: &Request,
) -> Friendship
    requires { now ≤ 2 ^ 48 }
    ensures { result ≡ offer_slot_in counter now net.now own lpn r.now }
{
    let request = *r;
    let material = friendship(&transmit_key(net), lpn, own, request.lpn_counter, counter);
    Friendship {
        lpn,
        own,
        net: net.index,
        material,
        request,
        until: now + 100,
        fsn: None,
        answered: false,
        kept: None,
        list: Table::new(),
        queue: Queue::default(),
    }
}
