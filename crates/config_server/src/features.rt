//! Messages about the features of the node (Mesh Profile 1.0.1, sections 4.3.2.1 to 4.3.2.14, 4.3.2.53 to 4.3.2.57 and 4.3.2.67 to 4.3.2.71).
#![tactic(auto)]

ghost use Rattle.std.specs.Prelude.{◌≡◌, ◌≤◌, ◌+◌, ◌*◌, [], ◌∷◌};
ghost use Rattle.config_definitions.specs.Features.{composition_shown, feature_record, friend_set, node_reset, octet_set, octet_shown, poll_timeout, poll_timeout_shown, relay_set, relay_shown};
ghost use Rattle.node_records.specs.Tables.{config_in};

use crate::params::{acted, put_two, replied, switch_octet};
use config_definitions::acts::ConfigAct;
use config_definitions::messages::RelayValue;
use mesh_base::address::Address;
use mesh_base::octets::Octets;
use node_limits::{ELEMENTS, REPLAY_ENTRIES};
use node_records::{Persist, StoreRecord};

// The record of a feature that changes.
fn feature_record(which: u8, before: u16, value: u16) -> Option<StoreRecord>
    ensures { result ≡ feature_record which before value }
{
    if before == value {
        None
    } else {
        Some(StoreRecord::Feature { which, value })
    }
}

// A Status of an opcode that begins with 80, and one octet.
fn octet_status(opcode: u8, value: u8) -> Octets<48>
    ensures { result ≡ 0x80 ∷ opcode ∷ value ∷ [] }
{
    let mut reply = Octets::new();
    reply.extend(&[0x80, opcode, value]);
    reply
}

/// The Status of a state of one octet.
pub fn octet_shown(opcode: u8, value: u8) -> ConfigAct
    ensures { result ≡ octet_shown opcode value }
{
    replied(octet_status(opcode, value))
}

/// A state of one octet is set.
pub fn octet_set(which: u8, opcode: u8, before: u8, value: u8) -> ConfigAct
    ensures { result ≡ octet_set which opcode before value }
{
    let change = feature_record(which, u16::from(before), u16::from(value));
    acted(change, octet_status(opcode, value))
}

/// Friend is set.
pub fn friend_set(p: &Persist, on: bool) -> ConfigAct
    ensures { result ≡ friend_set (config_in p.now) on }
{
    ConfigAct {
        ends_friendships: !on,
        ..octet_set(3, 0x11, p.friend, switch_octet(on))
    }
}

// Relay Status.
fn relay_status(relay: u8, retransmit: u8) -> Octets<48>
    ensures { result ≡ 0x80 ∷ 0x28 ∷ relay ∷ retransmit ∷ [] }
{
    let mut reply = Octets::new();
    reply.extend(&[0x80, 0x28, relay, retransmit]);
    reply
}

/// Relay Status of the node as it is.
pub fn relay_shown(p: &Persist) -> ConfigAct
    ensures { result ≡ relay_shown (config_in p.now) }
{
    replied(relay_status(p.relay, p.retransmit))
}

// Relay in the high octet, its retransmissions in the low one.
fn relay_value(relay: u8, retransmit: u8) -> u16
    ensures { result ≡ relay * 256 + retransmit }
{
    u16::from(relay) * 0x100 + u16::from(retransmit)
}

/// Relay is set with its retransmissions.
pub fn relay_set(p: &Persist, relay: &RelayValue) -> ConfigAct
    ensures { result ≡ relay_set (config_in p.now) relay.now }
{
    let on = switch_octet(relay.on);
    let before = relay_value(p.relay, p.retransmit);
    let change = feature_record(4, before, relay_value(on, relay.retransmit));
    acted(change, relay_status(on, relay.retransmit))
}

/// Composition Data Status, of page 0.
pub fn composition_shown(p: &Persist) -> ConfigAct
    requires { p.now.elements ≤ ELEMENTS }
    ensures { result ≡ composition_shown (config_in p.now) }
{
    let mut reply = Octets::new();
    reply.extend(&[0x02, 0x00]);
    reply.extend(access_layer::composition(p.elements, REPLAY_ENTRIES as u16).as_slice());
    replied(reply)
}

// The PollTimeout of a Low Power node's friendship, 24 bits; 0 without one.
fn poll_timeout(polls: &[(Address, u32)], lpn: Address) -> u32
    ensures { result ≡ poll_timeout polls.now lpn }
{
    for poll in polls {
        if poll.0.0 == lpn.0 {
            return poll.1;
        }
    }
    0
}

/// Low Power Node PollTimeout Status.
pub fn poll_timeout_shown(polls: &[(Address, u32)], lpn: Address) -> ConfigAct
    ensures { result ≡ poll_timeout_shown polls.now lpn }
{
    let timeout = poll_timeout(polls, lpn);
    let mut reply = Octets::new();
    reply.extend(&[0x80, 0x2e]);
    put_two(&mut reply, lpn.0);
    let low = (timeout % 0x100) as u8;
    let middle = (timeout / 0x100 % 0x100) as u8;
    let high = (timeout / 0x1_0000 % 0x100) as u8;
    reply.extend(&[low, middle, high]);
    replied(reply)
}

/// Node Reset.
pub fn node_reset() -> ConfigAct
    ensures { result ≡ node_reset }
{
    let mut reply = Octets::new();
    reply.extend(&[0x80, 0x4a]);
    acted(Some(StoreRecord::Reset), reply)
}
