//! One line of a generated script.
#![tactic(auto)]

ghost use Rattle.std.specs.Prelude.{◌≡◌, ◌≤◌, ◌/◌, ◌^◌, length};
ghost use Rattle.script_generator.specs.Generated.{line_of, next_number, peer_line, provision_line, raw_line};

use mesh_base::address::Address;
use mesh_base::fields::NetFields;
use mesh_base::octets::Octets;
use script_definitions::line::{PeerLine, RawLine, ScriptLine, ScriptNet};
use script_definitions::script::ProvisionLine;

/// The network key of the node and of all that it hears.
const NET_KEY: [u8; 16] = [
    0x7d, 0xd7, 0x36, 0x4c, 0xd8, 0x42, 0xad, 0x18, 0xc1, 0x7c, 0x2b, 0x82, 0x0c, 0x84, 0xc3, 0xd6,
];

/// The device key.
const DEV_KEY: [u8; 16] = [
    0x9d, 0x6d, 0xd0, 0xe9, 0x6e, 0xb2, 0x5d, 0xc1, 0x9a, 0x40, 0xed, 0x99, 0x14, 0xf8, 0xf0, 0x3f,
];

/// The IV Index.
const IV: u32 = 0x1234_5678;

/// The address of the node's element.
const NODE: Address = Address(0x1201);

/// The address of a node that isn't there: what is heard for it is relayed.
const OTHER: Address = Address(0x0009);

/// The number behind a number.
pub fn next_number(x: u32) -> u32
    ensures value { result ≡ next_number x }
{
    x.wrapping_mul(1_664_525).wrapping_add(1_013_904_223)
}

/// What the node is provisioned with.
pub fn provision() -> ProvisionLine
    ensures value { result ≡ provision_line }
{
    ProvisionLine {
        unicast: NODE,
        elements: 1,
        iv: IV,
        flags: 0,
        net_index: 0,
        net_key: NET_KEY,
        dev_key: DEV_KEY,
    }
}

/// The octets of a transport PDU.
fn tpdu(bytes: &[u8]) -> Octets<16>
    requires few { length bytes.now ≤ 16 }
    ensures value { result ≡ bytes.now }
{
    match Octets::of(bytes) {
        Ok(octets) => octets,
        Err(_) => Octets::new(),
    }
}

/// The bearer of a line, by its number.
fn bearer(x: u32) -> u8
    ensures value { result ≡ x / 2 ^ 29 }
{
    (x >> 29) as u8
}

/// The node sends a Friend Request.
fn raw(x: u32) -> ScriptLine
    ensures value { result ≡ raw_line x }
{
    ScriptLine::Raw {
        bearer: bearer(x),
        raw: RawLine {
            dst: Address(0xfffd),
            ttl: 0,
            tpdu: tpdu(&[
                0x03, 0x4b, 0x50, 0x05, 0x7e, 0x40, 0x00, 0x00, 0x01, 0x00, 0x00,
            ]),
        },
    }
}

/// The node hears a control PDU with this SEQ.
fn peer(seq: u32, x: u32, ttl: u8, dst: Address) -> ScriptLine
    ensures value { result ≡ peer_line seq x ttl dst.0 }
{
    let bearer = bearer(x);
    let place = (x / 0x1_0000 % 8) as u16;
    ScriptLine::Peer {
        bearer,
        peer: PeerLine {
            net: ScriptNet::Master(NET_KEY),
            fields: NetFields {
                iv: IV,
                ctl: true,
                ttl,
                seq,
                src: Address(0x100 + 8 * u16::from(bearer) + place),
                dst,
                tpdu: tpdu(&[0x7f]),
            },
        },
    }
}

/// The line at this place, from 1 on, by its number.
#[tactic(auto, unfolding(crate::specs::Generated::line_of))]
pub fn line(place: u32, x: u32) -> ScriptLine
    ensures value { result ≡ line_of place x }
{
    match x / 0x100_0000 % 4 {
        2 => peer(place, x, 0, NODE),
        3 => peer(place, x, 2, OTHER),
        _ => raw(x),
    }
}
