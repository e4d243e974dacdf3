//! From a control message to octets (Mesh Profile 1.0.1, sections 3.5.2.3.1 and 3.6.5.1 to 3.6.5.9).
#![tactic(auto)]

ghost use Rattle.std.specs.Prelude.{◌≡◌, ◌<◌, ◌≤◌, ◌^◌, ◌∷◌, ◌++◌, length};
ghost use Rattle.cipher_definitions.specs.Octets.{two_octets};
ghost use Rattle.mesh_base.specs.declared.control.ControlMsg.TheVariants as C;
ghost use Rattle.layer_definitions.specs.Control.{FitsControl, HasAddresses, address_octets, control_text};

use byteorder::{BigEndian, ByteOrder};
use mesh_base::control::{
    Acknowledgment, Clear, ControlMsg, Offer, Request, SubscriptionList, Update,
};
use mesh_base::octets::Octets;

// OBO, SeqZero and two bits 0; BlockAck.
#[tactic(auto, unfolding(layer_definitions::specs::Control::control_text))]
fn acknowledgment_octets(a: &Acknowledgment) -> [u8; 7]
    requires { a.now.seq_zero < 2 ^ 13 }
    ensures value { result ≡ control_text (C.Acknowledgment a.now) }
    ensures length { length result ≡ 7 }
{
    let obo = if a.obo { 0x8000 } else { 0 };
    let mut octets = [0; 7];
    BigEndian::write_u16(&mut octets[1..], obo + a.seq_zero * 4);
    BigEndian::write_u32(&mut octets[3..], a.block_ack);
    octets
}

#[tactic(auto, unfolding(layer_definitions::specs::Control::control_text))]
fn update_octets(u: &Update) -> [u8; 7]
    ensures value { result ≡ control_text (C.Update u.now) }
    ensures length { length result ≡ 7 }
{
    let mut octets = [0x02, u.flags, 0, 0, 0, 0, u.more_data];
    BigEndian::write_u32(&mut octets[2..], u.iv);
    octets
}

#[tactic(auto, unfolding(layer_definitions::specs::Control::control_text))]
fn request_octets(r: &Request) -> [u8; 11]
    requires { r.now.poll_timeout < 2 ^ 24 }
    ensures value { result ≡ control_text (C.Request r.now) }
    ensures length { length result ≡ 11 }
{
    let mut octets = [
        0x03,
        r.criteria,
        r.receive_delay,
        0,
        0,
        0,
        0,
        0,
        r.elements,
        0,
        0,
    ];
    BigEndian::write_u24(&mut octets[3..], r.poll_timeout);
    BigEndian::write_u16(&mut octets[6..], r.previous.0);
    BigEndian::write_u16(&mut octets[9..], r.lpn_counter);
    octets
}

#[tactic(auto, unfolding(layer_definitions::specs::Control::control_text))]
fn offer_octets(o: &Offer) -> [u8; 7]
    ensures value { result ≡ control_text (C.Offer o.now) }
    ensures length { length result ≡ 7 }
{
    let mut octets = [
        0x04,
        o.receive_window,
        o.queue_size,
        o.subscription_list_size,
        o.rssi,
        0,
        0,
    ];
    BigEndian::write_u16(&mut octets[5..], o.friend_counter);
    octets
}

// A Friend Clear or a Friend Clear Confirm.
fn clear_octets(opcode: u8, c: &Clear) -> [u8; 5]
    ensures value { result ≡ opcode ∷ two_octets c.now.lpn.0 ++ two_octets c.now.lpn_counter }
    ensures length { length result ≡ 5 }
{
    let mut octets = [opcode, 0, 0, 0, 0];
    BigEndian::write_u16(&mut octets[1..], c.lpn.0);
    BigEndian::write_u16(&mut octets[3..], c.lpn_counter);
    octets
}

// A Friend Subscription List Add or Remove.
fn list_octets(opcode: u8, l: &SubscriptionList) -> Octets<12>
    requires { length l.now.addresses ≤ 5 }
    ensures { result ≡ opcode ∷ l.now.transaction ∷ address_octets l.now.addresses }
{
    let mut out = Octets::new();
    out.extend(&[opcode, l.transaction]);
    for address in l.addresses.as_slice() {
        out.extend(&address.0.to_be_bytes());
    }
    out
}

// These octets, which are at most 12.
fn short(octets: &[u8]) -> Octets<12>
    requires { length octets.now ≤ 12 }
    ensures { result ≡ octets.now }
{
    let mut out = Octets::new();
    out.extend(octets);
    out
}

/// The octets of a control message: its opcode and its parameters, with 0 in the reserved bits.
///
/// The message isn't `Other`. SeqZero is below 2^13 and PollTimeout below 2^24, and a list has 1 to 5 addresses.
#[tactic(auto, unfolding(layer_definitions::specs::Control::control_text))]
pub fn write_control(m: &ControlMsg) -> Octets<12>
    requires { FitsControl m.now }
    ensures value { result ≡ control_text m.now }
{
    match m {
        ControlMsg::Acknowledgment(a) => short(&acknowledgment_octets(a)),
        ControlMsg::Poll { fsn } => short(&[0x01, u8::from(*fsn)]),
        ControlMsg::Update(u) => short(&update_octets(u)),
        ControlMsg::Request(r) => short(&request_octets(r)),
        ControlMsg::Offer(o) => short(&offer_octets(o)),
        ControlMsg::Clear(c) => short(&clear_octets(0x05, c)),
        ControlMsg::ClearConfirm(c) => short(&clear_octets(0x06, c)),
        ControlMsg::ListAdd(l) => list_octets(0x07, l),
        ControlMsg::ListRemove(l) => list_octets(0x08, l),
        ControlMsg::ListConfirm { transaction } => short(&[0x09, *transaction]),
        ControlMsg::Other => Octets::new(),
    }
}
