//! From octets to a control message (Mesh Profile 1.0.1, sections 3.5.2.3.1 and 3.6.5.1 to 3.6.5.9).
#![tactic(auto)]

ghost use Rattle.std.specs.Prelude.{◌≡◌, ◌↔◌, ◌+◌, ◌%◌, ◌<◌, ◌≤◌, ◌^◌, length, IsFalse, IsTrue};
ghost use Rattle.mesh_base.specs.declared.control.ControlMsg.TheVariants as C;
ghost use Rattle.layer_definitions.specs.Control.{AreAddresses, IsNoControl, ReadsControl, address_octets, is_other};
ghost use Rattle.layer_definitions.specs.ControlReading.{control_of};

use byteorder::{BigEndian, ByteOrder};
use mesh_base::address::Address;
use mesh_base::control::{
    Acknowledgment, AddressList, Clear, ControlMsg, Offer, Request, SubscriptionList, Update,
};

// OBO, SeqZero and two bits that aren't read; BlockAck.
fn acknowledgment_of(params: &[u8]) -> Acknowledgment
    requires { length params.now ≡ 6 }
    ensures { ReadsControl 0 params.now (C.Acknowledgment result) }
{
    let bits = BigEndian::read_u16(params);
    Acknowledgment {
        obo: bits >= 0x8000,
        seq_zero: bits % 0x8000 / 4,
        block_ack: BigEndian::read_u32(&params[2..]),
    }
}

// FSN, behind padding that isn't read.
fn fsn_of(params: &[u8]) -> bool
    requires { length params.now ≡ 1 }
    ensures { ReadsControl 1 params.now (C.Poll result) }
{
    params[0] % 2 == 1
}

fn update_of(params: &[u8]) -> Update
    requires { length params.now ≡ 6 }
    ensures { ReadsControl 2 params.now (C.Update result) }
{
    Update {
        flags: params[0],
        iv: BigEndian::read_u32(&params[1..]),
        more_data: params[5],
    }
}

fn request_of(params: &[u8]) -> Request
    requires { length params.now ≡ 10 }
    ensures { ReadsControl 3 params.now (C.Request result) }
{
    Request {
        criteria: params[0],
        receive_delay: params[1],
        poll_timeout: BigEndian::read_u24(&params[2..]),
        previous: Address(BigEndian::read_u16(&params[5..])),
        elements: params[7],
        lpn_counter: BigEndian::read_u16(&params[8..]),
    }
}

fn offer_of(params: &[u8]) -> Offer
    requires { length params.now ≡ 6 }
    ensures { ReadsControl 4 params.now (C.Offer result) }
{
    Offer {
        receive_window: params[0],
        queue_size: params[1],
        subscription_list_size: params[2],
        rssi: params[3],
        friend_counter: BigEndian::read_u16(&params[4..]),
    }
}

// Of a Friend Clear or a Friend Clear Confirm.
fn clear_of(params: &[u8]) -> Clear
    requires { length params.now ≡ 4 }
    ensures clear { ReadsControl 5 params.now (C.Clear result) }
    ensures confirm { ReadsControl 6 params.now (C.ClearConfirm result) }
{
    Clear {
        lpn: Address(BigEndian::read_u16(params)),
        lpn_counter: BigEndian::read_u16(&params[2..]),
    }
}

// The addresses in octets, two octets each.
fn addresses_of(octets: &[u8]) -> AddressList
    requires most { length octets.now ≤ 10 }
    requires even { length octets.now % 2 ≡ 0 }
    ensures value { address_octets result ≡ octets.now }
    ensures widths { AreAddresses result }
{
    let mut addresses = AddressList::new();
    let mut rest = octets;
    while rest.len() >= 2 {
        let (front, back) = rest.split_at(2);
        let _ = addresses.push(Address(BigEndian::read_u16(front)));
        rest = back;
    }
    addresses
}

// TransactionNumber, of a Friend Subscription List Confirm.
fn transaction_of(params: &[u8]) -> u8
    requires { length params.now ≡ 1 }
    ensures { ReadsControl 9 params.now (C.ListConfirm result) }
{
    params[0]
}

// Of a Friend Subscription List Add or Remove.
fn list_of(params: &[u8]) -> SubscriptionList
    requires least { 3 ≤ length params.now }
    requires most { length params.now ≤ 11 }
    requires odd { length params.now % 2 ≡ 1 }
    ensures add { ReadsControl 7 params.now (C.ListAdd result) }
    ensures remove { ReadsControl 8 params.now (C.ListRemove result) }
{
    SubscriptionList {
        transaction: params[0],
        addresses: addresses_of(&params[1..]),
    }
}

/// The control message that these octets are the text of. Reserved bits are read as anything. `Other` comes exactly where they are the
/// text of no message: at another opcode, or with parameters of another length.
pub fn read_control(opcode: u8, params: &[u8]) -> ControlMsg
    ensures value { result ≡ control_of opcode params.now }
    ensures reads { IsFalse (is_other result) → ReadsControl opcode params.now result }
    ensures other { IsTrue (is_other result) ↔ IsNoControl opcode params.now }
{
    match (opcode, params.len()) {
        (0x00, 6) => ControlMsg::Acknowledgment(acknowledgment_of(params)),
        (0x01, 1) => ControlMsg::Poll {
            fsn: fsn_of(params),
        },
        (0x02, 6) => ControlMsg::Update(update_of(params)),
        (0x03, 10) => ControlMsg::Request(request_of(params)),
        (0x04, 6) => ControlMsg::Offer(offer_of(params)),
        (0x05, 4) => ControlMsg::Clear(clear_of(params)),
        (0x06, 4) => ControlMsg::ClearConfirm(clear_of(params)),
        (0x07, 3 | 5 | 7 | 9 | 11) => ControlMsg::ListAdd(list_of(params)),
        (0x08, 3 | 5 | 7 | 9 | 11) => ControlMsg::ListRemove(list_of(params)),
        (0x09, 1) => ControlMsg::ListConfirm {
            transaction: transaction_of(params),
        },
        _ => ControlMsg::Other,
    }
}
