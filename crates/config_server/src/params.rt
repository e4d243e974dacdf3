//! Numbers, keys and statuses in replies (Mesh Profile 1.0.1, sections 3.1.1.2, 4.3.1 and 4.3.5). The low octet of a number
//! stands first.
#![tactic(auto)]

ghost use Rattle.std.specs.Prelude.{◌≡◌, ◌≤◌, ◌<◌, ◌+◌, ◌*◌, ◌++◌, length, bytes_eq};
ghost use Rattle.config_definitions.specs.Params.{acted, model_text, packed, packed_list, refused, replied, status_octet, stored, switch_octet, unchanged};
ghost use Rattle.model_states.specs.Access.{two_low_first};

use config_definitions::acts::{ConfigAct, Outcome, Status};
use config_definitions::messages::ModelId;
use mesh_base::octets::Octets;
use record_types::records::StoreRecord;

/// Puts a number behind the octets.
pub fn put_two(reply: &mut Octets<48>, number: u16)
    requires { length reply.old + 2 ≤ 48 }
    ensures { reply.new ≡ reply.old ++ two_low_first number }
{
    reply.extend(&number.to_le_bytes());
}

/// Puts two key indexes behind the octets.
pub fn put_packed(reply: &mut Octets<48>, first: u16, second: u16)
    requires { length reply.old + 3 ≤ 48 }
    ensures { reply.new ≡ reply.old ++ packed first second }
{
    let low = (first % 0x100) as u8;
    let middle = (first / 0x100 % 0x10 + second % 0x10 * 0x10) as u8;
    let high = (second / 0x10 % 0x100) as u8;
    reply.extend(&[low, middle, high]);
}

/// Puts a list of key indexes behind the octets, in pairs.
pub fn put_list(reply: &mut Octets<48>, indexes: &[u16])
    requires { length reply.old + 2 * length indexes.now ≤ 48 }
    ensures { reply.new ≡ reply.old ++ packed_list indexes.now }
{
    match indexes {
        [] => {}
        [last] => put_two(reply, *last),
        [first, second, rest @ ..] => {
            put_packed(reply, *first, *second);
            put_list(reply, rest);
        }
    }
}

/// Whether two keys are the same.
pub fn is_same_key(a: &[u8; 16], b: &[u8; 16]) -> bool
    ensures { result ≡ bytes_eq a.now b.now }
{
    a.as_slice() == b.as_slice()
}

/// Puts a model behind the octets.
pub fn put_model(reply: &mut Octets<48>, model: ModelId)
    requires { length reply.old + 4 ≤ 48 }
    ensures { reply.new ≡ reply.old ++ model_text model }
{
    match model {
        ModelId::Sig(number) => put_two(reply, number),
        ModelId::Vendor { company, model } => {
            put_two(reply, company);
            put_two(reply, model);
        }
    }
}

/// The octet of a switch.
pub fn switch_octet(on: bool) -> u8
    ensures { result ≡ switch_octet on }
{
    if on { 0x01 } else { 0x00 }
}

/// The octet of a status.
pub fn status_octet(status: Status) -> u8
    ensures { result ≡ status_octet status }
{
    match status {
        Status::Success => 0x00,
        Status::InvalidAddress => 0x01,
        Status::InvalidModel => 0x02,
        Status::InvalidAppKey => 0x03,
        Status::InvalidNetKey => 0x04,
        Status::InsufficientResources => 0x05,
        Status::KeyIndexStored => 0x06,
        Status::InvalidPublish => 0x07,
        Status::NotSubscribe => 0x08,
        Status::CannotUpdate => 0x0b,
        Status::CannotRemove => 0x0c,
        Status::CannotBind => 0x0d,
        Status::CannotSet => 0x0f,
    }
}

/// A message that is refused.
pub fn refused(status: Status) -> Outcome
    ensures { result ≡ refused status }
{
    Outcome {
        status,
        change: None,
    }
}

/// A message that asks for what is so already.
pub fn unchanged() -> Outcome
    ensures { result ≡ unchanged }
{
    Outcome {
        status: Status::Success,
        change: None,
    }
}

/// A message for which a record is stored.
pub fn stored(item: StoreRecord) -> Outcome
    ensures { result ≡ stored item }
{
    Outcome {
        status: Status::Success,
        change: Some(item),
    }
}

/// A reply with what is stored.
pub fn acted(change: Option<StoreRecord>, reply: Octets<48>) -> ConfigAct
    ensures { result ≡ acted change reply }
{
    ConfigAct {
        change,
        reply,
        beat: None,
        ends_friendships: false,
    }
}

/// A reply alone.
pub fn replied(reply: Octets<48>) -> ConfigAct
    ensures { result ≡ replied reply }
{
    acted(None, reply)
}
