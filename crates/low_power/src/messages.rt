//! What a Low Power node sends (Mesh Profile 1.0.1, sections 3.6.5.1, 3.6.5.3 and 3.6.5.7).
#![tactic(auto)]

ghost use Rattle.std.specs.Prelude.{◌≡◌, ◌∷◌, [], None};
ghost use Rattle.layer_definitions.specs.Control.{FitsControl, control_text};
ghost use Rattle.low_power_definitions.specs.State.{to_friend as to_friend_in};
ghost use Rattle.mesh_base.specs.declared.control.ControlMsg.TheVariants as C;

use low_power_definitions::lpn::{Credentials, LpnJob};
use mesh_base::address::Address;
use mesh_base::control::{AddressList, ControlMsg, Request, SubscriptionList};
use mesh_base::octets::Octets;
use upper_transport::write_control;

/// The DST of a Friend Request: all Friend nodes (section 3.4.2.4).
const ALL_FRIENDS: Address = Address(0xfffd);

// The transport PDU of an unsegmented control message.
fn tpdu_of(m: &ControlMsg) -> Octets<16>
    requires { FitsControl m.now }
    ensures { result ≡ control_text m.now }
{
    let mut tpdu = Octets::new();
    tpdu.extend(write_control(m).as_slice());
    tpdu
}

// A message to the friend, under the credentials of the friendship.
fn to_friend(c: Credentials, m: &ControlMsg) -> LpnJob
    requires { FitsControl m.now }
    ensures { result ≡ to_friend_in c m.now }
{
    LpnJob {
        dst: c.friend,
        tpdu: tpdu_of(m),
        under: Some(c),
    }
}

/// A Friend Request, under the master credentials: a queue of 2 messages at least, a ReceiveDelay of 100 ms, a PollTimeout of 60 s.
pub(crate) fn request_job(previous: Address, elements: u8, lpn_counter: u16) -> LpnJob
    ensures { result ≡ record {
      dst = record { 0 = 0xfffd };
      tpdu = control_text (C.Request (record {
        criteria = 0x01;
        receive_delay = 0x64;
        poll_timeout = 0x000258;
        previous = previous;
        elements = elements;
        lpn_counter = lpn_counter;
      }));
      under = None;
    } }
{
    let m = ControlMsg::Request(Request {
        criteria: 0x01,
        receive_delay: 0x64,
        poll_timeout: 0x000258,
        previous,
        elements,
        lpn_counter,
    });
    LpnJob {
        dst: ALL_FRIENDS,
        tpdu: tpdu_of(&m),
        under: None,
    }
}

/// A Friend Poll with this FSN.
pub(crate) fn poll_job(c: Credentials, fsn: bool) -> LpnJob
    ensures { result ≡ to_friend_in c (C.Poll fsn) }
{
    to_friend(c, &ControlMsg::Poll { fsn })
}

/// A Friend Subscription List Add of one address.
pub(crate) fn list_job(c: Credentials, transaction: u8, a: Address) -> LpnJob
    ensures { result ≡ to_friend_in c (C.ListAdd (record { transaction = transaction; addresses = a ∷ [] })) }
{
    let mut addresses = AddressList::new();
    let _ = addresses.push(a);
    let m = ControlMsg::ListAdd(SubscriptionList {
        transaction,
        addresses,
    });
    to_friend(c, &m)
}
