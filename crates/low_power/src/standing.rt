//! The friend, and the Poll that is open (Mesh Profile 1.0.1, sections 3.6.6.4.1 and 3.6.6.4.2).
#![tactic(auto)]

ghost use Rattle.std.specs.Prelude.{◌≡◌};
ghost use Rattle.low_power_definitions.specs.State.{closed as closed_in, friend_of as friend_in, is_closing as is_closing_in, is_polling as is_polling_in, name_of as name_in, offered as offered_in, polled as polled_in};

use low_power_definitions::lpn::{Credentials, Friend, Standing};
use mesh_base::address::Address;
use mesh_base::fields::NetFields;
use mesh_base::pair::{Name, Pair};

/// The friend, if there is one.
pub(crate) fn friend_of(s: Standing) -> Option<Friend>
    ensures { result ≡ friend_in s }
{
    match s {
        Standing::Befriended(friend) => Some(friend),
        Standing::Alone | Standing::Seeking { .. } => None,
    }
}

/// What the credentials of the friendship are made of that an Offer makes, if one is waited for.
pub(crate) fn offered(s: Standing, from: Address, friend_counter: u16) -> Option<Credentials>
    ensures { result ≡ offered_in s from friend_counter }
{
    match s {
        Standing::Seeking { lpn_counter } => Some(Credentials {
            friend: from,
            lpn_counter,
            friend_counter,
        }),
        Standing::Alone | Standing::Befriended(_) => None,
    }
}

/// The same after a Poll was sent.
pub(crate) fn polled(s: Standing) -> Standing
    ensures { result ≡ polled_in s }
{
    match s {
        Standing::Befriended(friend) => Standing::Befriended(Friend {
            polling: true,
            ..friend
        }),
        Standing::Alone | Standing::Seeking { .. } => s,
    }
}

/// The same after the open Poll was closed.
pub(crate) fn closed(s: Standing) -> Standing
    ensures { result ≡ closed_in s }
{
    match s {
        Standing::Befriended(friend) => Standing::Befriended(Friend {
            fsn: !friend.fsn,
            polling: false,
            ..friend
        }),
        Standing::Alone | Standing::Seeking { .. } => s,
    }
}

/// Whether a Poll is open.
pub(crate) fn is_polling(s: Standing) -> bool
    ensures { result ≡ is_polling_in s }
{
    match s {
        Standing::Befriended(friend) => friend.polling,
        Standing::Alone | Standing::Seeking { .. } => false,
    }
}

/// Whether the last Poll was closed by the PDU of this name.
pub(crate) fn is_closing(closed_by: Option<Name>, n: Name) -> bool
    ensures { result ≡ is_closing_in closed_by n }
{
    match closed_by {
        None => false,
        Some(last) => last.is_same(&n),
    }
}

/// SRC, IV Index and SEQ of a network PDU.
pub(crate) fn name_of(f: &NetFields) -> Name
    ensures { result ≡ name_in f.now }
{
    Name {
        src: f.src,
        pair: Pair {
            iv: f.iv,
            seq: f.seq,
        },
    }
}
