//! The addresses that a Low Power node had added to its friend's list (Mesh Profile 1.0.1, section 3.6.6.4.3).
#![tactic(auto)]

ghost use Rattle.std.specs.Prelude.{◌≡◌};
ghost use Rattle.std.specs.List.{list_any};
ghost use Rattle.layer_states.specs.Friends.{is_address, with_address};
ghost use Rattle.low_power_definitions.specs.State.{is_full as is_full_in};

use layer_states::friends::AddressTable;
use mesh_base::address::Address;
use node_limits::FRIEND_ADDRESSES;

/// Whether an address is among these.
pub(crate) fn has(list: &[Address], a: Address) -> bool
    ensures { result ≡ list_any (is_address a) list.now }
{
    list.iter().any(|b| a.0 == b.0)
}

/// Whether others take all places.
pub(crate) fn is_full(list: &[Address], a: Address) -> bool
    ensures { result ≡ is_full_in list.now a }
{
    !has(list, a) && list.len() >= FRIEND_ADDRESSES
}

/// Adds an address, if there is a place and it isn't there.
pub(crate) fn add(list: &mut AddressTable, a: Address)
    ensures { list.new ≡ with_address list.old a }
{
    if has(list.as_slice(), a) || list.len() >= FRIEND_ADDRESSES {
        return;
    }
    let _ = list.push(a);
}
