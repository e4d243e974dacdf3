//! What a new node is provisioned with, but its keys.
#![tactic(auto)]

ghost use Rattle.std.specs.Prelude.{◌≡◌, ◌+◌, ◌^◌, ◌≤◌, IfSome};
ghost use Rattle.daemon_words.specs.Numbers.{IsBearers, IsNumbers, bearers_word, node_numbers, provision_of};
ghost use Rattle.node_store.specs.Provisioning.{IsProvision};
ghost use Rattle.script_definitions.specs.Lines.{elements_fit};

use crate::keys::NodeKeys;
use mesh_base::address::Address;
use node_store::Provision;
use script_reader::digits::{decimal, number};
use script_reader::forms::{address, flags, flags_fit};

/// What a new node is provisioned with, but its keys.
#[derive(Clone, Copy, Debug, PartialEq, Eq)]
pub struct NodeNumbers {
    /// The address of its first element.
    pub unicast: Address,
    /// The number of its elements, 1 to 4. All their addresses are 0001 to 7fff.
    pub elements: u8,
    /// The IV Index.
    pub iv: u32,
    /// The flags, of which bit 1 says that the IV Update is in progress, and needs an IV Index of at least 1; 0 to 3.
    pub flags: u8,
    /// The index of its network key, 12 bits.
    pub net_index: u16,
}

/// Whether all element addresses are 0001 to 7fff, of 1 to 4 elements.
fn elements_fit(unicast: u16, elements: u8) -> bool
    ensures value { result ≡ elements_fit unicast elements }
{
    elements >= 1
        && elements <= 4
        && unicast >= 1
        && u32::from(unicast) + u32::from(elements) <= 0x8000
}

/// The numbers that the words UNICAST, ELEMENTS, IV, FLAGS and NETIDX stand for, each of its form in a script's line `provision`; None where one
/// isn't of its form, or they don't fit one another.
#[tactic(auto, unfolding(crate::specs::Numbers::node_numbers))]
pub fn node_numbers(
    unicast: &str,
    elements: &str,
    iv: &str,
    bits: &str,
    net_index: &str,
) -> Option<NodeNumbers>
    ensures value { result ≡ node_numbers unicast.now elements.now iv.now bits.now net_index.now }
    ensures ranges { IfSome result IsNumbers }
{
    let unicast = address(unicast.as_bytes())?;
    let elements = decimal(elements.as_bytes(), 1)? as u8;
    let iv = number(iv.as_bytes(), 8)?;
    let flags = flags(bits.as_bytes())?;
    let net_index = number(net_index.as_bytes(), 3)? as u16;
    if elements_fit(unicast.0, elements) && flags_fit(flags, iv) {
        Some(NodeNumbers {
            unicast,
            elements,
            iv,
            flags,
            net_index,
        })
    } else {
        None
    }
}

/// The number of bearers that a word writes, 1 to 8; None where it is no such number.
pub fn bearers(word: &str) -> Option<u8>
    ensures value { result ≡ bearers_word word.now }
    ensures bound { IfSome result IsBearers }
{
    let octets = word.as_bytes();
    if octets.len() == 1 && octets[0] >= b'1' && octets[0] <= b'8' {
        Some(octets[0] - b'0')
    } else {
        None
    }
}

/// What a new node is provisioned with.
pub fn provision_with(numbers: NodeNumbers, keys: NodeKeys) -> Provision
    requires ranges { IsNumbers numbers }
    ensures value { result ≡ provision_of numbers keys }
    ensures ranges { IsProvision result }
{
    let NodeKeys { net_key, dev_key } = keys;
    Provision {
        unicast: numbers.unicast,
        elements: numbers.elements,
        iv: numbers.iv,
        flags: numbers.flags,
        net_index: numbers.net_index,
        net_key,
        dev_key,
    }
}
