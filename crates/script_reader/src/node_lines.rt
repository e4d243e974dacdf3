//! The lines of the node itself.
#![tactic(auto)]

ghost use Rattle.std.specs.Prelude.{◌≡◌, ◌≤◌, length, map, IfSome};
ghost use Rattle.script_definitions.specs.Lines.{elements_fit, provision_line, arm_line};
ghost use Rattle.script_definitions.specs.Ranges.{IsProvision};

use crate::digits::{decimal, key, number};
use crate::forms::{address, flags, flags_fit};
use crate::words::word;
use script_definitions::line::ArmLine;
use script_definitions::script::ProvisionLine;

/// Whether all element addresses are 0001 to 7fff, of 1 to 4 elements.
fn elements_fit(unicast: u16, elements: u8) -> bool
    ensures value { result ≡ elements_fit unicast elements }
{
    elements >= 1
        && elements <= 4
        && unicast >= 1
        && u32::from(unicast) + u32::from(elements) <= 0x8000
}

/// `provision UNICAST ELEMENTS IV FLAGS NETIDX NETKEY DEVKEY`.
#[tactic(auto, unfolding(script_definitions::specs::Lines::provision_line))]
pub fn provision_line(words: &[&[u8]]) -> Option<ProvisionLine>
    requires { length words.now ≡ 8 }
    ensures value { result ≡ provision_line (map (λ w. w.now) words.now) }
    ensures ranges { IfSome result IsProvision }
{
    let unicast = address(word(words, 1))?;
    let elements = decimal(word(words, 2), 1)? as u8;
    let iv = number(word(words, 3), 8)?;
    let flags = flags(word(words, 4))?;
    let net_index = number(word(words, 5), 3)? as u16;
    let net_key = key(word(words, 6))?;
    let dev_key = key(word(words, 7))?;
    if elements_fit(unicast.0, elements) && flags_fit(flags, iv) {
        Some(ProvisionLine {
            unicast,
            elements,
            iv,
            flags,
            net_index,
            net_key,
            dev_key,
        })
    } else {
        None
    }
}

/// `arm CALLS MASK`.
#[tactic(auto, unfolding(script_definitions::specs::Lines::arm_line))]
pub fn arm_line(words: &[&[u8]]) -> Option<ArmLine>
    requires { length words.now ≡ 3 }
    ensures value { result ≡ arm_line (map (λ w. w.now) words.now) }
    ensures bound { IfSome result (λ arm. arm.calls ≤ 100000) }
{
    let calls = decimal(word(words, 1), 9)?;
    let mask = number(word(words, 2), 2)? as u8;
    if calls <= 100_000 {
        Some(ArmLine { calls, mask })
    } else {
        None
    }
}
