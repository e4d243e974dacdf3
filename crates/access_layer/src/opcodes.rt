//! The opcode that an access payload begins with (Mesh Profile 1.0.1, section 3.7.3.1).
#![tactic(auto)]

ghost use Rattle.std.specs.Prelude.{◌≡◌, ◌+◌, ◌*◌, ◌≤◌, ◌↔◌, IsErr, IsTrue, IfOk, OnErr, Some, None, drop, length};
ghost use Rattle.model_states.specs.Access.{ReadsOpcode, has_no_opcode, opcode_in};

use model_states::access::Opcode;
use thiserror::Error;

/// The payload begins with no opcode.
#[derive(Clone, Copy, Debug, PartialEq, Eq, Error)]
#[error("the payload begins with no opcode")]
pub struct BadOpcode;

/// The opcode that this payload begins with, and of how many octets it is, 1 to 3; the parameters stand behind them. `BadOpcode` comes
/// exactly where the payload is too short for its first octet, or begins with 7f, which is reserved.
pub fn read_opcode(payload: &[u8]) -> Result<(Opcode, usize), BadOpcode>
    ensures ok { IfOk result (λ r. ReadsOpcode payload.now r.0 r.1) }
    ensures bad_opcode { IsErr result ↔ IsTrue (has_no_opcode payload.now) }
    ensures read { IfOk result (λ r. opcode_in payload.now ≡ Some (r.0.0, drop r.1 payload.now)) }
    ensures size { IfOk result (λ r. r.1 ≤ length payload.now) }
    ensures none { OnErr result (opcode_in payload.now ≡ None) }
{
    match payload {
        [first @ 0x00..=0x7e, ..] => Ok((Opcode(u32::from(*first)), 1)),
        [first @ 0x80..=0xbf, second, ..] => Ok((two_octets(*first, *second), 2)),
        [first @ 0xc0..=0xff, second, third, ..] => {
            Ok((three_octets(*first, *second, *third), 3))
        }
        _ => Err(BadOpcode),
    }
}

// The opcode of these octets.
fn two_octets(first: u8, second: u8) -> Opcode
    ensures { result.0 ≡ first * 256 + second }
{
    Opcode(u32::from(u16::from_be_bytes([first, second])))
}

// The opcode of these octets.
fn three_octets(first: u8, second: u8, third: u8) -> Opcode
    ensures { result.0 ≡ (first * 256 + second) * 256 + third }
{
    Opcode(u32::from_be_bytes([0, first, second, third]))
}
