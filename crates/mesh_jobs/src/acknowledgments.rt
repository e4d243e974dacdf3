//! Segment Acknowledgments (Mesh Profile 1.0.1, section 3.5.2.3.1).
#![tactic(auto)]

ghost use Rattle.std.specs.Prelude.{◌≡◌, ◌+◌, ◌-◌, ◌<◌, ◌^◌};
ghost use Rattle.layer_definitions.specs.Lower.{acknowledgment, lower_text};

use mesh_base::control::{Acknowledgment, ControlMsg};
use mesh_base::octets::Octets;
use upper_transport::write_control;

/// The transport PDU of an acknowledgment, of 7 octets. SeqZero has 13 bits.
#[tactic(auto, unfolding(layer_definitions::specs::Lower::lower_text, layer_definitions::specs::Control::control_text))]
pub(crate) fn acknowledgment(seq_zero: u16, block: u32) -> Octets<16>
    requires { seq_zero < 2 ^ 13 }
    ensures value { result ≡ lower_text (acknowledgment seq_zero block) }
{
    let text = write_control(&ControlMsg::Acknowledgment(Acknowledgment {
        obo: false,
        seq_zero,
        block_ack: block,
    }));
    let mut octets = Octets::new();
    octets.extend(text.as_slice());
    octets
}

/// BlockAck of all pieces of a message whose last one has this number, of 5 bits.
pub(crate) fn all_pieces(seg_n: u8) -> u32
    requires { seg_n < 2 ^ 5 }
    ensures value { result ≡ 2 ^ (seg_n + 1) - 1 }
{
    u32::MAX >> (31 - seg_n)
}
