//! What a segment says (Mesh Profile 1.0.1, sections 3.5.2.2 and 3.5.2.4).
#![tactic(auto)]

ghost use Rattle.std.specs.Prelude.{◌≡◌, ◌<◌, ◌≤◌, ◌^◌, length};
ghost use Rattle.layer_definitions.specs.Lower.{Fits};
ghost use Rattle.layer_states.specs.Reassembly.{form_of as form_in, seg_o_of as seg_o_in, seg_n_of as seg_n_in, piece_of as piece_in};

use layer_states::reassembly::Form;
use mesh_base::lower::Lower;

/// What a segment has in common with the others of its message.
pub(crate) fn form_of(part: &Lower) -> Form
    ensures { result ≡ form_in part.now }
{
    match part {
        Lower::Access { akf, aid, .. } => Form {
            ctl: false,
            akf: *akf,
            code: *aid,
            szmic: false,
        },
        Lower::AccessPart {
            akf,
            aid,
            szmic,
            ..
        } => Form {
            ctl: false,
            akf: *akf,
            code: *aid,
            szmic: *szmic,
        },
        Lower::Control { opcode, .. } | Lower::ControlPart { opcode, .. } => Form {
            ctl: true,
            akf: false,
            code: *opcode,
            szmic: false,
        },
    }
}

/// SegO.
pub(crate) fn seg_o_of(part: &Lower) -> u8
    ensures { result ≡ seg_o_in part.now }
{
    match part {
        Lower::Access { .. } | Lower::Control { .. } => 0,
        Lower::AccessPart { seg_o, .. } | Lower::ControlPart { seg_o, .. } => *seg_o,
    }
}

/// SegN.
pub(crate) fn seg_n_of(part: &Lower) -> u8
    ensures { result ≡ seg_n_in part.now }
{
    match part {
        Lower::Access { .. } | Lower::Control { .. } => 0,
        Lower::AccessPart { seg_n, .. } | Lower::ControlPart { seg_n, .. } => *seg_n,
    }
}

/// The octets of a segment.
pub(crate) fn piece_of(part: &Lower) -> &[u8]
    ensures value { result.now ≡ piece_in part.now }
    ensures length { length result.now ≤ 12 }
{
    match part {
        Lower::Access { .. } | Lower::Control { .. } => &[],
        Lower::AccessPart { piece, .. } => piece.as_slice(),
        Lower::ControlPart { piece, .. } => piece.as_slice(),
    }
}
