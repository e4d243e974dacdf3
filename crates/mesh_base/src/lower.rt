//! The four kinds of lower transport PDU (Mesh Profile 1.0.1, section 3.5.2).
#![tactic(auto)]

use crate::octets::Octets;
use std::alloc::AllocError;

/// A lower transport PDU.
#[derive(Drop)]
pub enum Lower {
    /// An unsegmented access message (section 3.5.2.1).
    Access {
        /// Whether an application key sealed it; else the device key.
        akf: bool,
        /// AID, 6 bits; 0 with the device key.
        aid: u8,
        /// The upper transport PDU, 5 to 15 octets.
        upper: Octets<15>,
    },
    /// An unsegmented control message (section 3.5.2.3).
    Control {
        /// The opcode, 7 bits.
        opcode: u8,
        /// The parameters, 0 to 11 octets.
        params: Octets<11>,
    },
    /// A segment of an access message (section 3.5.2.2).
    AccessPart {
        /// Whether an application key sealed the message; else the device key.
        akf: bool,
        /// AID, 6 bits; 0 with the device key.
        aid: u8,
        /// Whether the TransMIC has 8 octets; else 4.
        szmic: bool,
        /// SeqZero: the low 13 bits of SeqAuth.
        seq_zero: u16,
        /// SegO, 5 bits: which segment this is, from 0 on.
        seg_o: u8,
        /// SegN, 5 bits: the number of the last segment.
        seg_n: u8,
        /// 12 octets of the upper transport PDU; the last segment has 1 to 12.
        piece: Octets<12>,
    },
    /// A segment of a control message (section 3.5.2.4).
    ControlPart {
        /// The opcode, 7 bits.
        opcode: u8,
        /// SeqZero: the low 13 bits of SeqAuth.
        seq_zero: u16,
        /// SegO, 5 bits: which segment this is, from 0 on.
        seg_o: u8,
        /// SegN, 5 bits: the number of the last segment.
        seg_n: u8,
        /// 8 octets of the parameters; the last segment has 1 to 8.
        piece: Octets<8>,
    },
}

impl Clone for Lower {
    ghost use Rattle.std.specs.Prelude.{◌≡◌, ⊤};

    ghost is_clone = { λ l m. m ≡ l };

    ghost is_infallible = { λ _. ⊤ };

    fn clone(&self) -> Result<Lower, AllocError> {
        Ok(self.copied())
    }
}

impl Lower {
    ghost use Rattle.std.specs.Prelude.{◌≡◌};

    /// The same PDU once more. It takes no memory, so it can't fail as a `clone` may.
    pub fn copied(&self) -> Lower
        ensures value { result ≡ self.now }
    {
        match self {
            Lower::Access { akf, aid, upper } => Lower::Access {
                akf: *akf,
                aid: *aid,
                upper: upper.copied(),
            },
            Lower::Control { opcode, params } => Lower::Control {
                opcode: *opcode,
                params: params.copied(),
            },
            Lower::AccessPart {
                akf,
                aid,
                szmic,
                seq_zero,
                seg_o,
                seg_n,
                piece,
            } => Lower::AccessPart {
                akf: *akf,
                aid: *aid,
                szmic: *szmic,
                seq_zero: *seq_zero,
                seg_o: *seg_o,
                seg_n: *seg_n,
                piece: piece.copied(),
            },
            Lower::ControlPart {
                opcode,
                seq_zero,
                seg_o,
                seg_n,
                piece,
            } => Lower::ControlPart {
                opcode: *opcode,
                seq_zero: *seq_zero,
                seg_o: *seg_o,
                seg_n: *seg_n,
                piece: piece.copied(),
            },
        }
    }
}
