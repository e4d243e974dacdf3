//! Lower transport PDUs (Mesh Profile 1.0.1, section 3.5.2), the parameters of a Segment Acknowledgment (section 3.5.2.3.1), and SeqAuth
//! (section 3.5.3.1).
#![tactic(auto)]

ghost use Rattle.std.specs.Prelude.{◌≡◌, ◌≢◌, ◌⊎◌, ◌↔◌, ◌<◌, ◌≤◌, ◌%◌, ◌^◌, ◌∷◌, ℕ, IfSome, IsNone, length, slice_index, take, true};
ghost use Rattle.mesh_base.specs.declared.control.ControlMsg.TheVariants as C;
ghost use Rattle.mesh_base.specs.declared.lower.Lower.{Lower as LowerOf};
ghost use Rattle.layer_definitions.specs.Control.{ReadsControl, control_text};
ghost use Rattle.layer_definitions.specs.Lower.{Fits, ReadsLower, lower_text};
ghost use Rattle.lower_transport.specs.SeqAuth.{IsSeqAuth};
ghost use Rattle.meshnode_c.specs.Lower.{IsPlain, acknowledgment_of, least_octets, lower_of, most_octets, octets_in};

use lower_transport::{Lower, read, seq_auth, write};
use mesh_base::control::{Acknowledgment, ControlMsg};
use mesh_base::octets::Octets;
use mesh_base::pair::Pair;
use node_handle::status::{LENGTH, OK, RANGE, UNREAD};
use upper_transport::{read_control, write_control};

/// Octets of a transport PDU, at most.
const MOST_TPDU: usize = 16;

/// Octets of an unsegmented access message, at least.
const LEAST_ACCESS: usize = 5;

/// Octets of an unsegmented access message, at most.
const MOST_ACCESS: usize = 15;

/// Octets of an unsegmented control message, at most.
const MOST_CONTROL: usize = 11;

/// Octets of a segment of an access message that isn't the last.
const ACCESS_PIECE: usize = 12;

/// Octets of a segment of a control message that isn't the last.
const CONTROL_PIECE: usize = 8;

/// Octets of the parameters of a Segment Acknowledgment.
const ACKNOWLEDGMENT: usize = 6;

/// An AID is below this: it has 6 bits.
const SIX_BITS: u8 = 64;

/// An opcode of a control message is below this: it has 7 bits.
const SEVEN_BITS: u8 = 128;

/// SegO and SegN are below this: each has 5 bits.
const FIVE_BITS: u8 = 32;

/// SeqZero is below this: it has 13 bits.
const SEQ_ZERO_END: u16 = 0x2000;

/// The fields of a lower transport PDU but for its octets. Of a PDU that was read those that its kind hasn't are 0; of one that is written they
/// aren't looked at.
#[repr(C)]
#[derive(Drop)]
pub struct MeshnodeLower {
    /// Whether it is of a control message.
    pub ctl: bool,
    /// SEG: whether it is a segment.
    pub seg: bool,
    /// AKF, of an access message: whether an application key sealed it; else the device key.
    pub akf: bool,
    /// SZMIC, of a segment of an access message: whether the TransMIC has 8 octets; else 4.
    pub szmic: bool,
    /// AID, below 64, of an access message: 0 with the device key.
    pub aid: u8,
    /// The opcode, below 128, of a control message.
    pub opcode: u8,
    /// SegO, of a segment: which it is, from 0 to SegN.
    pub seg_o: u8,
    /// SegN, below 32, of a segment: the number of the last one.
    pub seg_n: u8,
    /// SeqZero, below 2^13, of a segment: the low bits of SeqAuth.
    pub seq_zero: u16,
}

/// What a Segment Acknowledgment says.
#[repr(C)]
#[derive(Drop)]
pub struct MeshnodeAcknowledgment {
    /// OBO: whether a friend acknowledges on behalf of its Low Power node.
    pub obo: bool,
    /// SeqZero, below 2^13.
    pub seq_zero: u16,
    /// BlockAck: bit n is 1 where segment n was received.
    pub block_ack: u32,
}

/// How many octets a PDU of this kind has at most.
fn most_of(head: &MeshnodeLower) -> usize
    ensures value { result ≡ most_octets head.now }
{
    match (head.seg, head.ctl) {
        (true, true) => CONTROL_PIECE,
        (true, false) => ACCESS_PIECE,
        (false, true) => MOST_CONTROL,
        (false, false) => MOST_ACCESS,
    }
}

/// How many octets a PDU of this kind has at least.
fn least_of(head: &MeshnodeLower) -> usize
    ensures value { result ≡ least_octets head.now }
{
    if head.seg {
        if head.seg_o == head.seg_n {
            1
        } else {
            most_of(head)
        }
    } else if head.ctl {
        0
    } else {
        LEAST_ACCESS
    }
}

/// These octets, which are at most N.
fn short<const N: usize>(octets: &[u8]) -> Octets<N>
    requires { length octets.now ≤ N }
    ensures value { result ≡ octets.now }
{
    let mut out = Octets::new();
    out.extend(octets);
    out
}

/// The segment of these fields and octets, as many as it has room for. None exactly where a number is out of its range.
fn segment_of(head: &MeshnodeLower, octets: &[u8]) -> Option<Lower>
    requires segment { head.now.seg ≡ true }
    requires least { least_octets head.now ≤ length octets.now }
    requires most { length octets.now ≤ most_octets head.now }
    ensures some { IfSome result (λ l. (l ≡ lower_of head.now octets.now) × Fits l) }
    ensures none { IsNone result → Fits (lower_of head.now octets.now) → ⊥ }
{
    if head.seq_zero >= SEQ_ZERO_END || head.seg_n >= FIVE_BITS || head.seg_o > head.seg_n {
        return None;
    }
    if head.ctl {
        if head.opcode >= SEVEN_BITS {
            return None;
        }
        return Some(Lower::ControlPart {
            opcode: head.opcode,
            seq_zero: head.seq_zero,
            seg_o: head.seg_o,
            seg_n: head.seg_n,
            piece: short(octets),
        });
    }
    if head.aid >= SIX_BITS || (!head.akf && head.aid != 0) {
        return None;
    }
    Some(Lower::AccessPart {
        akf: head.akf,
        aid: head.aid,
        szmic: head.szmic,
        seq_zero: head.seq_zero,
        seg_o: head.seg_o,
        seg_n: head.seg_n,
        piece: short(octets),
    })
}

/// The PDU of these fields and octets, as many as it has room for. None exactly where a number is out of its range.
fn pdu_of(head: &MeshnodeLower, octets: &[u8]) -> Option<Lower>
    requires least { least_octets head.now ≤ length octets.now }
    requires most { length octets.now ≤ most_octets head.now }
    ensures some { IfSome result (λ l. (l ≡ lower_of head.now octets.now) × Fits l) }
    ensures none { IsNone result → Fits (lower_of head.now octets.now) → ⊥ }
{
    if head.seg {
        return segment_of(head, octets);
    }
    if head.ctl {
        if head.opcode >= SEVEN_BITS {
            return None;
        }
        return Some(Lower::Control {
            opcode: head.opcode,
            params: short(octets),
        });
    }
    if head.aid >= SIX_BITS || (!head.akf && head.aid != 0) {
        return None;
    }
    Some(Lower::Access {
        akf: head.akf,
        aid: head.aid,
        upper: short(octets),
    })
}

/// The octets of the lower transport PDU of these fields: at most 16, in the front of `tpdu`, whose length is 16; `size` tells how many. An
/// unsegmented access message has 5 to 15 octets, its upper transport PDU; an unsegmented control message 0 to 11, its parameters. A segment of
/// an access message has 12 and of a control message 8, the last one 1 to so many. Where a length and a number are wrong it is `MESHNODE_LENGTH`.
#[unsafe(no_mangle)]
pub extern "C" fn meshnode_lower_write(
    head: &MeshnodeLower,
    octets: &[u8],
    tpdu: &mut [u8],
    size: &mut usize,
) -> u32
    ensures value { result ≡ 0 → take size.new tpdu.new ≡ lower_text (lower_of head.now octets.now) }
    ensures size { result ≡ 0 → size.new ≡ length (lower_text (lower_of head.now octets.now)) }
    ensures when { result ≡ 0 ↔ (length tpdu.old ≡ 16) × Fits (lower_of head.now octets.now) }
    ensures lengths { result ≢ 1
        ↔ (length tpdu.old ≡ 16) × (least_octets head.now ≤ length octets.now)
        × (length octets.now ≤ most_octets head.now) }
    ensures refused { result ≢ 0 → (tpdu.new ≡ tpdu.old) × (size.new ≡ size.old) }
    ensures bound { (result ≡ 0) ⊎ (result ≡ 1) ⊎ (result ≡ 2) }
{
    if tpdu.len() != MOST_TPDU {
        return LENGTH;
    }
    if octets.len() < least_of(head) || octets.len() > most_of(head) {
        return LENGTH;
    }
    let Some(lower) = pdu_of(head, octets) else {
        return RANGE;
    };
    let written = write(&lower);
    let written = written.as_slice();
    tpdu[..written.len()].copy_from_slice(written);
    *size = written.len();
    OK
}

/// The fields of a PDU.
fn head_of(lower: &Lower) -> MeshnodeLower
    ensures value { lower_of result (octets_in lower.now) ≡ lower.now }
    ensures plain { IsPlain result }
{
    let mut head = MeshnodeLower {
        ctl: false,
        seg: false,
        akf: false,
        szmic: false,
        aid: 0,
        opcode: 0,
        seg_o: 0,
        seg_n: 0,
        seq_zero: 0,
    };
    match lower {
        Lower::Access { akf, aid, .. } => {
            head.akf = *akf;
            head.aid = *aid;
        }
        Lower::Control { opcode, .. } => {
            head.ctl = true;
            head.opcode = *opcode;
        }
        Lower::AccessPart {
            akf,
            aid,
            szmic,
            seq_zero,
            seg_o,
            seg_n,
            ..
        } => {
            head.seg = true;
            head.akf = *akf;
            head.aid = *aid;
            head.szmic = *szmic;
            head.seq_zero = *seq_zero;
            head.seg_o = *seg_o;
            head.seg_n = *seg_n;
        }
        Lower::ControlPart {
            opcode,
            seq_zero,
            seg_o,
            seg_n,
            ..
        } => {
            head.ctl = true;
            head.seg = true;
            head.opcode = *opcode;
            head.seq_zero = *seq_zero;
            head.seg_o = *seg_o;
            head.seg_n = *seg_n;
        }
    }
    head
}

/// The octets of a PDU: its upper transport PDU, its parameters, or those of a segment.
fn octets_of(lower: &Lower) -> &[u8]
    ensures value { result.now ≡ octets_in lower.now }
    ensures most { length result.now ≤ 15 }
{
    match lower {
        Lower::Access { upper, .. } => upper.as_slice(),
        Lower::Control { params, .. } => params.as_slice(),
        Lower::AccessPart { piece, .. } => piece.as_slice(),
        Lower::ControlPart { piece, .. } => piece.as_slice(),
    }
}

/// Reads the transport PDU of a network PDU with this CTL. Its octets are put into the front of `octets`, whose length is 15, and `size` tells
/// how many. Reserved bits, and AID with the device key, are read as anything. `MESHNODE_UNREAD` where no PDU has these octets.
#[unsafe(no_mangle)]
pub extern "C" fn meshnode_lower_read(
    ctl: bool,
    tpdu: &[u8],
    head: &mut MeshnodeLower,
    octets: &mut [u8],
    size: &mut usize,
) -> u32
    ensures ok { result ≡ 0 → ReadsLower ctl tpdu.now (lower_of head.new (take size.new octets.new)) }
    ensures plain { result ≡ 0 → IsPlain head.new }
    ensures size { result ≡ 0 → size.new ≤ 15 }
    ensures unread { result ≡ 3 → (lower : LowerOf) → ReadsLower ctl tpdu.now lower → ⊥ }
    ensures when { result ≢ 1 ↔ length octets.old ≡ 15 }
    ensures refused { result ≢ 0 → (head.new ≡ head.old) × (octets.new ≡ octets.old) × (size.new ≡ size.old) }
    ensures bound { (result ≡ 0) ⊎ (result ≡ 1) ⊎ (result ≡ 3) }
{
    if octets.len() != MOST_ACCESS {
        return LENGTH;
    }
    let Ok(lower) = read(ctl, tpdu) else {
        return UNREAD;
    };
    *head = head_of(&lower);
    let read = octets_of(&lower);
    octets[..read.len()].copy_from_slice(read);
    *size = read.len();
    OK
}

/// The octets of a Segment Acknowledgment: its opcode and 6 of parameters.
#[tactic(auto, unfolding(layer_definitions::specs::Control::control_text))]
fn octets_of_acknowledgment(said: &MeshnodeAcknowledgment) -> Octets<12>
    requires { said.now.seq_zero < 2 ^ 13 }
    ensures value { result ≡ control_text (C.Acknowledgment (acknowledgment_of said.now)) }
    ensures length { length result ≡ 7 }
    ensures opcode { slice_index result 0 ≡ 0 }
{
    write_control(&ControlMsg::Acknowledgment(Acknowledgment {
        obo: said.obo,
        seq_zero: said.seq_zero,
        block_ack: said.block_ack,
    }))
}

/// The 6 octets of parameters of a Segment Acknowledgment, which is a control message with opcode 00.
#[unsafe(no_mangle)]
pub extern "C" fn meshnode_acknowledgment_write(
    said: &MeshnodeAcknowledgment,
    params: &mut [u8],
) -> u32
    ensures value { result ≡ 0 → 0 ∷ params.new ≡ control_text (C.Acknowledgment (acknowledgment_of said.now)) }
    ensures when { result ≡ 0 ↔ (length params.old ≡ 6) × (said.now.seq_zero < 2 ^ 13) }
    ensures lengths { result ≢ 1 ↔ length params.old ≡ 6 }
    ensures refused { result ≢ 0 → params.new ≡ params.old }
    ensures bound { (result ≡ 0) ⊎ (result ≡ 1) ⊎ (result ≡ 2) }
{
    if params.len() != ACKNOWLEDGMENT {
        return LENGTH;
    }
    if said.seq_zero >= SEQ_ZERO_END {
        return RANGE;
    }
    let octets = octets_of_acknowledgment(said);
    let [_, written @ ..] = octets.as_slice() else {
        return LENGTH;
    };
    params.copy_from_slice(written);
    OK
}

/// Reads the 6 octets of parameters of a Segment Acknowledgment. The two bits before BlockAck are reserved, and read as anything.
#[unsafe(no_mangle)]
pub extern "C" fn meshnode_acknowledgment_read(
    params: &[u8],
    said: &mut MeshnodeAcknowledgment,
) -> u32
    ensures ok { result ≡ 0 → ReadsControl 0 params.now (C.Acknowledgment (acknowledgment_of said.new)) }
    ensures when { result ≡ 0 ↔ length params.now ≡ 6 }
    ensures refused { result ≢ 0 → (result ≡ 1) × (said.new ≡ said.old) }
{
    if params.len() != ACKNOWLEDGMENT {
        return LENGTH;
    }
    match read_control(0, params) {
        ControlMsg::Acknowledgment(read) => {
            said.obo = read.obo;
            said.seq_zero = read.seq_zero;
            said.block_ack = read.block_ack;
            OK
        }
        _ => LENGTH,
    }
}

/// SEQ of SeqAuth, for a segment that came with this SEQ: the greatest number up to it whose low 13 bits are SeqZero. Its IV Index is that of the
/// segment. Both numbers may be any. `MESHNODE_UNREAD` where there is no such number.
#[unsafe(no_mangle)]
pub extern "C" fn meshnode_seq_auth(seq: u32, seq_zero: u16, auth: &mut u32) -> u32
    ensures ok { result ≡ 0 → IsSeqAuth seq seq_zero auth.new }
    ensures unread { result ≢ 0 → (n : ℕ) → n ≤ seq → n % 2 ^ 13 ≡ seq_zero → ⊥ }
    ensures refused { result ≢ 0 → (result ≡ 3) × (auth.new ≡ auth.old) }
{
    match seq_auth(Pair { iv: 0, seq }, seq_zero) {
        Some(pair) => {
            *auth = pair.seq;
            OK
        }
        None => UNREAD,
    }
}
