//! Network PDUs (Mesh Profile 1.0.1, section 3.4).
#![tactic(auto)]

ghost use Rattle.std.specs.Prelude.{◌≡◌, ◌≢◌, ◌⊎◌, ◌↔◌, ◌<◌, ◌≤◌, ◌^◌, length, take, if◌then◌else◌};
ghost use Rattle.mesh_base.specs.declared.fields.NetFields.{NetFields as Fields};
ghost use Rattle.layer_definitions.specs.Network.{ReadsUnder, net_text};
ghost use Rattle.meshnode_c.specs.Network.{fields_of, material_of};

use crate::credentials::{MeshnodeCredentials, material_of};
use mesh_base::address::Address;
use mesh_base::fields::NetFields;
use mesh_base::octets::Octets;
use network_layer::{NetSchedules, read_one, seal};
use node_handle::status::{LENGTH, OK, RANGE, UNREAD};

/// Octets of a network PDU, at most.
const MOST_PDU: usize = 29;

/// Octets of a transport PDU, at most: of an access message, and of a control message.
const MOST_ACCESS: usize = 16;

const MOST_CONTROL: usize = 12;

/// NID and TTL have 7 bits.
const SEVEN_BITS: u8 = 128;

/// SEQ has 24 bits.
const SEQ_END: u32 = 0x100_0000;

/// The fields of a network PDU but for its transport PDU.
#[repr(C)]
#[derive(Drop)]
pub struct MeshnodeHead {
    /// The IV Index.
    pub iv: u32,
    /// SEQ, below 2^24.
    pub seq: u32,
    /// SRC.
    pub src: u16,
    /// DST.
    pub dst: u16,
    /// Whether it is a control message.
    pub ctl: bool,
    /// TTL, below 128.
    pub ttl: u8,
}

/// The octets of the network PDU of these fields: at most 29, in the front of `pdu`, whose length is 29; `size` tells how many. The transport PDU
/// has 1 to 16 octets, or 1 to 12 in a control message. Where a length and a number are wrong it is `MESHNODE_LENGTH`.
#[unsafe(no_mangle)]
pub extern "C" fn meshnode_net_seal(
    by: &MeshnodeCredentials,
    head: &MeshnodeHead,
    tpdu: &[u8],
    pdu: &mut [u8],
    size: &mut usize,
) -> u32
    ensures value { result ≡ 0 → take size.new pdu.new ≡ net_text (material_of by.now) (fields_of head.now tpdu.now) }
    ensures size { result ≡ 0 → size.new ≡ length (net_text (material_of by.now) (fields_of head.now tpdu.now)) }
    ensures when { result ≡ 0
        ↔ (length pdu.old ≡ 29) × (1 ≤ length tpdu.now) × (length tpdu.now ≤ (if head.now.ctl then 12 else 16))
        × (by.now.nid < 2 ^ 7) × (head.now.ttl < 2 ^ 7) × (head.now.seq < 2 ^ 24) }
    ensures lengths { result ≢ 1
        ↔ (length pdu.old ≡ 29) × (1 ≤ length tpdu.now) × (length tpdu.now ≤ (if head.now.ctl then 12 else 16)) }
    ensures refused { result ≢ 0 → (pdu.new ≡ pdu.old) × (size.new ≡ size.old) }
    ensures bound { (result ≡ 0) ⊎ (result ≡ 1) ⊎ (result ≡ 2) }
{
    if pdu.len() != MOST_PDU {
        return LENGTH;
    }
    let most = if head.ctl { MOST_CONTROL } else { MOST_ACCESS };
    if tpdu.is_empty() || tpdu.len() > most {
        return LENGTH;
    }
    if by.nid >= SEVEN_BITS || head.ttl >= SEVEN_BITS || head.seq >= SEQ_END {
        return RANGE;
    }
    let Ok(tpdu) = Octets::of(tpdu) else {
        return LENGTH;
    };
    let fields = NetFields {
        iv: head.iv,
        ctl: head.ctl,
        ttl: head.ttl,
        seq: head.seq,
        src: Address(head.src),
        dst: Address(head.dst),
        tpdu,
    };
    let octets = seal(&material_of(by), &fields);
    let octets = octets.as_slice();
    pdu[..octets.len()].copy_from_slice(octets);
    *size = octets.len();
    OK
}

/// Opens a network PDU, heard by a node whose IV Index is `current`: it may be under this one or the one before. The transport PDU is put into the
/// front of `tpdu`, whose length is 16, and `size` tells how many. `MESHNODE_UNREAD` where it is none under these credentials, as under those
/// whose NID is 128 or more.
#[unsafe(no_mangle)]
pub extern "C" fn meshnode_net_open(
    by: &MeshnodeCredentials,
    current: u32,
    pdu: &[u8],
    head: &mut MeshnodeHead,
    tpdu: &mut [u8],
    size: &mut usize,
) -> u32
    ensures ok { result ≡ 0
        → ReadsUnder (material_of by.now) current pdu.now (fields_of head.new (take size.new tpdu.new)) }
    ensures size { result ≡ 0 → size.new ≤ 16 }
    ensures unread { result ≡ 3 → (fields : Fields) → ReadsUnder (material_of by.now) current pdu.now fields → ⊥ }
    ensures when { result ≢ 1 ↔ length tpdu.old ≡ 16 }
    ensures refused { result ≢ 0 → (head.new ≡ head.old) × (tpdu.new ≡ tpdu.old) × (size.new ≡ size.old) }
    ensures bound { (result ≡ 0) ⊎ (result ≡ 1) ⊎ (result ≡ 3) }
{
    if tpdu.len() != MOST_ACCESS {
        return LENGTH;
    }
    let Some(fields) = read_one(&NetSchedules::new(&material_of(by)), current, pdu) else {
        return UNREAD;
    };
    head.iv = fields.iv;
    head.seq = fields.seq;
    head.src = fields.src.0;
    head.dst = fields.dst.0;
    head.ctl = fields.ctl;
    head.ttl = fields.ttl;
    let octets = fields.tpdu.as_slice();
    tpdu[..octets.len()].copy_from_slice(octets);
    *size = octets.len();
    OK
}
