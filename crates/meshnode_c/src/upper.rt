//! Access messages of the upper transport layer (Mesh Profile 1.0.1, section 3.6.2).
#![tactic(auto)]

ghost use Rattle.std.specs.Prelude.{◌≡◌, ◌≢◌, ◌⊎◌, ◌↔◌, ◌+◌, ◌<◌, ◌≤◌, ◌^◌, IfSome, IsNone, List, ℕ, length, true};
ghost use Rattle.layer_definitions.specs.Upper.{OpensUnder, trans_mic_length, upper_text};
ghost use Rattle.meshnode_c.specs.Upper.{HasLabelLength, key_of as upper_key_of, label_of as label_in, message_of};

use crate::arrays::{KEY, key_of};
use mesh_base::address::Address;
use mesh_base::keys::UpperKey;
use mesh_base::octets::Octets;
use mesh_base::pair::Pair;
use mesh_base::upper::UpperFields;
use node_handle::status::{LENGTH, OK, RANGE, UNREAD};
use upper_transport::{UpperSchedule, open_kept, seal_access};

/// Octets of an upper transport PDU, at most.
const MOST_UPPER: usize = 384;

/// Octets of a short TransMIC.
const SHORT_MIC: usize = 4;

/// Octets of a long TransMIC.
const LONG_MIC: usize = 8;

/// SEQ is below this: it has 24 bits.
const SEQ_END: u32 = 0x100_0000;

/// What an access message is sealed with besides its key.
#[repr(C)]
#[derive(Drop)]
pub struct MeshnodeMessage {
    /// The IV Index of SeqAuth.
    pub iv: u32,
    /// The SEQ of SeqAuth, below 2^24: that of the message, or of its first segment.
    pub seq: u32,
    /// SRC.
    pub src: u16,
    /// DST.
    pub dst: u16,
    /// Whether the TransMIC has 8 octets; else 4.
    pub long_mic: bool,
}

/// The key, of the device or of an application.
fn upper_key(device: bool, key: &[u8]) -> UpperKey
    requires size { length key.now ≡ 16 }
    ensures value { result ≡ upper_key_of device key.now }
{
    if device {
        UpperKey::Device(key_of(key))
    } else {
        UpperKey::App {
            index: 0,
            aid: 0,
            key: key_of(key),
        }
    }
}

/// The label of a virtual destination, or none.
fn label_of(label: &[u8]) -> Option<[u8; 16]>
    requires size { HasLabelLength label.now }
    ensures value { result ≡ label_in label.now }
{
    if label.is_empty() {
        None
    } else {
        Some(key_of(label))
    }
}

/// The fields of a message.
fn fields_of(message: &MeshnodeMessage, label: &[u8]) -> UpperFields
    requires size { HasLabelLength label.now }
    ensures value { result ≡ message_of message.now label.now }
{
    UpperFields {
        pair: Pair {
            iv: message.iv,
            seq: message.seq,
        },
        src: Address(message.src),
        dst: Address(message.dst),
        long_mic: message.long_mic,
        label: label_of(label),
    }
}

/// How many octets the TransMIC of a message has.
fn mic_of(message: &MeshnodeMessage) -> usize
    ensures value { result ≡ trans_mic_length message.now.long_mic }
    ensures most { result ≤ 8 }
{
    if message.long_mic {
        LONG_MIC
    } else {
        SHORT_MIC
    }
}

/// Whether a key, a label, a payload and the octets of its upper transport PDU have lengths that go with one another.
fn fits(message: &MeshnodeMessage, key: usize, label: usize, payload: usize, upper: usize) -> bool
    ensures value { result ≡ true
        ↔ (key ≡ 16) × ((label ≡ 0) ⊎ (label ≡ 16)) × (1 ≤ payload) × (upper ≤ 384)
        × (payload + trans_mic_length message.now.long_mic ≡ upper) }
{
    key == KEY
        && (label == 0 || label == KEY)
        && payload > 0
        && upper <= MOST_UPPER
        && upper >= mic_of(message)
        && payload == upper - mic_of(message)
}

/// The octets of the upper transport PDU of a payload.
fn upper_of(
    device: bool,
    key: &[u8],
    message: &MeshnodeMessage,
    label: &[u8],
    payload: &[u8],
) -> Octets<384>
    requires key { length key.now ≡ 16 }
    requires label { HasLabelLength label.now }
    requires least { 1 ≤ length payload.now }
    requires most { length payload.now + trans_mic_length message.now.long_mic ≤ 384 }
    ensures value { result ≡ upper_text (upper_key_of device key.now) (message_of message.now label.now) payload.now }
    ensures length { length result ≡ length payload.now + trans_mic_length message.now.long_mic }
{
    seal_access(&upper_key(device, key), &fields_of(message, label), payload)
}

/// The payload that the octets of an upper transport PDU open to, if any.
fn opened(
    device: bool,
    key: &[u8],
    message: &MeshnodeMessage,
    label: &[u8],
    upper: &[u8],
) -> Option<Octets<380>>
    requires key { length key.now ≡ 16 }
    requires label { HasLabelLength label.now }
    requires upper { length upper.now ≤ 384 }
    ensures some { IfSome result (OpensUnder (upper_key_of device key.now) (message_of message.now label.now) upper.now) }
    ensures length { IfSome result (λ payload. length payload + trans_mic_length message.now.long_mic ≡ length upper.now) }
    ensures none { IsNone result → (other : List ℕ)
        → OpensUnder (upper_key_of device key.now) (message_of message.now label.now) upper.now other → ⊥ }
{
    let key = UpperSchedule::new(&upper_key(device, key));
    open_kept(&key, &fields_of(message, label), upper)
}

/// Seals an access payload of 1 octet or more: the octets of its upper transport PDU, as many as the payload has and 4 or 8 for its TransMIC, at most
/// 384. The key has 16 octets, and is the device key or an application key. The label of a virtual DST has 16 octets; else there are 0. Where a length and a
/// number are wrong it is `MESHNODE_LENGTH`.
#[unsafe(no_mangle)]
pub extern "C" fn meshnode_access_seal(
    device: bool,
    key: &[u8],
    message: &MeshnodeMessage,
    label: &[u8],
    payload: &[u8],
    upper: &mut [u8],
) -> u32
    ensures value { result ≡ 0
        → upper.new ≡ upper_text (upper_key_of device key.now) (message_of message.now label.now) payload.now }
    ensures when { result ≡ 0
        ↔ (length key.now ≡ 16) × HasLabelLength label.now × (1 ≤ length payload.now) × (length upper.old ≤ 384)
        × (length payload.now + trans_mic_length message.now.long_mic ≡ length upper.old) × (message.now.seq < 2 ^ 24) }
    ensures lengths { result ≢ 1
        ↔ (length key.now ≡ 16) × HasLabelLength label.now × (1 ≤ length payload.now) × (length upper.old ≤ 384)
        × (length payload.now + trans_mic_length message.now.long_mic ≡ length upper.old) }
    ensures refused { result ≢ 0 → upper.new ≡ upper.old }
    ensures bound { (result ≡ 0) ⊎ (result ≡ 1) ⊎ (result ≡ 2) }
{
    if !fits(message, key.len(), label.len(), payload.len(), upper.len()) {
        return LENGTH;
    }
    if message.seq >= SEQ_END {
        return RANGE;
    }
    upper.copy_from_slice(upper_of(device, key, message, label, payload).as_slice());
    OK
}

/// Opens the octets of an upper transport PDU, sealed as `meshnode_access_seal` says: `payload` has as many octets as they are without the
/// TransMIC, no more. `MESHNODE_UNREAD` where they don't open under this key with these fields. Of the SEQ the low 24 bits count.
#[unsafe(no_mangle)]
pub extern "C" fn meshnode_access_open(
    device: bool,
    key: &[u8],
    message: &MeshnodeMessage,
    label: &[u8],
    upper: &[u8],
    payload: &mut [u8],
) -> u32
    ensures ok { result ≡ 0
        → OpensUnder (upper_key_of device key.now) (message_of message.now label.now) upper.now payload.new }
    ensures unread { result ≡ 3 → (other : List ℕ)
        → OpensUnder (upper_key_of device key.now) (message_of message.now label.now) upper.now other → ⊥ }
    ensures when { result ≢ 1
        ↔ (length key.now ≡ 16) × HasLabelLength label.now × (1 ≤ length payload.old) × (length upper.now ≤ 384)
        × (length payload.old + trans_mic_length message.now.long_mic ≡ length upper.now) }
    ensures refused { result ≢ 0 → payload.new ≡ payload.old }
    ensures bound { (result ≡ 0) ⊎ (result ≡ 1) ⊎ (result ≡ 3) }
{
    if !fits(message, key.len(), label.len(), payload.len(), upper.len()) {
        return LENGTH;
    }
    match opened(device, key, message, label, upper) {
        Some(opened) => {
            payload.copy_from_slice(opened.as_slice());
            OK
        }
        None => UNREAD,
    }
}
