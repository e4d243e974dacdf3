//! Sealing of an access message (Mesh Profile 1.0.1, sections 3.6.2 and 3.8.7.1).
#![tactic(auto)]

ghost use Rattle.std.specs.Prelude.{◌≡◌, ◌+◌, ◌<◌, ◌≤◌, ◌⊎◌, ◌^◌, length};
ghost use Rattle.cipher_definitions.specs.Ccm.{ccm_text, ccm_mic};
ghost use Rattle.layer_definitions.specs.Upper.{trans_mic_length, upper_text};

use crate::nonce::{label_of, nonce};
use aes_block::Schedule;
use arrayvec::ArrayVec;
use kept_keys::UpperSchedule;
use mesh_base::keys::UpperKey;
use mesh_base::octets::Octets;
use mesh_base::upper::UpperFields;

/// These octets, in a buffer of their own.
pub(crate) fn buffer_of(octets: &[u8]) -> ArrayVec<u8, 380>
    requires { length octets.now ≤ 380 }
    ensures { result.items ≡ octets.now }
{
    let mut buffer = ArrayVec::new();
    let _ = buffer.try_extend_from_slice(octets);
    buffer
}

// Encrypts the octets of `text` in place, and writes their MIC.
fn seal_in_place(
    schedule: &Schedule,
    nonce: &[u8; 13],
    label: &[u8],
    text: &mut ArrayVec<u8, 380>,
    mic: &mut [u8],
)
    requires mic_length { (length mic.old ≡ 4) ⊎ (length mic.old ≡ 8) }
    requires label_length { length label.now ≤ 16 }
    ensures text { text.new.items ≡ ccm_text schedule.now nonce.now text.old.items }
    ensures mic { mic.new ≡ ccm_mic schedule.now nonce.now label.now text.old.items (length mic.old) }
{
    aes_ccm::seal(schedule, nonce, label, text.as_mut_slice(), mic);
}

// The payload encrypted, and TransMIC, with room for TransMIC given.
#[tactic(auto, unfolding(layer_definitions::specs::Upper::upper_text))]
fn sealed_with(key: &UpperSchedule, f: &UpperFields, payload: &[u8], mic: &mut [u8]) -> Octets<384>
    requires mic { length mic.old ≡ trans_mic_length f.now.long_mic }
    requires mic_length { (length mic.old ≡ 4) ⊎ (length mic.old ≡ 8) }
    requires payload { length payload.now + length mic.old ≤ 384 }
    ensures { result ≡ upper_text key.now f.now payload.now }
{
    let mut text = buffer_of(payload);
    seal_in_place(
        key.schedule(),
        &nonce(&key.key(), f),
        label_of(f),
        &mut text,
        mic,
    );
    let mut upper = Octets::new();
    upper.extend(text.as_slice());
    upper.extend(mic);
    upper
}

/// The octets of the upper transport access PDU of this payload, under this kept key with these fields.
///
/// The payload has at least one octet, and with its TransMIC of 4 or 8 octets at most 384. Of the SEQ the low 24 bits count.
pub fn seal_kept(key: &UpperSchedule, f: &UpperFields, payload: &[u8]) -> Octets<384>
    requires least { 1 ≤ length payload.now }
    requires most { length payload.now + trans_mic_length f.now.long_mic ≤ 384 }
    ensures value { result ≡ upper_text key.now f.now payload.now }
{
    if f.long_mic {
        sealed_with(key, f, payload, &mut [0; 8])
    } else {
        sealed_with(key, f, payload, &mut [0; 4])
    }
}

/// The same under a key whose schedule is made for this message alone.
///
/// The payload has at least one octet, and with its TransMIC of 4 or 8 octets at most 384. Of the SEQ the low 24 bits count.
pub fn seal_access(key: &UpperKey, f: &UpperFields, payload: &[u8]) -> Octets<384>
    requires least { 1 ≤ length payload.now }
    requires most { length payload.now + trans_mic_length f.now.long_mic ≤ 384 }
    ensures value { result ≡ upper_text key.now f.now payload.now }
{
    seal_kept(&UpperSchedule::new(key), f, payload)
}
