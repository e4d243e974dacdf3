//! Opening of an access message to a virtual address under one key, by the first of several labels (Mesh Profile 1.0.1, section 3.8.7.1).
//! Key and nonce are those of all labels, so the message is decrypted once, and each label costs the MIC alone.
#![tactic(auto)]

ghost use Rattle.std.specs.Prelude.{◌≡◌, ◌<◌, ◌≤◌, ◌⊎◌, ◌^◌, ℕ, List, length, map, IsNone, IfSome};
ghost use Rattle.cipher_definitions.specs.Kdf.{virtual_address};
ghost use Rattle.aes_ccm.specs.Trials.{IsTrialOf};
ghost use Rattle.layer_definitions.specs.Labels.{with_label};
ghost use Rattle.layer_definitions.specs.Upper.{OpensUnder, key_octets, trans_mic_length, upper_nonce};
ghost use Rattle.upper_transport.specs.Labelled.{IsDecrypted, OpensByLabel, OpensByNone};

use crate::nonce::{mic_length, nonce};
use crate::sealing::buffer_of;
use aes_block::Schedule;
use aes_ccm::Trial;
use arrayvec::ArrayVec;
use kept_keys::UpperSchedule;
use mesh_base::address::Address;
use mesh_base::octets::Octets;
use mesh_base::upper::UpperFields;

/// An access message that opened under a key.
#[derive(Drop, PartialEq, Eq)]
pub struct LabelOpening {
    /// The place, from 0 on, of the label by which it opened.
    pub label: u32,
    /// The access payload, 1 to 380 octets.
    pub payload: Octets<380>,
}

// A text that is decrypted, for trials of labels.
#[derive(Drop)]
struct Decrypted {
    text: ArrayVec<u8, 380>,
    trial: Trial,
}

// Decrypts a text in place, for trials of its MIC.
fn begin_in_place(
    schedule: &Schedule,
    nonce: &[u8; 13],
    text: &mut ArrayVec<u8, 380>,
    mic_length: usize,
) -> Trial
    requires mic_length { (mic_length ≡ 4) ⊎ (mic_length ≡ 8) }
    ensures value { IsTrialOf schedule.now nonce.now text.old.items text.new.items mic_length result }
{
    Trial::begin(schedule, nonce, text.as_mut_slice(), mic_length)
}

// The octets of an access PDU decrypted. None where they are too few.
fn decrypt(key: &UpperSchedule, f: &UpperFields, upper: &[u8]) -> Option<Decrypted>
    requires { length upper.now ≤ 384 }
    ensures some { IfSome result (IsDecrypted key.now f.now upper.now) }
    ensures none { IsNone result → length upper.now ≤ trans_mic_length f.now.long_mic }
{
    let mic_length = mic_length(f.long_mic);
    if upper.len() <= mic_length {
        return None;
    }
    let (sealed, _) = upper.split_at(upper.len() - mic_length);
    let mut text = buffer_of(sealed);
    let trial = begin_in_place(key.schedule(), &nonce(&key.key(), f), &mut text, mic_length);
    Some(Decrypted { text, trial })
}

// A payload of these octets.
fn payload_of(text: &ArrayVec<u8, 380>) -> Octets<380>
    ensures { result ≡ text.now.items }
{
    let mut payload = Octets::new();
    payload.extend(text.as_slice());
    payload
}

// What a decrypted access PDU opens to with this label, of which this is the address, if it is DST.
fn opened_by(
    d: &Decrypted,
    key: &UpperSchedule,
    label: &[u8; 16],
    address: Address,
    f: &UpperFields,
    upper: &[u8],
) -> Option<Octets<380>>
    requires decrypted { IsDecrypted key.now f.now upper.now d.now }
    requires address { address.0 ≡ virtual_address label.now }
    ensures address { IfSome result (λ _. virtual_address label.now ≡ f.now.dst.0) }
    ensures some { IfSome result (OpensUnder key.now (with_label label.now f.now) upper.now) }
    ensures none { IsNone result → virtual_address label.now ≡ f.now.dst.0
        → (other : List ℕ) → OpensUnder key.now (with_label label.now f.now) upper.now other → ⊥ }
{
    if address.0 != f.dst.0 {
        return None;
    }
    let (_, mic) = upper.split_at(upper.len() - mic_length(f.long_mic));
    if d.trial.opens(key.schedule(), label, d.text.as_slice(), mic) {
        Some(payload_of(&d.text))
    } else {
        None
    }
}

/// The first of the labels with DST as its address by which the octets of an upper transport access PDU, at most 384, open under a kept
/// key, and what they open to. `addresses` are those of the labels, at most 65,536 of them. The label of the fields isn't read.
pub fn open_labelled(
    key: &UpperSchedule,
    labels: &[[u8; 16]],
    addresses: &[Address],
    f: &UpperFields,
    upper: &[u8],
) -> Option<LabelOpening>
    requires labels { length labels.now ≤ 2 ^ 16 }
    requires addresses { addresses.now ≡ map (λ label. record { 0 = virtual_address label }) labels.now }
    requires upper { length upper.now ≤ 384 }
    ensures some { IfSome result (λ o. OpensByLabel key.now labels.now f.now upper.now o.label o.payload) }
    ensures none { IsNone result → OpensByNone key.now labels.now f.now upper.now }
{
    let d = decrypt(key, f, upper)?;
    for (place, label) in labels.iter().enumerate() {
        if let Some(payload) = opened_by(&d, key, label, addresses[place], f, upper) {
            return Some(LabelOpening {
                label: place as u32,
                payload,
            });
        }
    }
    None
}
