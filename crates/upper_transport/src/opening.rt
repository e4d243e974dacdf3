//! Opening of an access message under the keys that may have sealed it (Mesh Profile 1.0.1, sections 3.6.4.2 and 3.8.7.1).
#![tactic(auto)]

ghost use Rattle.std.specs.Prelude.{◌≡◌, ◌+◌, ◌<◌, ◌≤◌, ◌↔◌, ◌⊎◌, ◌^◌, ℕ, List, length, IsErr, IsNone, IfOk, IfSome, OnErr, OnOk};
ghost use Rattle.cipher_definitions.specs.Ccm.{Seals};
ghost use Rattle.kept_keys.specs.Bound.{fitting_keys};
ghost use Rattle.layer_definitions.specs.Upper.{IsUnopened, Opens, OpensUnder, key_octets, label_octets, upper_nonce};

use crate::nonce::{label_of, mic_length, nonce};
use crate::sealing::buffer_of;
use aes_block::Schedule;
use aes_ccm::BadMic;
use arrayvec::ArrayVec;
use kept_keys::{BoundSchedule, UpperSchedule};
use mesh_base::keys::UpperKey;
use mesh_base::octets::Octets;
use mesh_base::upper::UpperFields;
use thiserror::Error;

/// An access message that opened.
#[derive(Drop, PartialEq, Eq)]
pub struct Opened {
    /// The place, from 0 on, of the key that opened it.
    pub at: u32,
    /// The access payload, 1 to 380 octets.
    pub payload: Octets<380>,
}

/// No key of the list opens the message.
#[derive(Clone, Copy, Debug, PartialEq, Eq, Error)]
#[error("no key of the list opens the message")]
pub struct NoKey;

// Opens the octets of `text` in place, if `mic` is their MIC.
fn unseal_in_place(
    schedule: &Schedule,
    nonce: &[u8; 13],
    label: &[u8],
    text: &mut ArrayVec<u8, 380>,
    mic: &[u8],
) -> Result<(), BadMic>
    requires mic_length { (length mic.now ≡ 4) ⊎ (length mic.now ≡ 8) }
    requires label_length { length label.now ≤ 16 }
    ensures ok { OnOk result (Seals schedule.now nonce.now label.now text.new.items text.old.items mic.now) }
    ensures bad_mic { OnErr result
        ((other : List ℕ) → Seals schedule.now nonce.now label.now other text.old.items mic.now → ⊥) }
{
    aes_ccm::unseal(schedule, nonce, label, text.as_mut_slice(), mic)
}

// The text that these octets and this MIC open to, if any.
fn text_of(
    key: &UpperSchedule,
    f: &UpperFields,
    sealed: &[u8],
    mic: &[u8],
) -> Option<ArrayVec<u8, 380>>
    requires sealed { length sealed.now ≤ 380 }
    requires mic { (length mic.now ≡ 4) ⊎ (length mic.now ≡ 8) }
    ensures some { IfSome result
        (λ t. Seals (key_octets key.now) (upper_nonce key.now f.now) (label_octets f.now) t.items sealed.now mic.now) }
    ensures none { IsNone result → (other : List ℕ)
        → Seals (key_octets key.now) (upper_nonce key.now f.now) (label_octets f.now) other sealed.now mic.now → ⊥ }
{
    let mut text = buffer_of(sealed);
    match unseal_in_place(
        key.schedule(),
        &nonce(&key.key(), f),
        label_of(f),
        &mut text,
        mic,
    ) {
        Ok(()) => Some(text),
        Err(_) => None,
    }
}

/// The payload that the octets of an upper transport access PDU, at most 384, open to under this kept key, if any.
pub fn open_kept(key: &UpperSchedule, f: &UpperFields, upper: &[u8]) -> Option<Octets<380>>
    requires { length upper.now ≤ 384 }
    ensures some { IfSome result (OpensUnder key.now f.now upper.now) }
    ensures none { IsNone result → (other : List ℕ) → OpensUnder key.now f.now upper.now other → ⊥ }
{
    let mic_length = mic_length(f.long_mic);
    if upper.len() <= mic_length {
        return None;
    }
    let (sealed, mic) = upper.split_at(upper.len() - mic_length);
    let text = text_of(key, f, sealed, mic)?;
    let mut payload = Octets::new();
    payload.extend(text.as_slice());
    Some(payload)
}

/// What the octets of an upper transport access PDU open to, under the first of the keys that opens them. `NoKey` comes exactly where no
/// key of the list opens them; a TransMIC alone doesn't open, since a payload has at least one octet.
///
/// There are at most 384 octets and at most 16 keys.
pub fn unseal_access(keys: &[UpperKey], f: &UpperFields, upper: &[u8]) -> Result<Opened, NoKey>
    requires keys { length keys.now ≤ 16 }
    requires upper { length upper.now ≤ 384 }
    ensures ok { IfOk result (λ o. Opens keys.now f.now upper.now o.at o.payload) }
    ensures no_key { IsErr result ↔ IsUnopened keys.now f.now upper.now }
{
    for (at, key) in keys.iter().enumerate() {
        if let Some(payload) = open_kept(&UpperSchedule::new(key), f, upper) {
            return Ok(Opened {
                at: at as u32,
                payload,
            });
        }
    }
    Err(NoKey)
}

/// The same under kept keys.
///
/// There are at most 384 octets and at most 16 keys.
pub fn unseal_kept(keys: &[UpperSchedule], f: &UpperFields, upper: &[u8]) -> Result<Opened, NoKey>
    requires keys { length keys.now ≤ 16 }
    requires upper { length upper.now ≤ 384 }
    ensures ok { IfOk result (λ o. Opens keys.now f.now upper.now o.at o.payload) }
    ensures no_key { IsErr result ↔ IsUnopened keys.now f.now upper.now }
{
    for (at, key) in keys.iter().enumerate() {
        if let Some(payload) = open_kept(key, f, upper) {
            return Ok(Opened {
                at: at as u32,
                payload,
            });
        }
    }
    Err(NoKey)
}

/// The same under those of the kept application keys that are bound to the network key of this index and have this AID. The place in the
/// answer is that among these. Another key costs no more than a comparison, so all application keys may be given.
///
/// There are at most 384 octets and at most 16 keys.
pub fn unseal_bound(
    keys: &[BoundSchedule],
    net: u16,
    aid: u8,
    f: &UpperFields,
    upper: &[u8],
) -> Result<Opened, NoKey>
    requires keys { length keys.now ≤ 16 }
    requires upper { length upper.now ≤ 384 }
    ensures ok { IfOk result (λ o. Opens (fitting_keys net aid keys.now) f.now upper.now o.at o.payload) }
    ensures no_key { IsErr result ↔ IsUnopened (fitting_keys net aid keys.now) f.now upper.now }
{
    let mut at = 0;
    for key in keys {
        if key.fits(net, aid) {
            if let Some(payload) = open_kept(&key.key, f, upper) {
                return Ok(Opened { at, payload });
            }
            at += 1;
        }
    }
    Err(NoKey)
}
