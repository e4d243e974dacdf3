//! Sealing and unsealing of a text in place (RFC 3610, 2.2 to 2.5).
#![tactic(auto)]

ghost use Rattle.std.specs.Prelude.{◌≡◌, ◌⊎◌, ◌↔◌, ℕ, List, ◌<◌, ◌^◌, length, replicate, IsErr, OnOk, OnErr, IsTrue};
ghost use Rattle.cipher_definitions.specs.Ccm.{ccm_text, ccm_mic, Seals};

use crate::chaining::tag;
use crate::stream::{add_stream, nonce_block};
use aes_block::{Schedule, add_to};
use thiserror::Error;

// Writes the MIC of a text that is not encrypted, of as many octets as `mic` has.
#[tactic(auto, unfolding(cipher_definitions::specs::Ccm::ccm_mic))]
fn write_mic(schedule: &Schedule, nonce: &[u8; 13], additional: &[u8], text: &[u8], mic: &mut [u8])
    requires mic_length { (length mic.old ≡ 4) ⊎ (length mic.old ≡ 8) }
    requires text_length { length text.now < 2 ^ 16 }
    requires additional_length { length additional.now < 65280 }
    ensures { mic.new ≡ ccm_mic schedule.now nonce.now additional.now text.now (length mic.old) }
{
    let length = mic.len();
    let tag = tag(schedule, nonce, additional, text, length);
    mic.copy_from_slice(&tag[..length]);
    let mask = schedule.encrypt(nonce_block(1, nonce, 0));
    add_to(mic, &mask);
}

/// Seals `text` in place and writes its MIC (RFC 3610, 2.2 and 2.3).
///
/// The key of `schedule` and `nonce` have to be used for one text alone. `mic` has 4 or 8 octets, `text` fewer than 65,536, and `additional`, which the MIC covers and which stays clear, fewer than 65,280.
#[tactic(auto, unfolding(cipher_definitions::specs::Ccm::ccm_text))]
pub fn seal(
    schedule: &Schedule,
    nonce: &[u8; 13],
    additional: &[u8],
    text: &mut [u8],
    mic: &mut [u8],
)
    requires mic_length { (length mic.old ≡ 4) ⊎ (length mic.old ≡ 8) }
    requires text_length { length text.old < 2 ^ 16 }
    requires additional_length { length additional.now < 65280 }
    ensures text { text.new ≡ ccm_text schedule.now nonce.now text.old }
    ensures mic { mic.new ≡ ccm_mic schedule.now nonce.now additional.now text.old (length mic.old) }
{
    write_mic(schedule, nonce, additional, text, mic);
    add_stream(schedule, nonce, text);
}

/// No text seals to the octets given, under the key, the nonce and the additional data given.
#[derive(Debug, Drop, PartialEq, Eq, Error)]
#[error("the MIC is not that of the text")]
pub struct BadMic;

/// Whether two MICs of one length are the same, with no octet left out.
pub(crate) fn is_same(one: &[u8], other: &[u8]) -> bool
    requires { length one.now ≡ length other.now }
    ensures { IsTrue result ↔ (one.now ≡ other.now) }
{
    let mut difference = 0;
    for i in 0..one.len() {
        difference |= one[i] ^ other[i];
    }
    difference == 0
}

// Whether `mic` is the MIC of a text that is not encrypted.
fn has_mic(
    schedule: &Schedule,
    nonce: &[u8; 13],
    additional: &[u8],
    text: &[u8],
    mic: &[u8],
) -> bool
    requires mic_length { (length mic.now ≡ 4) ⊎ (length mic.now ≡ 8) }
    requires text_length { length text.now < 2 ^ 16 }
    requires additional_length { length additional.now < 65280 }
    ensures { IsTrue result ↔ (ccm_mic schedule.now nonce.now additional.now text.now (length mic.now) ≡ mic.now) }
{
    let mut octets = [0; 8];
    let expected = &mut octets[..mic.len()];
    write_mic(schedule, nonce, additional, text, expected);
    is_same(expected, mic)
}

/// Opens a sealed text in place, if `mic` is its MIC (RFC 3610, 2.4 and 2.5).
///
/// `mic` has 4 or 8 octets, `text` fewer than 65,536 and `additional` fewer than 65,280. `BadMic` comes exactly where no text seals to these octets; `text` is zeros then.
#[tactic(auto, unfolding(cipher_definitions::specs::Ccm::ccm_text))]
pub fn unseal(
    schedule: &Schedule,
    nonce: &[u8; 13],
    additional: &[u8],
    text: &mut [u8],
    mic: &[u8],
) -> Result<(), BadMic>
    requires mic_length { (length mic.now ≡ 4) ⊎ (length mic.now ≡ 8) }
    requires text_length { length text.old < 2 ^ 16 }
    requires additional_length { length additional.now < 65280 }
    ensures ok { OnOk result (Seals schedule.now nonce.now additional.now text.new text.old mic.now) }
    ensures only { OnOk result
        ((other : List ℕ) → Seals schedule.now nonce.now additional.now other text.old mic.now → other ≡ text.new) }
    ensures bad_mic { IsErr result
        ↔ ((other : List ℕ) → Seals schedule.now nonce.now additional.now other text.old mic.now → ⊥) }
    ensures zeros { OnErr result (text.new ≡ replicate (length text.old) 0) }
{
    add_stream(schedule, nonce, text);
    if has_mic(schedule, nonce, additional, text, mic) {
        Ok(())
    } else {
        text.fill(0);
        Err(BadMic)
    }
}
