//! A sealed text that is tried with several additional data: it is decrypted once, and what the MICs have in common is made once.
#![tactic(auto)]

ghost use Rattle.std.specs.Prelude.{◌≡◌, ◌⊎◌, ◌↔◌, ◌∷◌, [], length, replicate, take, IsTrue};
ghost use Rattle.cipher_definitions.specs.Octets.{xor_lists};
ghost use Rattle.cipher_definitions.specs.Aes.{chained};
ghost use Rattle.cipher_definitions.specs.Ccm.{first_block};

use crate::chaining::{chain_additional, chain_all, flags};
use crate::sealing::is_same;
use crate::stream::{add_stream, nonce_block};
use aes_block::{Schedule, add_to};

/// What the trials of several additional data on one sealed text have in common: the chaining of the first block, and the mask of the MIC
/// (RFC 3610, 2.2 and 2.3).
#[derive(Drop)]
pub struct Trial {
    start: [u8; 16],
    mask: [u8; 16],
}

// The chaining of the first block, where there are additional data.
#[tactic(auto, unfolding(cipher_definitions::specs::Aes::chained))]
fn started(schedule: &Schedule, nonce: &[u8; 13], text_length: u16, mic_length: usize) -> [u8; 16]
    requires mic_length { (mic_length ≡ 4) ⊎ (mic_length ≡ 8) }
    ensures value { result
        ≡ chained schedule.now (replicate 16 0) (first_block nonce.now (0 ∷ []) text_length mic_length ∷ []) }
    ensures length { length result ≡ 16 }
{
    let first = nonce_block(flags(&[0], mic_length), nonce, text_length);
    schedule.chained(&[0; 16], &first)
}

// Whether a MIC is these octets of a chaining under this mask.
fn is_masked(tag: &[u8; 16], mask: &[u8; 16], mic: &[u8]) -> bool
    requires mic_length { (length mic.now ≡ 4) ⊎ (length mic.now ≡ 8) }
    ensures { IsTrue result ↔ (xor_lists (take (length mic.now) tag.now) mask.now ≡ mic.now) }
{
    let mut octets = [0; 8];
    let expected = &mut octets[..mic.len()];
    expected.copy_from_slice(&tag[..mic.len()]);
    add_to(expected, mask);
    is_same(expected, mic)
}

impl Trial {
    ghost use Rattle.std.specs.Prelude.{◌≡◌, ◌⊎◌, ◌<◌, ◌^◌, ℕ, List, length, true, false};
    ghost use Rattle.cipher_definitions.specs.Ccm.{Seals};
    ghost use Rattle.aes_ccm.specs.Trials.{IsTrialOf};

    /// Decrypts a sealed text in place, for trials of its MIC, which has 4 or 8 octets, with one additional data after another. Until a trial
    /// says that it opens, nothing is known of the text.
    ///
    /// `text` has fewer than 65,536 octets.
    #[tactic(auto, unfolding(cipher_definitions::specs::Ccm::ccm_text))]
    pub fn begin(schedule: &Schedule, nonce: &[u8; 13], text: &mut [u8], mic_length: usize) -> Trial
        requires mic_length { (mic_length ≡ 4) ⊎ (mic_length ≡ 8) }
        requires text_length { length text.old < 2 ^ 16 }
        ensures value { IsTrialOf schedule.now nonce.now text.old text.new mic_length result }
        ensures length { length text.new ≡ length text.old }
    {
        add_stream(schedule, nonce, text);
        Trial {
            start: started(schedule, nonce, text.len() as u16, mic_length),
            mask: schedule.encrypt(nonce_block(1, nonce, 0)),
        }
    }

    /// Whether a decrypted text is the one that was sealed with these additional data, of at least one octet: whether `mic` is its MIC. Where
    /// it isn't, no text seals to these octets.
    ///
    /// `schedule` and `text` are those of `begin`. `mic` has 4 or 8 octets, as was said there, `text` fewer than 65,536 and `additional`
    /// fewer than 65,280.
    pub fn opens(&self, schedule: &Schedule, additional: &[u8], text: &[u8], mic: &[u8]) -> bool
        requires mic_length { (length mic.now ≡ 4) ⊎ (length mic.now ≡ 8) }
        requires text_length { length text.now < 2 ^ 16 }
        requires additional_least { 0 < length additional.now }
        requires additional_length { length additional.now < 65280 }
        ensures yes { result ≡ true → (nonce sealed : List ℕ)
            → IsTrialOf schedule.now nonce sealed text.now (length mic.now) self.now
            → Seals schedule.now nonce additional.now text.now sealed mic.now }
        ensures no { result ≡ false → (nonce sealed : List ℕ)
            → IsTrialOf schedule.now nonce sealed text.now (length mic.now) self.now
            → (other : List ℕ) → Seals schedule.now nonce additional.now other sealed mic.now → ⊥ }
    {
        let middle = chain_additional(schedule, &self.start, additional);
        let tag = chain_all(schedule, &middle, text);
        is_masked(&tag, &self.mask, mic)
    }
}
