//! AES-CCM (RFC 3610) and AES-CMAC (RFC 4493).
#![tactic(auto)]

ghost use Rattle.std.specs.Prelude.{◌≡◌, ◌≢◌, ◌⊎◌, ◌↔◌, ◌<◌, ◌^◌, List, ℕ, length, replicate, true};
ghost use Rattle.cipher_definitions.specs.Ccm.{Seals, ccm_mic, ccm_text};
ghost use Rattle.cipher_definitions.specs.Cmac.{cmac};

use crate::arrays::{KEY, NONCE, key_of, nonce_of};
use aes_block::Schedule;
use aes_ccm::{seal, unseal};
use mesh_kdf::cmac as mac_of;
use node_handle::status::{LENGTH, OK, UNREAD};

/// The lengths of a text end here.
const TEXT_END: usize = 65536;

/// The lengths of additional data end here.
const ADDITIONAL_END: usize = 65280;

/// Whether AES-CCM takes slices of these lengths.
fn fits_ccm(key: usize, nonce: usize, additional: usize, text: usize, mic: usize) -> bool
    ensures value { result ≡ true
        ↔ (key ≡ 16) × (nonce ≡ 13) × (additional < 65280) × (text < 2 ^ 16) × ((mic ≡ 4) ⊎ (mic ≡ 8)) }
{
    key == KEY
        && nonce == NONCE
        && additional < ADDITIONAL_END
        && text < TEXT_END
        && (mic == 4 || mic == 8)
}

/// Seals a text in place and writes its MIC: AES-CCM under a key of 16 octets, with a nonce of 13, fewer than 65,280 octets of additional data, a
/// text of fewer than 65,536, and a MIC of 4 or 8.
#[unsafe(no_mangle)]
pub extern "C" fn meshnode_ccm_seal(
    key: &[u8],
    nonce: &[u8],
    additional: &[u8],
    text: &mut [u8],
    mic: &mut [u8],
) -> u32
    ensures when { result ≡ 0
        ↔ (length key.now ≡ 16) × (length nonce.now ≡ 13) × (length additional.now < 65280) × (length text.old < 2 ^ 16)
        × ((length mic.old ≡ 4) ⊎ (length mic.old ≡ 8)) }
    ensures text { result ≡ 0 → text.new ≡ ccm_text key.now nonce.now text.old }
    ensures mic { result ≡ 0 → mic.new ≡ ccm_mic key.now nonce.now additional.now text.old (length mic.old) }
    ensures refused { result ≢ 0 → (result ≡ 1) × (text.new ≡ text.old) × (mic.new ≡ mic.old) }
{
    if !fits_ccm(
        key.len(),
        nonce.len(),
        additional.len(),
        text.len(),
        mic.len(),
    ) {
        return LENGTH;
    }
    let schedule = Schedule::new(&key_of(key));
    seal(&schedule, &nonce_of(nonce), additional, text, mic);
    OK
}

/// Opens a sealed text in place, if `mic` is its MIC: else it is `MESHNODE_UNREAD`, and the text is zeros. The lengths are those of
/// `meshnode_ccm_seal`.
#[unsafe(no_mangle)]
pub extern "C" fn meshnode_ccm_open(
    key: &[u8],
    nonce: &[u8],
    additional: &[u8],
    text: &mut [u8],
    mic: &[u8],
) -> u32
    ensures ok { result ≡ 0 → Seals key.now nonce.now additional.now text.new text.old mic.now }
    ensures bad_mic { result ≡ 3
        → (other : List ℕ) → Seals key.now nonce.now additional.now other text.old mic.now → ⊥ }
    ensures zeros { result ≡ 3 → text.new ≡ replicate (length text.old) 0 }
    ensures when { result ≢ 1
        ↔ (length key.now ≡ 16) × (length nonce.now ≡ 13) × (length additional.now < 65280) × (length text.old < 2 ^ 16)
        × ((length mic.now ≡ 4) ⊎ (length mic.now ≡ 8)) }
    ensures refused { result ≡ 1 → text.new ≡ text.old }
    ensures bound { (result ≡ 0) ⊎ (result ≡ 1) ⊎ (result ≡ 3) }
{
    if !fits_ccm(
        key.len(),
        nonce.len(),
        additional.len(),
        text.len(),
        mic.len(),
    ) {
        return LENGTH;
    }
    let schedule = Schedule::new(&key_of(key));
    match unseal(&schedule, &nonce_of(nonce), additional, text, mic) {
        Ok(()) => OK,
        Err(_) => UNREAD,
    }
}

/// AES-CMAC of a message of any length: 16 octets, under a key of 16.
#[unsafe(no_mangle)]
pub extern "C" fn meshnode_cmac(key: &[u8], message: &[u8], mac: &mut [u8]) -> u32
    ensures when { result ≡ 0 ↔ (length key.now ≡ 16) × (length mac.old ≡ 16) }
    ensures value { result ≡ 0 → mac.new ≡ cmac key.now message.now }
    ensures refused { result ≢ 0 → (result ≡ 1) × (mac.new ≡ mac.old) }
{
    if key.len() != KEY || mac.len() != KEY {
        return LENGTH;
    }
    mac.copy_from_slice(&mac_of(&key_of(key), message));
    OK
}
