//! Reading of a network PDU under the keys that may have sealed it (Mesh Profile 1.0.1, sections 3.4.4, 3.8.7.2 and 3.8.7.3).
#![tactic(auto)]

ghost use Rattle.std.specs.Prelude.{◌≡◌, ◌/◌, ◌%◌, ◌<◌, ◌≤◌, ◌↔◌, ◌⊎◌, ◌^◌, ◌++◌, ℕ, List, [], length, slice_index, IsErr, IsNone, IfOk, IfSome, OnErr, OnOk};
ghost use Rattle.cipher_definitions.specs.Ccm.{Seals};
ghost use Rattle.mesh_base.specs.declared.fields.NetFields.{NetFields as Fields};
ghost use Rattle.layer_definitions.specs.Network.{IsHeardUnder, IsUnread, Reads, ReadsUnder};
ghost use Rattle.network_layer.specs.Laws.{HaveOneReading, TextsReadBack};
ghost use Rattle.network_layer.specs.Opening.{IsSealedAs, IsTextOf};

use crate::fields::{control_bit, fields_of, mic_length, nonce};
use crate::obfuscation::{mask, masked};
use aes_block::Schedule;
use aes_ccm::BadMic;
use arrayvec::ArrayVec;
use kept_keys::{HeardSchedules, NetSchedules};
use mesh_base::fields::{Heard, NetFields, NetMaterial};
use thiserror::Error;

/// What octets read as, and under which key.
#[derive(Drop, PartialEq, Eq)]
pub struct NetReading {
    /// The fields of the PDU.
    pub fields: NetFields,
    /// The key that they were sealed under.
    pub by: Heard,
}

/// The octets are no network PDU under any of the keys.
#[derive(Clone, Copy, Debug, PartialEq, Eq, Error)]
#[error("the octets are no network PDU under any of the keys")]
pub struct Unread;

// Opens the octets of `text` in place, if `mic` is their MIC.
fn unseal_in_place(
    schedule: &Schedule,
    nonce: &[u8; 13],
    text: &mut ArrayVec<u8, 18>,
    mic: &[u8],
) -> Result<(), BadMic>
    requires { (length mic.now ≡ 4) ⊎ (length mic.now ≡ 8) }
    ensures ok { OnOk result (Seals schedule.now nonce.now [] text.new.items text.old.items mic.now) }
    ensures bad_mic { OnErr result
        ((other : List ℕ) → Seals schedule.now nonce.now [] other text.old.items mic.now → ⊥) }
{
    aes_ccm::unseal(schedule, nonce, &[], text.as_mut_slice(), mic)
}

// The text that these octets and this MIC open to, if any.
fn opened(m: &NetSchedules, nonce: &[u8; 13], text: &[u8], mic: &[u8]) -> Option<ArrayVec<u8, 18>>
    requires text { length text.now ≤ 18 }
    requires mic { (length mic.now ≡ 4) ⊎ (length mic.now ≡ 8) }
    ensures some { IfSome result (λ t. Seals m.now.encryption nonce.now [] t.items text.now mic.now) }
    ensures none { IsNone result → (other : List ℕ) → Seals m.now.encryption nonce.now [] other text.now mic.now → ⊥ }
{
    let mut octets = ArrayVec::new();
    let _ = octets.try_extend_from_slice(text);
    match unseal_in_place(m.encryption(), nonce, &mut octets, mic) {
        Ok(()) => Some(octets),
        Err(_) => None,
    }
}

// The fields with this IV Index and this header that are sealed as these octets, if any.
fn fields_sealed_as(m: &NetSchedules, iv: u32, header: &[u8; 6], sealed: &[u8]) -> Option<NetFields>
    requires least { 7 ≤ length sealed.now }
    requires most { length sealed.now ≤ 22 }
    ensures some { IfSome result (IsSealedAs m.now iv header.now sealed.now) }
    ensures none { IsNone result → (f : Fields) → IsSealedAs m.now iv header.now sealed.now f → ⊥ }
{
    let mic_length = mic_length(control_bit(header));
    if sealed.len() < 3 + mic_length {
        return None;
    }
    let (text, mic) = sealed.split_at(sealed.len() - mic_length);
    let text = opened(m, &nonce(header, iv), text, mic)?;
    Some(fields_of(iv, header, text.as_slice()))
}

// The fields with this IV Index that have these octets, if any.
fn fields_with_text(m: &NetSchedules, iv: u32, octets: &[u8]) -> Option<NetFields>
    requires least { 14 ≤ length octets.now }
    requires most { length octets.now ≤ 29 }
    requires ivi { iv % 2 ≡ slice_index octets.now 0 / 2 ^ 7 }
    ensures some { IfSome result (IsTextOf m.now iv octets.now) }
    ensures none { IsNone result → (f : Fields) → IsTextOf m.now iv octets.now f → ⊥ }
{
    if octets[0] % 0x80 != m.nid() {
        return None;
    }
    let (_, sealed) = octets.split_at(7);
    let mask = mask(m, iv, sealed);
    let header = masked(&octets[1..7], &mask[..6]);
    fields_sealed_as(m, iv, &header, sealed)
}

// The IV Index under which octets may be heard, if any: the known one or the one before it, as the bit IVI says.
fn heard_index(current: u32, octets: &[u8]) -> Option<u32>
    requires { 1 ≤ length octets.now }
    ensures some { IfSome result (IsHeardUnder current octets.now) }
    ensures none { IsNone result → (iv : ℕ) → IsHeardUnder current octets.now iv → ⊥ }
{
    if current % 2 == u32::from(octets[0] / 0x80) {
        Some(current)
    } else {
        current.checked_sub(1)
    }
}

/// What the octets read as under this material, by its kept schedules, if anything. The IV Index of the PDU is the known one, `current`,
/// or the one before it.
pub fn read_one(m: &NetSchedules, current: u32, bytes: &[u8]) -> Option<NetFields>
    ensures some { IfSome result (ReadsUnder m.now current bytes.now) }
    ensures none { IsNone result → (f : Fields) → ReadsUnder m.now current bytes.now f → ⊥ }
{
    if bytes.len() < 14 || bytes.len() > 29 {
        return None;
    }
    let iv = heard_index(current, bytes)?;
    fields_with_text(m, iv, bytes)
}

// NID in the first octet, 7 bits (Mesh Profile 1.0.1, section 3.4.4.2); 0 where there are no octets.
fn nid_of(bytes: &[u8]) -> u8
    ensures { result ≡ slice_index bytes.now 0 % 2 ^ 7 }
{
    match bytes {
        [first, ..] => *first % 0x80,
        [] => 0,
    }
}

// The same of material whose schedules aren't kept: they are made only where the PDU has its NID.
fn read_under(m: &NetMaterial, current: u32, bytes: &[u8]) -> Option<NetFields>
    ensures some { IfSome result (ReadsUnder m.now current bytes.now) }
    ensures none { IsNone result → (f : Fields) → ReadsUnder m.now current bytes.now f → ⊥ }
{
    if nid_of(bytes) != m.nid {
        return None;
    }
    read_one(&NetSchedules::new(m), current, bytes)
}

/// What the octets read as, under the first of the keys that reads them. The IV Index of the PDU is the known one, `current`, or the
/// one before it. `Unread` comes exactly where no key of the list reads them.
pub fn read(keys: &[Heard], current: u32, bytes: &[u8]) -> Result<NetReading, Unread>
    ensures ok { IfOk result (λ r. (place : ℕ) × Reads keys.now current bytes.now r.fields place r.by) }
    ensures unread { IsErr result ↔ IsUnread keys.now current bytes.now }
{
    for key in keys {
        if let Some(fields) = read_under(&key.material, current, bytes) {
            return Ok(NetReading { fields, by: *key });
        }
    }
    Err(Unread)
}

/// The same by kept schedules: what the octets read as, under the first of the keys that reads them. Only a key of the NID that the
/// octets have costs more than a comparison, so all keys that are heard may be given.
pub fn read_kept(keys: &[HeardSchedules], current: u32, bytes: &[u8]) -> Result<NetReading, Unread>
    ensures ok { IfOk result (λ r. (place : ℕ) × Reads keys.now current bytes.now r.fields place r.by) }
    ensures unread { IsErr result ↔ IsUnread keys.now current bytes.now }
{
    for key in keys {
        if let Some(fields) = read_one(key.schedules(), current, bytes) {
            return Ok(NetReading {
                fields,
                by: key.heard(),
            });
        }
    }
    Err(Unread)
}

/// The same over two lists, the keys of the second one behind those of the first: those of network keys, say, and then those of
/// friendships.
pub fn read_kept_behind(
    keys: &[HeardSchedules],
    more: &[HeardSchedules],
    current: u32,
    bytes: &[u8],
) -> Result<NetReading, Unread>
    ensures ok { IfOk result (λ r. (place : ℕ) × Reads (keys.now ++ more.now) current bytes.now r.fields place r.by) }
    ensures unread { IsErr result ↔ IsUnread (keys.now ++ more.now) current bytes.now }
{
    match read_kept(keys, current, bytes) {
        Ok(reading) => Ok(reading),
        Err(Unread) => read_kept(more, current, bytes),
    }
}

/// The law of readings, for proofs: it does nothing. Octets read as one set of fields at most under a key, and the octets of a PDU read
/// as its fields.
pub fn reading_law()
    ensures one { HaveOneReading }
    ensures own { TextsReadBack }
{}
