//! The chaining of blocks that gives T, the MIC before its own encryption (RFC 3610, 2.2).
#![tactic(auto)]

ghost use Rattle.std.specs.Prelude.{◌≡◌, ◌⊎◌, ◌+◌, ◌<◌, ◌≤◌, ◌^◌, ◌++◌, length, take};
ghost use Rattle.cipher_definitions.specs.Octets.{two_octets, xor_lists, whole_block, whole_blocks};
ghost use Rattle.cipher_definitions.specs.Aes.{aes, chained};
ghost use Rattle.cipher_definitions.specs.Ccm.{first_flags, additional_blocks, ccm_tag};

use crate::stream::nonce_block;
use aes_block::Schedule;

// `part`, of at most 16 octets, with zeros after it.
#[tactic(auto, unfolding(cipher_definitions::specs::Octets::whole_block))]
fn filled(part: &[u8]) -> [u8; 16]
    requires { length part.now ≤ 16 }
    ensures value { result ≡ whole_block part.now }
    ensures length { length result ≡ 16 }
{
    let mut block = [0; 16];
    block[..part.len()].copy_from_slice(part);
    block
}

/// The chaining of the blocks of `octets`, from `start` on.
pub(crate) fn chain_all(schedule: &Schedule, start: &[u8; 16], octets: &[u8]) -> [u8; 16]
    ensures value { result ≡ chained schedule.now start.now (whole_blocks octets.now) }
    ensures length { length result ≡ 16 }
{
    let mut last = *start;
    let mut rest = octets;
    while rest.len() > 0 {
        let (front, back) = rest.split_at(16usize.min(rest.len()));
        let block = filled(front);
        let next = schedule.chained(&last, &block);
        last = next;
        rest = back;
    }
    last
}

// The first block of additional data: its length, and at most 14 of its octets.
fn first_additional(total: u16, front: &[u8]) -> [u8; 16]
    requires { length front.now ≤ 14 }
    ensures value { result ≡ whole_block (two_octets total ++ front.now) }
    ensures length { length result ≡ 16 }
{
    let [high, low] = total.to_be_bytes();
    let mut block = [0; 16];
    block[0] = high;
    block[1] = low;
    block[2..2 + front.len()].copy_from_slice(front);
    block
}

/// The chaining of the blocks of the additional data, from `start` on.
pub(crate) fn chain_additional(schedule: &Schedule, start: &[u8; 16], additional: &[u8]) -> [u8; 16]
    requires { length additional.now < 65280 }
    ensures value { result ≡ chained schedule.now start.now (additional_blocks additional.now) }
    ensures length { length result ≡ 16 }
{
    if additional.len() == 0 {
        return *start;
    }
    let (front, back) = additional.split_at(14usize.min(additional.len()));
    let block = first_additional(additional.len() as u16, front);
    let next = schedule.chained(start, &block);
    chain_all(schedule, &next, back)
}

/// The octet of flags of the first block.
pub(crate) fn flags(additional: &[u8], mic_length: usize) -> u8
    requires { (mic_length ≡ 4) ⊎ (mic_length ≡ 8) }
    ensures { result ≡ first_flags additional.now mic_length }
{
    let adata = if additional.len() == 0 { 0 } else { 64 };
    adata + 8 * ((mic_length as u8 - 2) / 2) + 1
}

/// The block of which the first octets are T, for a MIC of 4 or 8 octets (RFC 3610, 2.2).
pub(crate) fn tag(
    schedule: &Schedule,
    nonce: &[u8; 13],
    additional: &[u8],
    text: &[u8],
    mic_length: usize,
) -> [u8; 16]
    requires mic_length { (mic_length ≡ 4) ⊎ (mic_length ≡ 8) }
    requires text_length { length text.now < 2 ^ 16 }
    requires additional_length { length additional.now < 65280 }
    ensures value { take mic_length result ≡ ccm_tag schedule.now nonce.now additional.now text.now mic_length }
    ensures length { length result ≡ 16 }
{
    let first = nonce_block(flags(additional, mic_length), nonce, text.len() as u16);
    let start = schedule.chained(&[0; 16], &first);
    let middle = chain_additional(schedule, &start, additional);
    chain_all(schedule, &middle, text)
}
