// The headers of both banks, and which bank counts.
ghost use Rattle.std.specs.Prelude.{◌≡◌, ◌↔◌, ℕ, ◌⊎◌, ◌≤◌, true, false, IsTrue, if◌then◌else◌, IfSome, option_map};
ghost use Rattle.slot_definitions.specs.Slots.{is_sound, header_of, number_at, generation_of, format_of, newer, counting_by};
ghost use Rattle.slot_journal.specs.Headers.{AreApart, IsSaid, IsSteady};

use crate::text::SLOT_OCTETS;
use mesh_base::slot::Slot;

const KIND: u8 = 0xf0;

/// The format that a compaction writes.
pub const FORMAT: u8 = 2;

/// The bank that counts, with the generation and the format of its header.
#[derive(Clone, Copy)]
pub struct Counting {
    pub bank: u32,
    pub generation: u32,
    pub format: u8,
}

/// The header of a bank with this format and generation.
pub fn header(format: u8, generation: u32) -> Slot
    ensures { result ≡ header_of format generation }
{
    let mut body = [0; 30];
    body[0] = format;
    body[1..5].copy_from_slice(&generation.to_be_bytes());
    body[5..9].copy_from_slice(&(!generation).to_be_bytes());
    Slot { kind: KIND, body }
}

/// The number in the 4 octets from `at` on.
fn number(text: &[u8; SLOT_OCTETS], at: usize) -> u32
    requires { at ≤ 28 }
    ensures { result ≡ number_at text.now at }
{
    u32::from_be_bytes([text[at], text[at + 1], text[at + 2], text[at + 3]])
}

#[tactic(auto, unfolding(slot_definitions::specs::Slots::is_sound))]
fn sound(text: &[u8; SLOT_OCTETS]) -> bool
    ensures { result ≡ is_sound text.now }
{
    text[31] == 0 && (text[1] == 1 || text[1] == 2) && number(text, 2) == !number(text, 6)
}

/// Whether no bit is set both in the generation and in its complement.
fn is_apart(text: &[u8; SLOT_OCTETS]) -> bool
    ensures { IsTrue result ↔ AreApart text.now }
{
    text[2] & text[6] == 0
        && text[3] & text[7] == 0
        && text[4] & text[8] == 0
        && text[5] & text[9] == 0
}

/// Whether an erase that is cut can make a header count that doesn't. (An erase only sets bits: it is so exactly where the gate is 00, the
/// format has no bits but those of 01 or of 02, and no bit is set both in the generation and in its complement.)
pub fn can_count(text: &[u8; SLOT_OCTETS]) -> bool
    ensures steady { result ≡ false → IsSteady text.now }
    ensures unsteady { result ≡ true → IsSteady text.now → ⊥ }
{
    if text[31] != 0 || text[1] > FORMAT {
        return false;
    }
    if !is_apart(text) {
        return false;
    }
    !sound(text)
}

/// A bank with what its header says.
#[tactic(auto, using(crate::proofs::Steady::sound_format))]
fn counted(bank: u32, text: &[u8; SLOT_OCTETS]) -> Counting
    requires { is_sound text.now ≡ true }
    ensures bank { result.bank ≡ bank }
    ensures generation { generation_of text.now ≡ result.generation }
    ensures format { format_of text.now ≡ result.format }
    ensures known { (result.format ≡ 1) ⊎ (result.format ≡ 2) }
{
    Counting {
        bank,
        generation: number(text, 2),
        format: text[1],
    }
}

/// The bank that counts, by the headers of both.
#[tactic(auto, unfolding(slot_definitions::specs::Slots::counting_by))]
pub fn choose(first: &[u8; SLOT_OCTETS], second: &[u8; SLOT_OCTETS]) -> Option<Counting>
    ensures value { option_map (λ c. c.bank) result ≡ counting_by first.now second.now }
    ensures said { IfSome result (IsSaid first.now second.now) }
    ensures known { IfSome result (λ c. (c.format ≡ 1) ⊎ (c.format ≡ 2)) }
{
    match (sound(first), sound(second)) {
        (false, false) => None,
        (true, false) => Some(counted(0, first)),
        (false, true) => Some(counted(1, second)),
        (true, true) => Some(newer_of(first, second)),
    }
}

/// The newer one of two sound headers.
fn newer_of(first: &[u8; SLOT_OCTETS], second: &[u8; SLOT_OCTETS]) -> Counting
    requires first { is_sound first.now ≡ true }
    requires second { is_sound second.now ≡ true }
    ensures value { result.bank ≡ newer (generation_of first.now) (generation_of second.now) }
    ensures said { IsSaid first.now second.now result }
    ensures known { (result.format ≡ 1) ⊎ (result.format ≡ 2) }
{
    if is_newer(number(first, 2), number(second, 2)) {
        counted(1, second)
    } else {
        counted(0, first)
    }
}

/// Whether the second of two generations is the newer one.
fn is_newer(first: u32, second: u32) -> bool
    ensures { newer first second ≡ if result then 1 else 0 }
{
    second == first.wrapping_add(1) || (first != second.wrapping_add(1) && first < second)
}
