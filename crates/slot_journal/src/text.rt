// One slot, written and read.
ghost use Rattle.std.specs.Prelude.{◌≡◌, ℕ, ◌+◌, ◌*◌, ◌<◌, ◌↔◌, [], ◌∷◌, ◌++◌, get_or, IsTrue, IsOk, IfOk, OnOk, OnErr};
ghost use Rattle.flash_model.specs.Arming.{Begins, BeginsAtMost, FailsOnce, Programs, ProgramsAtMost, ReadsAtMost};
ghost use Rattle.flash_model.specs.Chip.{IsFresh, Keeps, LeavesOnly, Stays};
ghost use Rattle.slot_journal.specs.Slots.{IsWritten, IsSlotWrite};
ghost use Rattle.slot_definitions.specs.Slots.{gated, text_at, text_of, blank_text};

use flash_model::{Flash, FlashFailed};
use mesh_base::slot::Slot;

/// Octets of a slot.
pub const SLOT_OCTETS: usize = 32;

const FRONT_OCTETS: usize = 31;

/// Writes slot number `n` of the flash: first all but the gate, and then the gate, so a slot that a cut leaves torn never counts.
pub fn write_slot<F: Flash>(flash: &mut F, n: u32, slot: &Slot) -> Result<(), FlashFailed>
    requires { n < 2048 }
    ensures fresh { IsFresh (F.chip flash.old) → OnOk result (IsFresh (F.chip flash.new)) }
    ensures written { IsFresh (F.chip flash.old) → text_at (F.chip flash.old).now n ≡ blank_text
        → OnOk result (IsWritten n (text_of slot.now) (F.chip flash.old).now (F.chip flash.new).now) }
    ensures any_moment { IsFresh (F.chip flash.old) → text_at (F.chip flash.old).now n ≡ blank_text
        → LeavesOnly (F.chip flash.old) (F.chip flash.new) (IsSlotWrite n (text_of slot.now) (F.chip flash.old).now) }
    ensures calls { OnOk result (Begins 2 (F.chip flash.old) (F.chip flash.new)) }
    ensures most_calls { BeginsAtMost 2 (F.chip flash.old) (F.chip flash.new) }
    ensures unerased { (F.chip flash.new).erases ≡ (F.chip flash.old).erases }
    ensures octets { OnOk result (Programs SLOT_OCTETS (F.chip flash.old) (F.chip flash.new)) }
    ensures most_octets { ProgramsAtMost SLOT_OCTETS (F.chip flash.old) (F.chip flash.new) }
    ensures reads { (F.chip flash.new).reads ≡ (F.chip flash.old).reads }
    ensures no_fault { OnOk result ((F.chip flash.new).faults ≡ (F.chip flash.old).faults) }
    ensures cause { OnErr result ((F.chip flash.old).faults < (F.chip flash.new).faults) }
    ensures once { FailsOnce (F.chip flash.old) (F.chip flash.new) }
    ensures sure { IsTrue (F.chip flash.old).sure → IsOk result }
    ensures frame { Keeps (F.chip flash.old) (F.chip flash.new) }
{
    flash.program(32 * n, &front_of(slot.kind, &slot.body))?;
    flash.program(32 * n + 31, &[0])
}

// A kind with its 30 octets: a slot but its gate.
fn front_of(kind: u8, body: &[u8; 30]) -> [u8; FRONT_OCTETS]
    ensures value { result ≡ kind ∷ body.now }
    ensures octets { (k : ℕ) → get_or result k 0 < 256 }
{
    let mut front = [kind; FRONT_OCTETS];
    front[1..].copy_from_slice(body);
    front
}

/// Reads the octets of slot number `n` of the flash.
pub fn read_slot<F: Flash>(flash: &mut F, n: u32) -> Result<[u8; SLOT_OCTETS], FlashFailed>
    requires { n < 2048 }
    ensures value { IfOk result (λ text. text ≡ text_at (F.chip flash.old).now n) }
    ensures stays { IsTrue (F.chip flash.old).honest → Stays (F.chip flash.old) (F.chip flash.new) }
    ensures calls { (F.chip flash.new).changes ≡ (F.chip flash.old).changes }
    ensures unerased { (F.chip flash.new).erases ≡ (F.chip flash.old).erases }
    ensures unprogrammed { (F.chip flash.new).octets ≡ (F.chip flash.old).octets }
    ensures most_reads { ReadsAtMost 1 (F.chip flash.old) (F.chip flash.new) }
    ensures no_fault { OnOk result ((F.chip flash.new).faults ≡ (F.chip flash.old).faults) }
    ensures cause { OnErr result ((F.chip flash.old).faults < (F.chip flash.new).faults) }
    ensures once { FailsOnce (F.chip flash.old) (F.chip flash.new) }
    ensures sure { IsTrue (F.chip flash.old).sure → IsOk result }
    ensures frame { Keeps (F.chip flash.old) (F.chip flash.new) }
{
    let mut text = [0; SLOT_OCTETS];
    flash.read(32 * n, &mut text)?;
    Ok(text)
}

/// Whether all octets of a slot are ff.
pub fn is_blank(text: &[u8; SLOT_OCTETS]) -> bool
    ensures { IsTrue result ↔ (text.now ≡ blank_text) }
{
    *text == [0xff; SLOT_OCTETS]
}

/// What the octets of a slot hold: nothing where the gate isn't 00.
pub fn gated_slot(text: &[u8; SLOT_OCTETS]) -> Option<Slot>
    ensures { result ≡ gated text.now }
{
    if text[31] != 0 {
        return None;
    }
    let mut body = [0; 30];
    body.copy_from_slice(&text[1..31]);
    Some(Slot {
        kind: text[0],
        body,
    })
}
