//! What the last phase left, handed out into slices.
#![tactic(auto)]

ghost use Rattle.std.specs.Prelude.{◌≡◌, ◌≢◌, ◌⊎◌, ◌+◌, ◌%◌, ◌<◌, ◌≤◌, [], false, length, take, true};
ghost use Rattle.file_flash.specs.Noted.{IsInside, Put, put_of};
ghost use Rattle.called_node.specs.Called.{is_erase};
ghost use Rattle.node_handle.specs.Nodes.{HasNext, IsErase, IsPassed, IsReported, IsClosedAs, rule_of, status_of, told_put};

use crate::status::{LENGTH, LOST, MEMORY, NOTHING, OK, OVER, WAITING, WRONG};
use called_node::{Called, CalledNode};
use file_flash::{NotedFlash, Write};
use flash_model::SECTOR_OCTETS;
use mesh_machine::MeshMachine;

/// The calls of a node over the writes that its caller makes.
pub(crate) type Calls = CalledNode<MeshMachine, NotedFlash>;

/// The line of an end.
pub(crate) const END: [u8; 4] = *b"end\n";

/// Puts octets into the front of a slice, and tells how many they are.
pub(crate) fn put_octets(told: &[u8], octets: &mut [u8], size: &mut usize)
    requires room { length told.now ≤ length octets.old }
    ensures value { take size.new octets.new ≡ told.now }
    ensures size { size.new ≡ length told.now }
{
    octets[..told.len()].copy_from_slice(told);
    *size = told.len();
}

/// What a call of a line answers.
pub(crate) fn answer_line(called: Called, rule: &mut u32) -> u32
    ensures status { result ≡ status_of called }
    ensures rule { rule.new ≡ rule_of called rule.old }
{
    match called {
        Called::Happened => OK,
        Called::Nothing => NOTHING,
        Called::Wrong(failed) => {
            *rule = u32::from(failed);
            WRONG
        }
        Called::Waiting => WAITING,
        Called::Over => OVER,
        Called::Memory => MEMORY,
        Called::Lost => LOST,
    }
}

/// Tells a write: its octets are put into the front of a slice, but of an erase there are none to put. Whether the slice has room for it.
fn tell_write(
    write: &Write,
    at: &mut u32,
    octets: &mut [u8],
    size: &mut usize,
    erased: &mut bool,
) -> bool
    requires inside { IsInside write.now }
    ensures told { result ≡ true → told_put at.new erased.new size.new octets.new ≡ put_of write.now }
    ensures erased { result ≡ true → erased.new ≡ is_erase write.now }
    ensures erase { result ≡ true → erased.new ≡ true → IsErase at.new size.new octets.old octets.new }
    ensures within { result ≡ true → erased.new ≡ false → size.new ≤ length octets.old }
    ensures some { result ≡ true → 0 < size.new }
    ensures inside { result ≡ true → at.new + size.new ≤ 65536 }
    ensures one_sector { result ≡ true → at.new % 4096 + size.new ≤ 4096 }
    ensures most { result ≡ false → size.new ≤ 4096 }
    ensures room { result ≡ false
        → (length octets.old < length (put_of write.now).octets) × (size.new ≡ length (put_of write.now).octets)
        × (is_erase write.now ≡ false) }
    ensures same { result ≡ false → (at.new ≡ at.old) × (octets.new ≡ octets.old) × (erased.new ≡ erased.old) }
{
    match write {
        Write::Program {
            at: from,
            octets: told,
        } => {
            if told.len() > octets.len() {
                *size = told.len();
                return false;
            }
            put_octets(told.as_slice(), octets, size);
            *at = *from;
            *erased = false;
        }
        Write::Erase { sector } => {
            *at = SECTOR_OCTETS * *sector;
            *size = SECTOR_OCTETS as usize;
            *erased = true;
        }
    }
    true
}

/// Hands out the next write.
pub(crate) fn hand_write(
    calls: &mut Calls,
    at: &mut u32,
    octets: &mut [u8],
    size: &mut usize,
    erased: &mut bool,
) -> u32
    ensures ok { result ≡ 0 → IsPassed calls.old calls.new (told_put at.new erased.new size.new octets.new) erased.new }
    ensures erase { result ≡ 0 → erased.new ≡ true → IsErase at.new size.new octets.old octets.new }
    ensures within { result ≡ 0 → erased.new ≡ false → size.new ≤ length octets.old }
    ensures some { result ≡ 0 → 0 < size.new }
    ensures inside { result ≡ 0 → at.new + size.new ≤ 65536 }
    ensures one_sector { result ≡ 0 → at.new % 4096 + size.new ≤ 4096 }
    ensures length { result ≡ 1
        → (put : Put) × HasNext calls.old put false × (length octets.old < length put.octets) × (size.new ≡ length put.octets) }
    ensures most { result ≡ 1 → size.new ≤ 4096 }
    ensures nothing { result ≡ 10 → calls.old.writes ≡ [] }
    ensures same { result ≢ 0
        → (calls.new ≡ calls.old) × (at.new ≡ at.old) × (octets.new ≡ octets.old) × (erased.new ≡ erased.old) }
    ensures same_size { result ≢ 0 → result ≢ 1 → size.new ≡ size.old }
    ensures bound { (result ≡ 0) ⊎ (result ≡ 1) ⊎ (result ≡ 10) }
{
    let Some(write) = calls.next_write() else {
        return NOTHING;
    };
    if !tell_write(write, at, octets, size, erased) {
        return LENGTH;
    }
    calls.pass_write();
    OK
}

/// Hands out the report.
pub(crate) fn hand_report(calls: &mut Calls, text: &mut [u8], size: &mut usize) -> u32
    ensures ok { result ≡ 0 → IsReported calls.old calls.new (take size.new text.new) × (size.new ≡ length calls.old.report) }
    ensures length { result ≡ 1
        → (calls.old.writes ≡ []) × (length text.old < length calls.old.report) × (size.new ≡ length calls.old.report) }
    ensures waiting { result ≡ 12 → calls.old.writes ≢ [] }
    ensures same { result ≢ 0 → (calls.new ≡ calls.old) × (text.new ≡ text.old) }
    ensures same_size { result ≢ 0 → result ≢ 1 → size.new ≡ size.old }
    ensures bound { (result ≡ 0) ⊎ (result ≡ 1) ⊎ (result ≡ 12) }
{
    if calls.next_write().is_some() {
        return WAITING;
    }
    let told = calls.report();
    if told.len() > text.len() {
        *size = told.len();
        return LENGTH;
    }
    put_octets(told, text, size);
    calls.pass_report();
    OK
}

/// Hands out what an end tells: its line, where the life ends in order.
#[tactic(auto, unfolding(report_definitions::specs::Report::words_text))]
pub(crate) fn hand_end(calls: &Calls, text: &mut [u8], size: &mut usize)
    requires room { 4 ≤ length text.old }
    ensures told { IsClosedAs calls.now (take size.new text.new) }
    ensures size { size.new ≤ 4 }
{
    if calls.is_usable() && !calls.has_left() {
        put_octets(&END, text, size);
    } else {
        *size = 0;
    }
}
