//! Flashes that aren't erased, and flashes whose reads fail.

use super::ends::{End, end_of};
use mesh_node::FreeGate;
use std::sync::Wait;
use std::thread::Threads;

/// A node that sends two control PDUs.
const SCRIPT: &str =
    "provision 1201 1 12345678 00 000 7dd7364cd842ad18c17c2b820c84c3d6 9d6dd0e96eb25dc19a40ed9914f8f03f
life
b0 raw fffd 00 034b50057e400000010000
b0 raw fffd 00 034b50057e400000010000
";

/// Whether runs end so, as their first read fails, their second one, and so on: the flash failed before the first life; then that life is cut as
/// it is opened, at least once; and then no such read is made, and the life ends.
fn are_in_order<R: AllocGlobal + Threads + Wait + Sync>(rt: &R) -> bool {
    let mut faulty = false;
    let mut cut = false;
    for number in 1..10_000u32 {
        match end_of(rt, SCRIPT, 0xff, number, &FreeGate) {
            End::Faulty if !cut => faulty = true,
            End::Cut if faulty => cut = true,
            End::Whole => return cut,
            _ => return false,
        }
    }
    false
}

#[test]
fn a_flash_that_is_not_erased(rt: HostRuntime) {
    let end = end_of(&rt, SCRIPT, 0x7f, 0, &FreeGate);
    assert!(rt; matches!(end, End::NotErased));
}

#[test]
fn a_flash_whose_reads_fail(rt: HostRuntime) {
    assert!(rt; are_in_order(&rt));
}
