//! Reads that fail where they are listed.

use flash_model::{Bench, Flash, MemFlash, rewrite};
use flaw_flash::FlawFlash;
use std::alloc::Global;

/// What octet 4096 is read as, or 0 where the read fails.
fn octet<F: Flash>(flash: &mut F) -> u8 {
    let mut octets = [0];
    if flash.read(4096, &mut octets).is_err() {
        return 0;
    }
    octets[0]
}

/// Two reads behind a rewrite, and one behind a power cycle.
fn reads<F: Bench>(flash: &mut F) -> [u8; 3] {
    let _ = rewrite(flash, 1, &[0x3c]);
    let [a, b] = [octet(flash), octet(flash)];
    flash.power_cycle();
    [a, b, octet(flash)]
}

/// Whether the second and the third of all reads fail, across the power cycle too.
fn fail_where_listed(alloc: Global) -> bool {
    let Ok(flash) = MemFlash::new(alloc) else {
        return false;
    };
    let Ok(mut flash) = FlawFlash::new(alloc, flash, &[2, 3]) else {
        return false;
    };
    reads(&mut flash) == [0x3c, 0, 0]
}

#[test]
fn reads_fail_where_listed(rt: HostRuntime) {
    assert!(rt; fail_where_listed(rt.alloc()));
}
