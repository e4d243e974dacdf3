//! Lines of a Low Power node, and the nearest texts that are none.

use script_definitions::Script;
use script_definitions::line::ScriptLine;
use script_reader::{LONGEST_SCRIPT, ScriptStop, read_low_power_script};
use std::alloc::Global;
use std::test::Fail;

/// What stands before a line.
const HEAD: &[u8] =
    b"provision 1201 2 12345678 00 456 7dd7364cd842ad18c17c2b820c84c3d6 9d6dd0e96eb25dc19a40ed9914f8f03f\nlife\n";

/// Lines of a life, with the rule that fails, or 0; and with the address of the first one, if it is a `list`, or 0.
const LINES: &[(&[u8], u8, u16)] = &[
    (b"b0 seek", 0, 0),
    (b"b0 seek x", 4, 0),
    (b"b0 poll\nb0 poll", 0, 0),
    (b"b0 poll ", 4, 0),
    (b"b0 list c000", 0, 0xc000),
    (b"b0 list bfff", 5, 0),
    (b"b0 list fEfF", 0, 0xfeff),
    (b"b0 list ff00", 5, 0),
    (b"b0 list", 4, 0),
    (b"b0 net 00", 0, 0),
    (
        b"b0 peer 7dd7364cd842ad18c17c2b820c84c3d6/1201/0100/0000/0000 12345678 1 00 000002 0100 1201 02",
        0,
        0,
    ),
    (b"arm 0 ff", 0, 0),
    (b"life", 0, 0),
    (b"sync", 3, 0),
    (b"b1 seek", 3, 0),
    (b"b0 bcn 00", 3, 0),
    (b"b0 talk", 3, 0),
    (b"b0 beacon", 3, 0),
    (b"b0 send 0 0003 07 dev 00", 3, 0),
    (b"b0 raw 0003 07 00", 3, 0),
    (b"b0 tick 1", 3, 0),
    (b"b0", 4, 0),
];

/// The address of a script's first line, if that is a `list`, or 0.
fn listed(script: &Script) -> u16 {
    match script.lives.as_slice().get(0) {
        Some(life) => match life.as_slice().get(0) {
            Some(ScriptLine::List { address, .. }) => address.0,
            _ => 0,
        },
        None => 0,
    }
}

/// The rule that fails in the third line of a text, or 0; and the address of a `list` there, or 0.
fn answer(alloc: Global, lines: &[u8]) -> Result<(u8, u16), Fail> {
    let mut text = Vec::new(alloc);
    text.extend_from_slice(HEAD)?;
    text.extend_from_slice(lines)?;
    if text.len() > LONGEST_SCRIPT {
        return Ok((0, 0));
    }
    match read_low_power_script(alloc, text.as_slice()) {
        Ok(script) => Ok((0, listed(&script))),
        Err(ScriptStop::Fault { line: 3, rule }) => Ok((rule, 0)),
        Err(_) => Ok((255, 0)),
    }
}

#[test]
fn low_power_lines(rt: HostRuntime) -> Result<(), Fail> {
    for (lines, rule, address) in LINES {
        let (r, a) = answer(rt.alloc(), lines)?;
        assert!(rt; r == *rule && a == *address, "{rule} {address}");
    }
    Ok(())
}
