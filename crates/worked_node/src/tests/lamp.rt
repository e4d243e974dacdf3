//! A lamp: it gets an application key, its OnOff Server is bound to it, and it is switched on. In its next life it says that it is on.

use super::images::{IMAGE, new_image, put};
use called_node::{Called, CalledNode};
use file_flash::NotedFlash;
use linked_node::open_image;
use mesh_machine::MeshMachine;
use std::alloc::Global;

/// The calls of a node over writes that its caller makes.
type Calls = CalledNode<MeshMachine, NotedFlash>;

/// The lines that make a lamp of a node, and switch it on.
const LINES: [&str; 4] = [
    "talk 7dd7364cd842ad18c17c2b820c84c3d6 dev:9d6dd0e96eb25dc19a40ed9914f8f03f 12345678 04 000001 000001 0003 1201 0 0000100063964771734fbd76e3b40519d1d94a48",
    "talk 7dd7364cd842ad18c17c2b820c84c3d6 dev:9d6dd0e96eb25dc19a40ed9914f8f03f 12345678 04 000001 000002 0003 1201 1 0000100063964771734fbd76e3b40519d1d94a48",
    "talk 7dd7364cd842ad18c17c2b820c84c3d6 dev:9d6dd0e96eb25dc19a40ed9914f8f03f 12345678 04 000003 000003 0003 1201 u 803d011201000010",
    "talk 7dd7364cd842ad18c17c2b820c84c3d6 app:63964771734fbd76e3b40519d1d94a48 12345678 04 000004 000004 0003 1201 u 82030101",
];

/// The line that asks it, and what its report begins with: the message, and the answer under the first number behind the mark.
const ASKS: &str =
    "talk 7dd7364cd842ad18c17c2b820c84c3d6 app:63964771734fbd76e3b40519d1d94a48 12345678 04 000005 000005 0003 1201 u 8201";

const IS_ON: &[u8] =
    b"e 1 b0 1 net delivered 0003 1201 12345678 000005 app:001 8201\ns b0 1.1 msg 12345678 000100 07 1201 0003 app:001 820401 ";

/// The calls of a node over an image.
fn opened(alloc: Global, image: &[u8; IMAGE]) -> Option<Calls> {
    match open_image(alloc, image) {
        Ok(node) => Some(CalledNode::new(alloc, node)),
        Err(_) => None,
    }
}

/// Takes all writes, however many there are, and makes them on an image. Answers whether a node could be opened from each image on the way.
fn stored(alloc: Global, calls: &mut Calls, image: &mut [u8; IMAGE]) -> bool {
    for _ in 0..u32::MAX {
        let Some(write) = calls.next_write() else {
            return true;
        };
        put(image, write);
        calls.pass_write();
        if opened(alloc, image).is_none() {
            return false;
        }
    }
    false
}

/// Whether a line happens, and is stored.
fn happens(alloc: Global, calls: &mut Calls, image: &mut [u8; IMAGE], line: &str) -> bool {
    match calls.line(alloc, line.as_bytes()) {
        Called::Happened => stored(alloc, calls, image),
        _ => false,
    }
}

/// A life over an image, which makes a lamp of its node. Answers whether all happened.
fn lit(alloc: Global, image: &mut [u8; IMAGE]) -> bool {
    let Some(mut calls) = opened(alloc, image) else {
        return false;
    };
    if !stored(alloc, &mut calls, image) {
        return false;
    }
    for line in LINES {
        if !happens(alloc, &mut calls, image, line) {
            return false;
        }
        calls.pass_report();
    }
    true
}

/// Whether a node over an image says that it is on.
fn is_on(alloc: Global, image: &mut [u8; IMAGE]) -> bool {
    let Some(mut calls) = opened(alloc, image) else {
        return false;
    };
    stored(alloc, &mut calls, image)
        && happens(alloc, &mut calls, image, ASKS)
        && calls.report().starts_with(IS_ON)
}

#[test]
fn a_lamp_is_on_in_its_next_life(rt: HostRuntime) {
    let alloc = rt.alloc();
    let mut image = new_image();
    assert!(rt; !is_on(alloc, &mut new_image()));
    assert!(rt; lit(alloc, &mut image));
    assert!(rt; is_on(alloc, &mut image));
}
