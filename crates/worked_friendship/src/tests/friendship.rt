//! A friendship from its first Request to the next one.

use crate::tests::sides::{Got, LPN, Sides, message};
use low_power::{Lpn, NoFriend};
use mesh_base::address::Address;
use mesh_base::octets::Octets;
use std::test::Fail;

/// A group that the Low Power node has added to its friend's list.
const GROUP: Address = Address(0xc000);

/// The first Request of a life, and the second one, after a friendship with 0100.
const FIRST_REQUEST: [u8; 11] = [
    0x03, 0x01, 0x64, 0x00, 0x02, 0x58, 0x00, 0x00, 0x01, 0x00, 0x00,
];

const SECOND_REQUEST: [u8; 11] = [
    0x03, 0x01, 0x64, 0x00, 0x02, 0x58, 0x01, 0x00, 0x01, 0x00, 0x01,
];

/// The Low Power node polls; its friend's answer.
fn poll(sides: &mut Sides) -> Option<Octets<29>> {
    let job = sides.lpn.poll().ok()?;
    sides.hear_job(&job)
}

/// The Low Power node looks for a friend and finds one; what answered its first Poll.
fn befriend(sides: &mut Sides) -> Option<Octets<29>> {
    let request = sides.lpn.seek();
    let offer = sides.hear_job(&request);
    match sides.hear(&offer) {
        Got::Offer(first) => sides.hear_job(&first),
        _ => None,
    }
}

#[test]
fn messages_arrive_once(rt: HostRuntime) -> Result<(), Fail> {
    let mut sides = Sides::new();
    let update = befriend(&mut sides);
    assert!(rt;
        matches!(sides.hear(&update), Got::Message(_)),
        "the first Poll is answered"
    );
    sides.friends.put(&message(0x21, LPN));
    sides.friends.put(&message(0x22, GROUP));
    let list = sides.lpn.list(GROUP)?;
    let confirm = sides.hear_job(&list);
    assert!(rt;
        sides.hear(&confirm) == Got::Unasked,
        "a confirmation while no Poll is open"
    );
    sides.friends.put(&message(0x23, GROUP));
    let _lost = poll(&mut sides);
    let again = poll(&mut sides);
    assert!(rt;
        sides.hear(&again) == Got::Message(0x21),
        "the answer that was lost comes again"
    );
    assert!(rt;
        sides.hear(&again) == Got::Unasked,
        "once more, while no Poll is open"
    );
    let next = poll(&mut sides);
    assert!(rt;
        sides.hear(&again) == Got::Repeat,
        "once more, while one is"
    );
    assert!(rt;
        sides.hear(&next) == Got::Message(0x23),
        "the group's message that came before the list isn't stored"
    );
    let last = poll(&mut sides);
    assert!(rt;
        matches!(sides.hear(&last), Got::Message(seq) if seq < 0x20),
        "then the queue is empty"
    );
    Ok(())
}

#[test]
fn friendships_end(rt: HostRuntime) -> Result<(), Fail> {
    let mut sides = Sides::new();
    let update = befriend(&mut sides);
    let _ = sides.hear(&update);
    let asked = poll(&mut sides);
    let request = sides.lpn.seek();
    assert!(rt;
        request.tpdu.as_slice() == SECOND_REQUEST.as_slice(),
        "the second Request"
    );
    assert!(rt;
        sides.hear(&asked) == Got::Unread,
        "an answer under credentials of before"
    );
    assert!(rt;
        sides.lpn.poll() == Err(NoFriend),
        "no friend before an Offer"
    );
    let offer = sides.hear_job(&request);
    assert!(rt; matches!(sides.hear(&offer), Got::Offer(_)), "an Offer");
    assert!(rt;
        matches!(sides.hear(&offer), Got::Message(_)),
        "a second Offer"
    );
    sides.lpn = Lpn::new(LPN, 1);
    assert!(rt;
        sides.lpn.poll() == Err(NoFriend),
        "no friendship survives a power cut"
    );
    let request = sides.lpn.seek();
    assert!(rt;
        request.tpdu.as_slice() == FIRST_REQUEST.as_slice(),
        "nor does LPNCounter"
    );
    Ok(())
}
