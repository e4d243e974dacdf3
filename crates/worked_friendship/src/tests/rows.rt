//! The octets of what a Low Power node sends, and what it refuses.

use crate::tests::sides::{FRIEND, LPN};
use low_power::{Credentials, ListFault, Lpn, LpnHeard, LpnJob, NoFriend};
use mesh_base::address::Address;
use mesh_base::fields::{Heard, NetFields, NetMaterial};
use mesh_base::octets::Octets;
use network_layer::NetReading;
use std::test::Fail;

/// A PDU of this SEQ under friendship or under master credentials.
fn heard(seq: u32, by_friend: bool) -> NetReading {
    NetReading {
        fields: NetFields {
            iv: 0x12345678,
            ctl: true,
            ttl: 1,
            seq,
            src: FRIEND,
            dst: LPN,
            tpdu: Octets::new(),
        },
        by: Heard {
            index: 0x456,
            lpn: if by_friend { Some(LPN) } else { None },
            fresh: false,
            material: NetMaterial::default(),
        },
    }
}

/// Whether a job is this message to the friend under these credentials.
fn is_sent(job: &LpnJob, text: &[u8], c: Credentials) -> bool {
    job.dst == c.friend && job.tpdu.as_slice() == text && job.under == Some(c)
}

#[test]
fn polls_and_answers(rt: HostRuntime) -> Result<(), Fail> {
    let mut lpn = Lpn::new(LPN, 1);
    assert!(rt; lpn.poll() == Err(NoFriend), "no friend at first");
    assert!(rt;
        lpn.offer(FRIEND, 0).is_none(),
        "an Offer that isn't waited for"
    );
    let request = lpn.seek();
    let text = [
        0x03, 0x01, 0x64, 0x00, 0x02, 0x58, 0x00, 0x00, 0x01, 0x00, 0x00,
    ];
    assert!(rt;
        request.dst.0 == 0xfffd
            && request.tpdu.as_slice() == text.as_slice()
            && request.under.is_none(),
        "the Request"
    );
    let c = Credentials {
        friend: FRIEND,
        lpn_counter: 0,
        friend_counter: 7,
    };
    let Some(first) = lpn.offer(FRIEND, 7) else {
        assert!(rt; false, "the first Offer");
        return Ok(());
    };
    assert!(rt;
        is_sent(&first, &[0x01, 0x00], c),
        "it is answered by a Poll"
    );
    assert!(rt; lpn.offer(Address(0x0200), 0).is_none(), "the second Offer");
    assert!(rt;
        lpn.hear(&heard(1, false)) == LpnHeard::Pass,
        "a PDU under master credentials"
    );
    assert!(rt;
        is_sent(&lpn.poll()?, &[0x01, 0x00], c),
        "the Poll once more"
    );
    assert!(rt; lpn.hear(&heard(2, true)) == LpnHeard::Pass, "the answer");
    assert!(rt;
        lpn.hear(&heard(3, true)) == LpnHeard::Unasked,
        "another one"
    );
    assert!(rt; is_sent(&lpn.poll()?, &[0x01, 0x01], c), "the next Poll");
    assert!(rt;
        lpn.hear(&heard(2, true)) == LpnHeard::Repeat,
        "the answer before"
    );
    assert!(rt;
        is_sent(&lpn.poll()?, &[0x01, 0x01], c),
        "the next Poll once more"
    );
    assert!(rt; lpn.hear(&heard(3, true)) == LpnHeard::Pass, "its answer");
    assert!(rt; is_sent(&lpn.poll()?, &[0x01, 0x00], c), "the third one");
    Ok(())
}

#[test]
fn lists(rt: HostRuntime) -> Result<(), Fail> {
    let mut lpn = Lpn::new(LPN, 1);
    assert!(rt;
        lpn.list(Address(0xc000)) == Err(ListFault::NoFriend),
        "no friend at first"
    );
    let _ = lpn.seek();
    let _ = lpn.offer(FRIEND, 0);
    for i in 0..16u8 {
        let job = lpn.list(Address(0xc000 + u16::from(i)))?;
        assert!(rt;
            job.tpdu.as_slice() == [0x07, i, 0xc0, i].as_slice(),
            "address {i}"
        );
    }
    assert!(rt;
        lpn.list(Address(0xc010)) == Err(ListFault::TooMany { held: 16 }),
        "a list of 17"
    );
    assert!(rt;
        !lpn.is_listed(Address(0xc010)) && lpn.is_listed(Address(0xc00f)),
        "what is listed"
    );
    let _ = lpn.seek();
    let _ = lpn.offer(Address(0x0200), 0);
    let job = lpn.list(Address(0xc00f))?;
    assert!(rt;
        job.dst.0 == 0x0200 && job.tpdu.as_slice() == [0x07, 16, 0xc0, 0x0f].as_slice(),
        "told to the next friend"
    );
    Ok(())
}
