//! The octets of records with what they say, those beside that are no record, and the size of each table.

ghost use Rattle.std.specs.Bool.{OnTrue};
ghost use Rattle.node_records.specs.Meaning.{DoesNotFall};

use mesh_base::address::Address;
use mesh_base::iv_state::IvState;
use mesh_base::keys::{AppKeyRow, NetKeyRow};
use mesh_base::pair::Pair;
use mesh_base::slot::Slot;
use node_records::{Persist, PublishRow, StoreRecord};
use record_texts::decode;

/// A slot of a kind with these octets, and zeros.
pub(super) fn slot(kind: u8, octets: &[u8]) -> Slot {
    let mut body = [0; 30];
    if octets.len() <= 30 {
        body[..octets.len()].copy_from_slice(octets);
    }
    Slot { kind, body }
}

/// Whether a record keeps the known IV Index, or raises it.
fn rises(p: &Persist, item: &StoreRecord) -> bool
    ensures { OnTrue result (DoesNotFall p.now item.now) }
{
    match item {
        StoreRecord::Numbers { current, .. } => *current >= p.iv.current,
        _ => true,
    }
}

/// Takes the record of a slot into a value; says whether it is one and has a place.
fn take(p: &mut Persist, slot: &Slot) -> bool {
    let Ok(item) = decode(slot, 2) else {
        return false;
    };
    if !rises(p, &item) {
        return false;
    }
    p.apply(&item).is_ok()
}

/// What records say; a new value where one isn't taken.
fn said(rows: &[(u8, &[u8])]) -> Persist {
    let mut p = Persist::new();
    for (kind, octets) in rows {
        if !take(&mut p, &slot(*kind, octets)) {
            return Persist::new();
        }
    }
    p
}

const KEY: [u8; 16] = [
    0x7d, 0xd7, 0x36, 0x4c, 0xd8, 0x42, 0xad, 0x18, 0xc1, 0x7c, 0x2b, 0x82, 0x0c, 0x84, 0xc3, 0xd6,
];

const NEXT: [u8; 16] = [
    0xf7, 0xa2, 0xa4, 0x4f, 0x8e, 0x8a, 0x80, 0x29, 0x06, 0x4f, 0x17, 0x3d, 0xdc, 0x1e, 0x2b, 0x00,
];

/// The octets of records, each behind its kind: all that a node may store, with each op.
const RECORDS: &[(u8, &[u8])] = &[
    // an Identity; hours, and Numbers in progress, whose mark is 256 above the first number under 12345678
    (
        1,
        b"\x12\x01\x04\x7d\xd7\x36\x4c\xd8\x42\xad\x18\xc1\x7c\x2b\x82\x0c\x84\xc3\xd6",
    ),
    (3, b"\x12\x34\xff\xff"),
    (
        2,
        b"\x12\x34\x56\x79\x01\x00\x24\x68\xac\xf0\x00\x01\x00\x01\x02\x00\xc0",
    ),
    // one name, and two of which the second is the older one of 0003
    (4, b"\x00\x03\x12\x34\x56\x78\x31\x29\xab"),
    (
        4,
        b"\x01\x01\x12\x34\x56\x78\x00\x00\x01\x00\x03\x12\x34\x56\x78\x00\x00\x02",
    ),
    // four network keys; two are updated, of which one comes to phase 2
    (
        5,
        b"\x01\x0f\xff\x7d\xd7\x36\x4c\xd8\x42\xad\x18\xc1\x7c\x2b\x82\x0c\x84\xc3\xd6",
    ),
    (
        5,
        b"\x01\x04\x56\x7d\xd7\x36\x4c\xd8\x42\xad\x18\xc1\x7c\x2b\x82\x0c\x84\xc3\xd6",
    ),
    (
        5,
        b"\x01\x01\x23\x7d\xd7\x36\x4c\xd8\x42\xad\x18\xc1\x7c\x2b\x82\x0c\x84\xc3\xd6",
    ),
    (
        5,
        b"\x01\x00\x02\x7d\xd7\x36\x4c\xd8\x42\xad\x18\xc1\x7c\x2b\x82\x0c\x84\xc3\xd6",
    ),
    (
        5,
        b"\x02\x04\x56\xf7\xa2\xa4\x4f\x8e\x8a\x80\x29\x06\x4f\x17\x3d\xdc\x1e\x2b\x00",
    ),
    (
        5,
        b"\x02\x01\x23\xf7\xa2\xa4\x4f\x8e\x8a\x80\x29\x06\x4f\x17\x3d\xdc\x1e\x2b\x00",
    ),
    (5, b"\x03\x04\x56"),
    // four application keys; two are updated, and one of these with its network key is done
    (
        6,
        b"\x01\x01\x23\x00\x01\x7d\xd7\x36\x4c\xd8\x42\xad\x18\xc1\x7c\x2b\x82\x0c\x84\xc3\xd6",
    ),
    (
        6,
        b"\x01\x0f\xff\x0f\xfe\x7d\xd7\x36\x4c\xd8\x42\xad\x18\xc1\x7c\x2b\x82\x0c\x84\xc3\xd6",
    ),
    (
        6,
        b"\x01\x04\x56\x00\x02\x7d\xd7\x36\x4c\xd8\x42\xad\x18\xc1\x7c\x2b\x82\x0c\x84\xc3\xd6",
    ),
    (
        6,
        b"\x01\x04\x56\x00\x03\x7d\xd7\x36\x4c\xd8\x42\xad\x18\xc1\x7c\x2b\x82\x0c\x84\xc3\xd6",
    ),
    (
        6,
        b"\x02\x01\x23\x00\x01\xf7\xa2\xa4\x4f\x8e\x8a\x80\x29\x06\x4f\x17\x3d\xdc\x1e\x2b\x00",
    ),
    (
        6,
        b"\x02\x04\x56\x00\x02\xf7\xa2\xa4\x4f\x8e\x8a\x80\x29\x06\x4f\x17\x3d\xdc\x1e\x2b\x00",
    ),
    (5, b"\x04\x01\x23"),
    // bindings, one of them twice, and publications
    (7, b"\x01\x12\x01\x10\x00\x00\x01"),
    (7, b"\x01\x12\x01\x10\x02\x0f\xfe"),
    (7, b"\x01\x12\x02\x10\x00\x00\x03"),
    (7, b"\x01\x12\x01\x10\x00\x00\x02"),
    (7, b"\x01\x12\x01\x10\x00\x00\x01"),
    (13, b"\x12\x02\x10\x02\xc0\x23\x0f\xfe\xff\x41\x07"),
    (13, b"\x12\x02\x10\x00\xc0\x23\x00\x03\xff\x41\x07"),
    (13, b"\x12\x01\x10\x00\xc0\x23\x00\x01\xff\x41\x07"),
    // a network key goes with its application key, and an application key; with each a binding and a publication; and a binding goes
    (5, b"\x05\x0f\xff"),
    (6, b"\x03\x04\x56\x00\x03"),
    (7, b"\x02\x12\x01\x10\x00\x00\x02"),
    // groups: one goes, and the other one for a third
    (8, b"\x01\x12\x01\x10\x00\xc0\x00"),
    (8, b"\x01\x12\x01\x10\x00\xc0\x01"),
    (8, b"\x01\x12\x02\x10\x02\xc0\x02"),
    (8, b"\x02\x12\x01\x10\x00\xc0\x00"),
    (8, b"\x04\x12\x01\x10\x00\xc0\x05"),
    // labels: one goes, and a group for a label
    (
        12,
        b"\x01\x12\x02\x10\x00\x7d\xd7\x36\x4c\xd8\x42\xad\x18\xc1\x7c\x2b\x82\x0c\x84\xc3\xd6",
    ),
    (
        12,
        b"\x01\x12\x02\x10\x00\xf7\xa2\xa4\x4f\x8e\x8a\x80\x29\x06\x4f\x17\x3d\xdc\x1e\x2b\x00",
    ),
    (
        12,
        b"\x02\x12\x02\x10\x00\x7d\xd7\x36\x4c\xd8\x42\xad\x18\xc1\x7c\x2b\x82\x0c\x84\xc3\xd6",
    ),
    (
        12,
        b"\x01\x12\x01\x10\x02\x7d\xd7\x36\x4c\xd8\x42\xad\x18\xc1\x7c\x2b\x82\x0c\x84\xc3\xd6",
    ),
    (
        12,
        b"\x04\x12\x02\x10\x02\xf7\xa2\xa4\x4f\x8e\x8a\x80\x29\x06\x4f\x17\x3d\xdc\x1e\x2b\x00",
    ),
    // all groups of a model go, with its label
    (8, b"\x01\x12\x03\x10\x00\xc0\x06"),
    (
        12,
        b"\x01\x12\x03\x10\x00\x7d\xd7\x36\x4c\xd8\x42\xad\x18\xc1\x7c\x2b\x82\x0c\x84\xc3\xd6",
    ),
    (8, b"\x03\x12\x03\x10\x00"),
    // features
    (9, b"\x01\x00\x01"),
    (9, b"\x02\x00\x7f"),
    (9, b"\x03\x00\x00"),
    (9, b"\x04\x00\x25"),
    (9, b"\x05\x00\x42"),
    // kept values, and a Reset
    (11, b"\x00\x10\x00\x00\x01"),
    (11, b"\x03\x10\x02\x80\x00"),
    (10, b""),
];

const NETS: &[NetKeyRow] = &[
    NetKeyRow {
        index: 0x0002,
        phase: 0,
        key: KEY,
        next: None,
    },
    NetKeyRow {
        index: 0x0123,
        phase: 0,
        key: NEXT,
        next: None,
    },
    NetKeyRow {
        index: 0x0456,
        phase: 2,
        key: KEY,
        next: Some(NEXT),
    },
];

const APPS: &[AppKeyRow] = &[
    AppKeyRow {
        net: 0x0123,
        index: 0x0001,
        key: NEXT,
        next: None,
    },
    AppKeyRow {
        net: 0x0456,
        index: 0x0002,
        key: KEY,
        next: Some(NEXT),
    },
];

const BINDS: &[(Address, u16, u16)] = &[(Address(0x1201), 0x1000, 0x0001)];

const GROUPS: &[(Address, u16, Address)] = &[(Address(0x1201), 0x1000, Address(0xc005))];

const LABELS: &[(Address, u16, [u8; 16])] = &[
    (Address(0x1202), 0x1000, NEXT),
    (Address(0x1201), 0x1002, KEY),
    (Address(0x1202), 0x1002, NEXT),
];

const PUBLICATIONS: &[PublishRow] = &[PublishRow {
    element: Address(0x1201),
    model: 0x1000,
    address: Address(0xc023),
    app: 0x0001,
    ttl: 0xff,
    period: 0x41,
    retransmit: 7,
}];

const STATE: IvState = IvState {
    current: 0x12345679,
    progress: true,
    hours: 0x0102,
    since: 0x00c0,
};

const HOURS: IvState = IvState {
    current: 0,
    progress: false,
    hours: 0x1234,
    since: 0xffff,
};

/// Whether these are the tables of a value.
fn tables_of(p: &Persist) -> [bool; 6] {
    [
        p.nets.as_slice() == NETS,
        p.apps.as_slice() == APPS,
        p.binds.as_slice() == BINDS,
        p.subs.as_slice() == GROUPS,
        p.labels.as_slice() == LABELS,
        p.publications.as_slice() == PUBLICATIONS,
    ]
}

/// Whether these are its features, and what its models keep.
fn features_of(p: &Persist) -> [bool; 3] {
    let features = [p.beacon, p.ttl, p.friend, p.relay, p.retransmit, p.transmit];
    [
        features == [1, 0x7f, 0, 0, 0x25, 0x42],
        p.onoffs == [1, 0, 0, 0],
        p.levels == [0, 0, 0, 0x8000],
    ]
}

/// Whether this is the node that it says, its numbers, and the entries of two sources.
fn node_of(p: &Persist) -> [bool; 8] {
    let first = Some(Pair {
        iv: 0x12345678,
        seq: 0x3129ab,
    });
    let second = Some(Pair {
        iv: 0x12345678,
        seq: 1,
    });
    [
        p.unicast == Address(0x1201),
        p.elements == 4,
        p.dev_key == KEY,
        p.reset,
        p.iv == STATE,
        p.mark == 0x0024_68ac_f000_0100,
        p.entry(Address(0x0003)) == first,
        p.entry(Address(0x0101)) == second,
    ]
}

/// Whether the records say this.
fn are_said() -> ([bool; 6], [bool; 3], [bool; 8]) {
    let p = said(RECORDS);
    (tables_of(&p), features_of(&p), node_of(&p))
}

/// What an Hour record alone says.
fn hours_said() -> IvState {
    said(&[(3, b"\x12\x34\xff\xff")]).iv
}

#[test]
fn what_records_say(rt: HostRuntime) {
    let (tables, features, node) = are_said();
    assert!(rt; tables == [true; 6]);
    assert!(rt; features == [true; 3]);
    assert!(rt; node == [true; 8]);
    assert!(rt; hours_said() == HOURS);
}

/// Kinds and octets at the edges of what is a record, and whether it is one. A key is 7d and zeros.
const EDGES: &[(u8, &[u8], bool)] = &[
    // kinds
    (0, b"", false),
    (10, b"", true),
    (14, b"", false),
    (20, b"", false),
    (240, b"", false),
    // elements 0 to 5; addresses 0000 and 8000
    (1, b"\x12\x01\x00\x7d", false),
    (1, b"\x12\x01\x04\x7d", true),
    (1, b"\x12\x01\x05\x7d", false),
    (1, b"\x00\x00\x01\x7d", false),
    (1, b"\x00\x01\x01\x7d", true),
    (1, b"\x7f\xff\x01\x7d", true),
    (1, b"\x7f\xff\x02\x7d", false),
    (1, b"\x80\x00\x01\x7d", false),
    // progress; a mark under the transmit IV Index, a multiple of 256 at most 2^24
    (
        2,
        b"\x00\x00\x00\x06\x02\x00\x00\x00\x00\x0a\x00\x00\x00",
        false,
    ),
    (
        2,
        b"\x00\x00\x00\x00\x01\x00\x00\x00\x00\x00\x00\x00\x00",
        false,
    ),
    (
        2,
        b"\x00\x00\x00\x00\x00\x00\x00\x00\x00\x00\x00\x00\x00",
        true,
    ),
    (
        2,
        b"\x00\x00\x00\x06\x00\x00\x00\x00\x00\x0c\x00\x00\x00",
        true,
    ),
    (
        2,
        b"\x00\x00\x00\x06\x00\x00\x00\x00\x00\x0c\x00\x00\x01",
        false,
    ),
    (
        2,
        b"\x00\x00\x00\x06\x00\x00\x00\x00\x00\x0d\x00\x00\x00",
        true,
    ),
    (
        2,
        b"\x00\x00\x00\x06\x00\x00\x00\x00\x00\x0d\x00\x01\x00",
        false,
    ),
    (
        2,
        b"\x00\x00\x00\x06\x00\x00\x00\x00\x00\x0b\xff\xff\x00",
        false,
    ),
    (
        2,
        b"\x00\x00\x00\x06\x01\x00\x00\x00\x00\x0a\x00\x00\x00",
        true,
    ),
    (
        2,
        b"\x00\x00\x00\x06\x01\x00\x00\x00\x00\x0c\x00\x00\x00",
        false,
    ),
    (
        2,
        b"\xff\xff\xff\xff\x00\x01\xff\xff\xff\xfe\x00\x00\x00",
        true,
    ),
    (
        2,
        b"\xff\xff\xff\xff\x00\x01\xff\xff\xff\xff\x00\x00\x00",
        true,
    ),
    // ops, key indexes, and keys that an op doesn't need
    (5, b"\x00\x00\x00\x7d", false),
    (5, b"\x01\x0f\xff\x7d", true),
    (5, b"\x01\x10\x00\x7d", false),
    (5, b"\x02\x00\x00\x7d", true),
    (5, b"\x03\x00\x00\x7d", false),
    (5, b"\x05\x00\x00", true),
    (5, b"\x06\x00\x00", false),
    (6, b"\x00\x00\x00\x00\x00\x7d", false),
    (6, b"\x01\x10\x00\x00\x00\x7d", false),
    (6, b"\x01\x00\x00\x10\x00\x7d", false),
    (6, b"\x03\x00\x00\x00\x00\x7d", false),
    (6, b"\x03\x00\x00\x00\x00", true),
    (6, b"\x04\x00\x00\x00\x00", false),
    (7, b"\x00\x00\x01\x00\x00\x00\x00", false),
    (7, b"\x02\x00\x01\x00\x00\x00\x00", true),
    (7, b"\x03\x00\x01\x00\x00\x00\x00", false),
    (7, b"\x01\x00\x01\x00\x00\x0f\xff", true),
    (7, b"\x01\x00\x01\x00\x00\x10\x00", false),
    (8, b"\x00\x00\x01\x00\x00\xc0\x00", false),
    (8, b"\x04\x00\x01\x00\x00\xc0\x00", true),
    (8, b"\x03\x00\x01\x00\x00\xc0\x00", true),
    (8, b"\x05\x00\x01\x00\x00\xc0\x00", false),
    // features and their values
    (9, b"\x00\x00\x00", false),
    (9, b"\x01\x00\x01", true),
    (9, b"\x01\x00\x02", false),
    (9, b"\x02\x00\x00", true),
    (9, b"\x02\x00\x01", false),
    (9, b"\x02\x00\x02", true),
    (9, b"\x02\x00\x7f", true),
    (9, b"\x02\x00\x80", false),
    (9, b"\x03\x00\x01", true),
    (9, b"\x03\x00\x02", false),
    (9, b"\x04\x01\xff", true),
    (9, b"\x04\x02\x00", false),
    (9, b"\x05\x00\xff", true),
    (9, b"\x05\x01\x00", false),
    (9, b"\x06\x00\x00", false),
    // octets behind the fields
    (3, b"\x00\x00\x00\x00\x01", false),
    (
        5,
        b"\x01\x00\x00\x7d\x00\x00\x00\x00\x00\x00\x00\x00\x00\x00\x00\x00\x00\x00\x00\x01",
        false,
    ),
    (10, b"\x01", false),
    // a second name that isn't all zeros
    (4, b"\x00\x00\x00\x00\x00\x00\x00\x00\x00", true),
    (4, b"\x00\x01\x00\x00\x00\x00\x00\x00\x00\x01", true),
    (
        4,
        b"\x00\x01\x00\x00\x00\x00\x00\x00\x00\x00\x00\x00\x00\x00\x00\x00\x00\x01",
        true,
    ),
    (
        4,
        b"\x00\x01\x00\x00\x00\x00\x00\x00\x00\x00\x00\x00\x00\x00\x00\x00\x00\x00\x01",
        false,
    ),
    // places, models and their values
    (11, b"\x03\x10\x00\x00\x01", true),
    (11, b"\x04\x10\x00\x00\x00", false),
    (11, b"\x00\x10\x00\x00\x02", false),
    (11, b"\x00\x10\x00\x01\x00", false),
    (11, b"\x00\x10\x01\x00\x00", false),
    (11, b"\x00\x10\x02\xff\xff", true),
    // ops of a label: 3 is none
    (12, b"\x00\x00\x01\x00\x00\x7d", false),
    (12, b"\x03\x00\x01\x00\x00\x7d", false),
    (12, b"\x05\x00\x01\x00\x00\x7d", false),
    (12, b"\x01\x00\x01\x00\x00", true),
    // the index and the TTL of a publication
    (13, b"\x00\x01\x00\x00\x00\x00\x10\x00\x00", false),
    (13, b"\x00\x01\x00\x00\x00\x00\x0f\xff\x7f", true),
    (13, b"\x00\x01\x00\x00\x00\x00\x00\x00\x80", false),
    (13, b"\x00\x01\x00\x00\x00\x00\x00\x00\xfe", false),
    (13, b"\x00\x01\x00\x00\x00\x00\x00\x00\xff", true),
];

/// Whether a slot of a bank of this format is a record.
fn is_record(kind: u8, octets: &[u8], format: u8) -> bool {
    decode(&slot(kind, octets), format).is_ok()
}

/// Whether a slot is a record, and whether it is one with an octet more in its last place, which is of no field.
fn are_records(kind: u8, octets: &[u8]) -> [bool; 2] {
    let mut slot = slot(kind, octets);
    let first = decode(&slot, 2).is_ok();
    slot.body[29] = 1;
    [first, decode(&slot, 2).is_ok()]
}

const ONE_NAME: &[u8] = b"\x00\x03\x12\x34\x56\x78\x31\x29\xab";

const TWO_NAMES: &[u8] =
    b"\x00\x03\x12\x34\x56\x78\x31\x29\xab\x01\x01\x12\x34\x56\x78\x00\x00\x01";

/// Whether one name is a record in format 01, two in 01, and two in 02.
fn names_by_format() -> [bool; 3] {
    [
        is_record(4, ONE_NAME, 1),
        is_record(4, TWO_NAMES, 1),
        is_record(4, TWO_NAMES, 2),
    ]
}

#[test]
fn what_is_a_record(rt: HostRuntime) {
    for (kind, octets, want) in EDGES {
        assert!(rt; are_records(*kind, octets) == [*want, false], "kind {kind}");
    }
    assert!(rt; names_by_format() == [true, false, true]);
}

/// Records that each need a row of their own: the kind, the octets of one, the place of the octet by which they differ, and how many rows
/// the table has. The replay list stands in the worked scripts.
const SIZES: &[(u8, &[u8], usize, usize)] = &[
    (5, b"\x01\x00\x00", 2, 4),
    (6, b"\x01\x00\x00\x00\x00", 4, 8),
    (7, b"\x01\x12\x01\x10\x00\x00\x00", 6, 32),
    (8, b"\x01\x12\x01\x10\x00\xc0\x00", 6, 32),
    (12, b"\x01\x12\x01\x10\x00", 5, 32),
    (13, b"\x12\x01\x10\x00\xc0\x23\x00\x00\x07\x41\x07", 3, 8),
];

/// How many of such records are taken, up to the first that isn't.
fn taken(kind: u8, octets: &[u8], place: usize) -> usize {
    let mut p = Persist::new();
    let mut slot = slot(kind, octets);
    for n in 0..40_u8 {
        if place < 30 {
            slot.body[place] = n;
        }
        if !take(&mut p, &slot) {
            return usize::from(n);
        }
    }
    40
}

#[test]
fn the_size_of_each_table(rt: HostRuntime) {
    for (kind, octets, place, size) in SIZES {
        assert!(rt; taken(*kind, octets, *place) == *size, "kind {kind}");
    }
}
