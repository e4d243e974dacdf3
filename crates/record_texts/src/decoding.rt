//! From a slot to its record.
#![tactic(auto)]

ghost use Rattle.std.specs.Prelude.{◌≡◌, ◌+◌, ◌*◌, ◌≤◌, ◌↔◌, length, take, drop, slice_index, Some, None, if◌then◌else◌, IsTrue, IfOk, IsErr};
ghost use Rattle.cipher_definitions.specs.Octets.{number_of};
ghost use Rattle.mesh_base.specs.declared.slot.Slot.{Slot};
ghost use Rattle.record_types.specs.declared.records.StoreRecord.{StoreRecord};
ghost use Rattle.store_definitions.specs.Ranges.{IsInRange, is_zeros};
ghost use Rattle.store_definitions.specs.Recovered.{record_text, HasOneName};
ghost use Rattle.store_definitions.proofs.Texts.{name_at as name_from};

use crate::encoding::encode;
use crate::ranges::{is_in_range, name_is_zeros};
use byteorder::{BigEndian, ByteOrder};
use mesh_base::address::Address;
use mesh_base::pair::{Name, Pair};
use mesh_base::slot::Slot;
use record_types::records::{PublishRow, StoreRecord};
use thiserror::Error;

/// No record has this text.
#[derive(Clone, Copy, Debug, PartialEq, Eq, Error)]
#[error("no record has this text")]
pub struct BadRecord;

/// The number of two octets at a place.
fn two_at(body: &[u8; 30], place: usize) -> u16
    requires { place ≤ 28 }
    ensures { result ≡ slice_index body.now place * 256 + slice_index body.now (place + 1) }
{
    BigEndian::read_u16(&body[place..])
}

/// The number of four octets at a place.
fn four_at(body: &[u8; 30], place: usize) -> u32
    requires { place ≤ 26 }
    ensures { result ≡ (slice_index body.now place * 256 + slice_index body.now (place + 1)) * 65536
        + (slice_index body.now (place + 2) * 256 + slice_index body.now (place + 2 + 1)) }
{
    BigEndian::read_u32(&body[place..])
}

/// The number of three octets at a place.
fn three_at(body: &[u8; 30], place: usize) -> u32
    requires { place ≤ 27 }
    ensures { result
        ≡ slice_index body.now place * 65536 +
        (slice_index body.now (place + 1) * 256 + slice_index body.now (place + 1 + 1)) }
{
    BigEndian::read_u24(&body[place..])
}

/// The number of the first eight octets.
fn eight_of(octets: &[u8]) -> u64
    requires { 8 ≤ length octets.now }
    ensures { result ≡ number_of (take 8 octets.now) }
{
    BigEndian::read_u64(octets)
}

/// The number of eight octets from the fifth on.
fn mark_at(body: &[u8; 30]) -> u64
    ensures { result ≡ number_of (take 8 (drop 5 body.now)) }
{
    eight_of(&body[5..])
}

/// The sixteen octets at a place.
fn key_at(body: &[u8; 30], place: usize) -> [u8; 16]
    requires { place ≤ 14 }
    ensures { result ≡ take 16 (drop place body.now) }
{
    let mut key = [0; 16];
    key.copy_from_slice(&body[place..place + 16]);
    key
}

/// The record of kind 1 whose text this is, if there is one.
fn identity(body: &[u8; 30]) -> StoreRecord
    ensures { (r : StoreRecord) → IsInRange r → record_text r ≡ record { kind = 1; body = body.now } → result ≡ r }
{
    StoreRecord::Identity {
        unicast: Address(two_at(body, 0)),
        elements: body[2],
        dev_key: key_at(body, 3),
    }
}

/// The record of kind 2 whose text this is, if there is one.
fn numbers(body: &[u8; 30]) -> StoreRecord
    ensures { (r : StoreRecord) → IsInRange r → record_text r ≡ record { kind = 2; body = body.now } → result ≡ r }
{
    StoreRecord::Numbers {
        current: four_at(body, 0),
        progress: body[4] == 1,
        mark: mark_at(body),
        hours: two_at(body, 13),
        since: two_at(body, 15),
    }
}

/// The record of kind 3 whose text this is, if there is one.
fn hour(body: &[u8; 30]) -> StoreRecord
    ensures { (r : StoreRecord) → IsInRange r → record_text r ≡ record { kind = 3; body = body.now } → result ≡ r }
{
    StoreRecord::Hour {
        hours: two_at(body, 0),
        since: two_at(body, 2),
    }
}

/// The name in the nine octets at a place.
fn name_at(body: &[u8; 30], place: usize) -> Name
    requires { place ≤ 21 }
    ensures { result ≡ name_from body.now place }
{
    Name {
        src: Address(two_at(body, place)),
        pair: Pair {
            iv: four_at(body, place + 2),
            seq: three_at(body, place + 6),
        },
    }
}

/// The second name of a Replay record, if its octets aren't zeros.
fn second_name(body: &[u8; 30]) -> Option<Name>
    ensures { result ≡ (if is_zeros (name_from body.now 9) then None else Some (name_from body.now 9)) }
{
    let name = name_at(body, 9);
    if name_is_zeros(&name) {
        None
    } else {
        Some(name)
    }
}

/// The record of kind 4 whose text this is, if there is one.
fn replay(body: &[u8; 30]) -> StoreRecord
    ensures { (r : StoreRecord) → IsInRange r → record_text r ≡ record { kind = 4; body = body.now } → result ≡ r }
{
    StoreRecord::Replay {
        first: name_at(body, 0),
        second: second_name(body),
    }
}

/// The record of kind 5 whose text this is, if there is one.
fn net_key(body: &[u8; 30]) -> StoreRecord
    ensures { (r : StoreRecord) → IsInRange r → record_text r ≡ record { kind = 5; body = body.now } → result ≡ r }
{
    StoreRecord::NetKey {
        op: body[0],
        index: two_at(body, 1),
        key: key_at(body, 3),
    }
}

/// The record of kind 6 whose text this is, if there is one.
fn app_key(body: &[u8; 30]) -> StoreRecord
    ensures { (r : StoreRecord) → IsInRange r → record_text r ≡ record { kind = 6; body = body.now } → result ≡ r }
{
    StoreRecord::AppKey {
        op: body[0],
        net: two_at(body, 1),
        index: two_at(body, 3),
        key: key_at(body, 5),
    }
}

/// The record of kind 7 whose text this is, if there is one.
fn bind(body: &[u8; 30]) -> StoreRecord
    ensures { (r : StoreRecord) → IsInRange r → record_text r ≡ record { kind = 7; body = body.now } → result ≡ r }
{
    StoreRecord::Bind {
        op: body[0],
        element: Address(two_at(body, 1)),
        model: two_at(body, 3),
        app: two_at(body, 5),
    }
}

/// The record of kind 8 whose text this is, if there is one.
fn subscribe(body: &[u8; 30]) -> StoreRecord
    ensures { (r : StoreRecord) → IsInRange r → record_text r ≡ record { kind = 8; body = body.now } → result ≡ r }
{
    StoreRecord::Subscribe {
        op: body[0],
        element: Address(two_at(body, 1)),
        model: two_at(body, 3),
        address: Address(two_at(body, 5)),
    }
}

/// The record of kind 9 whose text this is, if there is one.
fn feature(body: &[u8; 30]) -> StoreRecord
    ensures { (r : StoreRecord) → IsInRange r → record_text r ≡ record { kind = 9; body = body.now } → result ≡ r }
{
    StoreRecord::Feature {
        which: body[0],
        value: two_at(body, 1),
    }
}

/// The record of kind 11 whose text this is, if there is one.
fn model_value(body: &[u8; 30]) -> StoreRecord
    ensures { (r : StoreRecord) → IsInRange r → record_text r ≡ record { kind = 11; body = body.now } → result ≡ r }
{
    StoreRecord::Model {
        element: body[0],
        model: two_at(body, 1),
        value: two_at(body, 3),
    }
}

/// The record of kind 12 whose text this is, if there is one.
fn label_change(body: &[u8; 30]) -> StoreRecord
    ensures { (r : StoreRecord) → IsInRange r → record_text r ≡ record { kind = 12; body = body.now } → result ≡ r }
{
    StoreRecord::Label {
        op: body[0],
        element: Address(two_at(body, 1)),
        model: two_at(body, 3),
        label: key_at(body, 5),
    }
}

/// The record of kind 13 whose text this is, if there is one.
fn publish(body: &[u8; 30]) -> StoreRecord
    ensures { (r : StoreRecord) → IsInRange r → record_text r ≡ record { kind = 13; body = body.now } → result ≡ r }
{
    StoreRecord::Publish {
        row: PublishRow {
            element: Address(two_at(body, 0)),
            model: two_at(body, 2),
            address: Address(two_at(body, 4)),
            app: two_at(body, 6),
            ttl: body[8],
            period: body[9],
            retransmit: body[10],
        },
    }
}

/// The record whose text this is, if there is one.
fn fields(slot: &Slot) -> Option<StoreRecord>
    ensures { (r : StoreRecord) → IsInRange r → record_text r ≡ slot.now → result ≡ Some r }
{
    match slot.kind {
        1 => Some(identity(&slot.body)),
        2 => Some(numbers(&slot.body)),
        3 => Some(hour(&slot.body)),
        4 => Some(replay(&slot.body)),
        5 => Some(net_key(&slot.body)),
        6 => Some(app_key(&slot.body)),
        7 => Some(bind(&slot.body)),
        8 => Some(subscribe(&slot.body)),
        9 => Some(feature(&slot.body)),
        10 => Some(StoreRecord::Reset),
        11 => Some(model_value(&slot.body)),
        12 => Some(label_change(&slot.body)),
        13 => Some(publish(&slot.body)),
        _ => None,
    }
}

/// Whether this is the text of a record.
fn is_text(item: &StoreRecord, slot: &Slot) -> bool
    requires { IsInRange item.now }
    ensures { IsTrue result ↔ (record_text item.now ≡ slot.now) }
{
    encode(item) == *slot
}

/// Whether a bank of this format may hold a record: in format 01 a Replay record has one name alone.
fn is_of_format(item: &StoreRecord, format: u8) -> bool
    ensures { IsTrue result ↔ (format ≡ 1 → HasOneName item.now) }
{
    match item {
        StoreRecord::Replay {
            second: Some(_),
            ..
        } => format != 1,
        _ => true,
    }
}

/// The record whose text this slot is, as a bank of this format holds it; `BadRecord` exactly where no record in range has this text, or
/// it has a second name and the format is 01.
pub fn decode(slot: &Slot, format: u8) -> Result<StoreRecord, BadRecord>
    ensures ok { IfOk result (λ item. IsInRange item × (record_text item ≡ slot.now) × (format ≡ 1 → HasOneName item)) }
    ensures bad { IsErr result
        ↔ ((item : StoreRecord) → IsInRange item → record_text item ≡ slot.now → (format ≡ 1 → HasOneName item) → ⊥) }
{
    let Some(item) = fields(slot) else {
        return Err(BadRecord)
    };
    if is_in_range(&item) && is_text(&item, slot) && is_of_format(&item, format) {
        Ok(item)
    } else {
        Err(BadRecord)
    }
}
