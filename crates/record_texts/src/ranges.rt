//! Whether a record's fields are in their ranges.
#![tactic(auto)]

ghost use Rattle.std.specs.Prelude.{◌≡◌, ◌⊎◌, ◌+◌, ◌^◌, ◌<◌, ◌≤◌, ◌↔◌, ◌==◌, ◌||◌, nat_le, IsTrue, IfSome};
ghost use Rattle.mesh_base.specs.IvState.{HasTransmit};
ghost use Rattle.record_types.specs.declared.records.StoreRecord.{StoreRecord};
ghost use Rattle.record_types.specs.declared.records.StoreRecord.TheVariants as R;
ghost use Rattle.store_definitions.specs.Ranges.{IsInRange, IsKeyOf, IsMark, IsNameInRange, is_feature as is_value_of, is_zeros as is_all_zeros};
ghost use Rattle.record_texts.specs.Kinds.{HasOp};

use mesh_base::address::Address;
use mesh_base::iv_state::IvState;
use mesh_base::pair::Name;
use node_limits::ELEMENTS;
use record_types::records::{PublishRow, StoreRecord};

/// Whether a key that isn't needed is zeros.
fn is_key(needed: bool, key: &[u8; 16]) -> bool
    ensures { IsTrue result ↔ IsKeyOf needed key.now }
{
    needed || *key == [0; 16]
}

/// Whether a mark is a word under the transmit IV Index of its state, with a multiple of 256 as SEQ.
fn is_mark(state: &IvState, mark: u64) -> bool
    requires { HasTransmit state.now }
    ensures { IsTrue result ↔ IsMark state.now mark }
{
    let first = u64::from(state.transmit()) << 25;
    mark >= first && mark - first <= 1 << 24 && (mark - first) % 256 == 0
}

/// Whether the fields of an Identity are in their ranges.
fn is_identity(unicast: Address, elements: u8, dev_key: &[u8; 16]) -> bool
    ensures { IsTrue result ↔ IsInRange (R.Identity unicast elements dev_key.now) }
{
    let has_key = is_key(true, dev_key);
    let end = u32::from(unicast.0) + u32::from(elements);
    1 <= elements && usize::from(elements) <= ELEMENTS && 1 <= unicast.0 && end <= 0x8000 && has_key
}

/// Whether there is an IV Index to send with, and the mark is one of it.
fn is_numbers(current: u32, progress: bool, mark: u64, hours: u16, since: u16) -> bool
    ensures { IsTrue result ↔ IsInRange (R.Numbers current progress mark hours since) }
{
    let state = IvState {
        current,
        progress,
        hours,
        since,
    };
    (!state.progress || state.current > 0) && is_mark(&state, mark)
}

/// Whether hours are in their range, as all of 16 bits are.
fn is_hour(hours: u16, since: u16) -> bool
    ensures { IsTrue result ↔ ((hours < 2 ^ 16) × (since < 2 ^ 16)) }
{
    hours <= u16::MAX && since <= u16::MAX
}

/// Whether a name's SEQ is below 2^24.
fn is_name(name: Name) -> bool
    ensures { IsTrue result ↔ IsNameInRange name }
{
    name.pair.seq < 1 << 24
}

/// Whether all octets of a name are zeros.
pub(crate) fn name_is_zeros(name: &Name) -> bool
    ensures { result ≡ is_all_zeros name.now }
{
    name.src.0 == 0 && name.pair.iv == 0 && name.pair.seq == 0
}

/// Whether the names of a Replay record are in their ranges.
fn is_replay(first: &Name, second: &Option<Name>) -> bool
    ensures { IsTrue result ↔ IsInRange (R.Replay first.now second.now) }
{
    match second {
        None => is_name(*first),
        Some(name) => is_name(*first) && is_name(*name) && !name_is_zeros(name),
    }
}

/// Whether the fields of a NetKey record are in their ranges.
fn is_net_key(op: u8, index: u16, key: &[u8; 16]) -> bool
    ensures { IsTrue result ↔ ((1 ≤ op) × (op ≤ 5) × (index ≤ 0xfff) × IsKeyOf (nat_le op 2) key.now) }
{
    let has_key = is_key(op <= 2, key);
    1 <= op && op <= 5 && index <= 0xfff && has_key
}

/// Whether the fields of an AppKey record are in their ranges.
fn is_app_key(op: u8, net: u16, index: u16, key: &[u8; 16]) -> bool
    ensures { IsTrue result ↔ ((1 ≤ op) × (op ≤ 3) × (net ≤ 0xfff) × (index ≤ 0xfff) × IsKeyOf (nat_le op 2) key.now) }
{
    let has_key = is_key(op <= 2, key);
    1 <= op && op <= 3 && net <= 0xfff && index <= 0xfff && has_key
}

/// Whether the fields of a Bind record are in their ranges.
fn is_bind(op: u8, element: Address, model: u16, app: u16) -> bool
    ensures { IsTrue result ↔ ((1 ≤ op) × (op ≤ 2) × (element.0 < 2 ^ 16) × (model < 2 ^ 16) × (app ≤ 0xfff)) }
{
    1 <= op && op <= 2 && app <= 0xfff
}

/// Whether the fields of a Subscribe record are in their ranges.
fn is_subscribe(op: u8, element: Address, model: u16, address: Address) -> bool
    ensures { IsTrue result ↔ ((1 ≤ op) × (op ≤ 4) × (element.0 < 2 ^ 16) × (model < 2 ^ 16) × (address.0 < 2 ^ 16)) }
{
    1 <= op && op <= 4
}

/// Whether the fields of a Model record are in their ranges.
fn is_model(element: u8, model: u16, value: u16) -> bool
    ensures { IsTrue result ↔ IsInRange (R.Model element model value) }
{
    usize::from(element) < ELEMENTS && ((model == 0x1000 && value < 2) || model == 0x1002)
}

/// Whether the fields of a Label record are in their ranges.
fn is_label(op: u8, element: Address, model: u16, label: &[u8; 16]) -> bool
    ensures { IsTrue result ↔ IsInRange (R.Label op element model label.now) }
{
    let has_key = is_key(true, label);
    (op == 1 || op == 2 || op == 4) && has_key
}

/// Whether a publication's fields are in their ranges.
fn is_publication(row: PublishRow) -> bool
    ensures { IsTrue result ↔ IsInRange (R.Publish row) }
{
    row.app <= 0xfff && (row.ttl <= 0x7f || row.ttl == 0xff)
}

/// Whether a feature may be set to a value.
fn is_feature(which: u8, value: u16) -> bool
    ensures { result ≡ is_value_of which value }
{
    match which {
        1 => value <= 1,
        2 => value == 0 || (2 <= value && value <= 0x7f),
        3 => value <= 1,
        4 => value < 512,
        5 => value < 256,
        _ => false,
    }
}

/// Whether the fields of a record with an op are in their ranges.
fn is_change(item: &StoreRecord) -> bool
    requires { HasOp item.now }
    ensures { IsTrue result ↔ IsInRange item.now }
{
    match item {
        StoreRecord::NetKey { op, index, key } => is_net_key(*op, *index, key),
        StoreRecord::AppKey {
            op,
            net,
            index,
            key,
        } => is_app_key(*op, *net, *index, key),
        StoreRecord::Bind {
            op,
            element,
            model,
            app,
        } => is_bind(*op, *element, *model, *app),
        StoreRecord::Subscribe {
            op,
            element,
            model,
            address,
        } => is_subscribe(*op, *element, *model, *address),
        StoreRecord::Label {
            op,
            element,
            model,
            label,
        } => is_label(*op, *element, *model, label),
        _ => false,
    }
}

/// Whether a record's fields are in their ranges.
pub fn is_in_range(item: &StoreRecord) -> bool
    ensures value { IsTrue result ↔ IsInRange item.now }
{
    match item {
        StoreRecord::Identity {
            unicast,
            elements,
            dev_key,
        } => is_identity(*unicast, *elements, dev_key),
        StoreRecord::Numbers {
            current,
            progress,
            mark,
            hours,
            since,
        } => { is_numbers(*current, *progress, *mark, *hours, *since) }
        StoreRecord::Hour { hours, since } => is_hour(*hours, *since),
        StoreRecord::Replay { first, second } => is_replay(first, second),
        StoreRecord::Feature { which, value } => is_feature(*which, *value),
        StoreRecord::Reset => true,
        StoreRecord::Model {
            element,
            model,
            value,
        } => is_model(*element, *model, *value),
        StoreRecord::Publish { row } => is_publication(*row),
        _ => is_change(item),
    }
}
