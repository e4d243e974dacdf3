//! From a record to its slot.
#![tactic(auto)]

ghost use Rattle.std.specs.Prelude.{◌≡◌, ◌≤◌, ◌^◌, ◌<◌, ◌∷◌, ◌++◌, length, if◌then◌else◌, IfSome};
ghost use Rattle.cipher_definitions.specs.Octets.{two_octets, three_octets, four_octets, octets_of};
ghost use Rattle.record_types.specs.declared.records.StoreRecord.{StoreRecord};
ghost use Rattle.record_types.specs.declared.records.StoreRecord.TheVariants as R;
ghost use Rattle.store_definitions.specs.Ranges.{IsInRange};
ghost use Rattle.store_definitions.specs.Recovered.{record_text, slot_of, name_octets};
ghost use Rattle.record_texts.specs.Kinds.{HasOp};

use byteorder::{BigEndian, ByteOrder};
use mesh_base::address::Address;
use mesh_base::octets::Octets;
use mesh_base::pair::Name;
use mesh_base::slot::Slot;
use record_types::records::{PublishRow, StoreRecord};

/// A slot of a kind with these octets, and zeros behind them.
fn slot(kind: u8, octets: &[u8]) -> Slot
    requires { length octets.now ≤ 30 }
    ensures { result ≡ slot_of kind octets.now }
{
    let mut body = [0; 30];
    body[..octets.len()].copy_from_slice(octets);
    Slot { kind, body }
}

/// A number of 16 bits, high octet first.
fn two(number: u16) -> [u8; 2]
    ensures { result ≡ two_octets number }
{
    let mut octets = [0; 2];
    BigEndian::write_u16(&mut octets, number);
    octets
}

/// A number of 24 bits, high octet first.
fn three(number: u32) -> [u8; 3]
    requires { number < 2 ^ 24 }
    ensures { result ≡ three_octets number }
{
    let mut octets = [0; 3];
    BigEndian::write_u24(&mut octets, number);
    octets
}

/// A number of 32 bits, high octet first.
fn four(number: u32) -> [u8; 4]
    ensures { result ≡ four_octets number }
{
    let mut octets = [0; 4];
    BigEndian::write_u32(&mut octets, number);
    octets
}

/// A number of 64 bits, high octet first.
#[tactic(auto, unfolding(cipher_definitions::specs::Octets::octets_of))]
fn eight(number: u64) -> [u8; 8]
    ensures { result ≡ octets_of 8 number }
{
    let mut octets = [0; 8];
    BigEndian::write_u64(&mut octets, number);
    octets
}

/// The text of an Identity.
#[tactic(auto, unfolding(store_definitions::specs::Recovered::record_text))]
fn identity(unicast: Address, elements: u8, dev_key: &[u8; 16]) -> Slot
    ensures { result ≡ record_text (R.Identity unicast elements dev_key.now) }
{
    let mut octets = Octets::<30>::new();
    octets.extend(&two(unicast.0));
    octets.extend(&[elements]);
    octets.extend(dev_key);
    slot(1, octets.as_slice())
}

/// The text of a Numbers record.
#[tactic(auto, unfolding(store_definitions::specs::Recovered::record_text))]
fn numbers(current: u32, progress: bool, mark: u64, hours: u16, since: u16) -> Slot
    ensures { result ≡ record_text (R.Numbers current progress mark hours since) }
{
    let mut octets = Octets::<30>::new();
    octets.extend(&four(current));
    octets.extend(&[u8::from(progress)]);
    octets.extend(&eight(mark));
    octets.extend(&two(hours));
    octets.extend(&two(since));
    slot(2, octets.as_slice())
}

/// The text of an Hour record.
#[tactic(auto, unfolding(store_definitions::specs::Recovered::record_text))]
fn hour(hours: u16, since: u16) -> Slot
    ensures { result ≡ record_text (R.Hour hours since) }
{
    let mut octets = Octets::<30>::new();
    octets.extend(&two(hours));
    octets.extend(&two(since));
    slot(3, octets.as_slice())
}

/// The nine octets of a name.
fn name_text(name: &Name) -> Octets<9>
    requires { name.now.pair.seq < 2 ^ 24 }
    ensures { result ≡ name_octets name.now }
{
    let mut octets = Octets::<9>::new();
    octets.extend(&two(name.src.0));
    octets.extend(&four(name.pair.iv));
    octets.extend(&three(name.pair.seq));
    octets
}

/// The text of a Replay record.
#[tactic(auto, unfolding(store_definitions::specs::Recovered::record_text))]
fn replay(first: &Name, second: &Option<Name>) -> Slot
    requires first { first.now.pair.seq < 2 ^ 24 }
    requires second { IfSome second.now (λ name. name.pair.seq < 2 ^ 24) }
    ensures { result ≡ record_text (R.Replay first.now second.now) }
{
    let mut octets = Octets::<30>::new();
    octets.extend(name_text(first).as_slice());
    if let Some(name) = second {
        octets.extend(name_text(name).as_slice());
    }
    slot(4, octets.as_slice())
}

/// The text of a NetKey record.
#[tactic(auto, unfolding(store_definitions::specs::Recovered::record_text))]
fn net_key(op: u8, index: u16, key: &[u8; 16]) -> Slot
    ensures { result ≡ record_text (R.NetKey op index key.now) }
{
    let mut octets = Octets::<30>::new();
    octets.extend(&[op]);
    octets.extend(&two(index));
    octets.extend(key);
    slot(5, octets.as_slice())
}

/// The text of an AppKey record.
#[tactic(auto, unfolding(store_definitions::specs::Recovered::record_text))]
fn app_key(op: u8, net: u16, index: u16, key: &[u8; 16]) -> Slot
    ensures { result ≡ record_text (R.AppKey op net index key.now) }
{
    let mut octets = Octets::<30>::new();
    octets.extend(&[op]);
    octets.extend(&two(net));
    octets.extend(&two(index));
    octets.extend(key);
    slot(6, octets.as_slice())
}

/// The text of a Bind record.
#[tactic(auto, unfolding(store_definitions::specs::Recovered::record_text))]
fn bind(op: u8, element: Address, model: u16, app: u16) -> Slot
    ensures { result ≡ record_text (R.Bind op element model app) }
{
    let mut octets = Octets::<30>::new();
    octets.extend(&[op]);
    octets.extend(&two(element.0));
    octets.extend(&two(model));
    octets.extend(&two(app));
    slot(7, octets.as_slice())
}

/// The text of a Subscribe record.
#[tactic(auto, unfolding(store_definitions::specs::Recovered::record_text))]
fn subscribe(op: u8, element: Address, model: u16, address: Address) -> Slot
    ensures { result ≡ record_text (R.Subscribe op element model address) }
{
    let mut octets = Octets::<30>::new();
    octets.extend(&[op]);
    octets.extend(&two(element.0));
    octets.extend(&two(model));
    octets.extend(&two(address.0));
    slot(8, octets.as_slice())
}

/// The text of a Feature record.
#[tactic(auto, unfolding(store_definitions::specs::Recovered::record_text))]
fn feature(which: u8, value: u16) -> Slot
    ensures { result ≡ record_text (R.Feature which value) }
{
    let mut octets = Octets::<30>::new();
    octets.extend(&[which]);
    octets.extend(&two(value));
    slot(9, octets.as_slice())
}

/// The text of a Model record.
#[tactic(auto, unfolding(store_definitions::specs::Recovered::record_text))]
fn model_value(element: u8, model: u16, value: u16) -> Slot
    ensures { result ≡ record_text (R.Model element model value) }
{
    let mut octets = Octets::<30>::new();
    octets.extend(&[element]);
    octets.extend(&two(model));
    octets.extend(&two(value));
    slot(11, octets.as_slice())
}

/// The text of a Label record.
#[tactic(auto, unfolding(store_definitions::specs::Recovered::record_text))]
fn label_change(op: u8, element: Address, model: u16, label: &[u8; 16]) -> Slot
    ensures { result ≡ record_text (R.Label op element model label.now) }
{
    let mut octets = Octets::<30>::new();
    octets.extend(&[op]);
    octets.extend(&two(element.0));
    octets.extend(&two(model));
    octets.extend(label);
    slot(12, octets.as_slice())
}

/// The text of a Publish record.
#[tactic(auto, unfolding(store_definitions::specs::Recovered::record_text))]
fn publish(row: &PublishRow) -> Slot
    ensures { result ≡ record_text (R.Publish row.now) }
{
    let mut octets = Octets::<30>::new();
    octets.extend(&two(row.element.0));
    octets.extend(&two(row.model));
    octets.extend(&two(row.address.0));
    octets.extend(&two(row.app));
    octets.extend(&[row.ttl, row.period, row.retransmit]);
    slot(13, octets.as_slice())
}

/// The text of a Node Reset.
#[tactic(auto, unfolding(store_definitions::specs::Recovered::record_text))]
fn reset() -> Slot
    ensures { result ≡ record_text R.Reset }
{
    slot(10, &[])
}

/// The text of a record with an op.
fn encode_change(item: &StoreRecord) -> Slot
    requires { HasOp item.now }
    ensures { result ≡ record_text item.now }
{
    match item {
        StoreRecord::NetKey { op, index, key } => net_key(*op, *index, key),
        StoreRecord::AppKey {
            op,
            net,
            index,
            key,
        } => app_key(*op, *net, *index, key),
        StoreRecord::Bind {
            op,
            element,
            model,
            app,
        } => bind(*op, *element, *model, *app),
        StoreRecord::Subscribe {
            op,
            element,
            model,
            address,
        } => subscribe(*op, *element, *model, *address),
        StoreRecord::Label {
            op,
            element,
            model,
            label,
        } => label_change(*op, *element, *model, label),
        _ => reset(),
    }
}

/// The slot of a record: its kind, then its fields high octet first, and zeros.
///
/// The fields are within their ranges ([`is_in_range`](crate::is_in_range)).
pub fn encode(item: &StoreRecord) -> Slot
    requires { IsInRange item.now }
    ensures value { result ≡ record_text item.now }
{
    match item {
        StoreRecord::Identity {
            unicast,
            elements,
            dev_key,
        } => identity(*unicast, *elements, dev_key),
        StoreRecord::Numbers {
            current,
            progress,
            mark,
            hours,
            since,
        } => { numbers(*current, *progress, *mark, *hours, *since) }
        StoreRecord::Hour { hours, since } => hour(*hours, *since),
        StoreRecord::Replay { first, second } => replay(first, second),
        StoreRecord::Feature { which, value } => feature(*which, *value),
        StoreRecord::Reset => reset(),
        StoreRecord::Model {
            element,
            model,
            value,
        } => model_value(*element, *model, *value),
        StoreRecord::Publish { row } => publish(row),
        _ => encode_change(item),
    }
}
