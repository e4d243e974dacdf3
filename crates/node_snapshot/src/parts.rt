//! The records of each part of a value, passed one after another up to a place: nothing is held of those before it.
#![tactic(auto)]

ghost use Rattle.std.specs.Prelude.{◌≡◌, ◌+◌, ◌*◌, ◌<◌, [], ◌∷◌, ◌++◌};
ghost use Rattle.std.specs.List.{flat_map};
ghost use Rattle.node_snapshot.specs.Parts.{identity_records, net_records, next_net, second_phase, app_records, next_app, bind_records, sub_records, label_records, feature_record, feature_records, model_record, element_records, model_records, reset_records, publish_records};
ghost use Rattle.node_snapshot.specs.Passing.{passed};

use mesh_base::address::Address;
use mesh_base::keys::{AppKeyRow, NetKeyRow};
use node_limits::ELEMENTS;
use node_records::Persist;
use record_types::records::{PublishRow, StoreRecord};

/// What is left of a place behind a list: the number of places to go on; or, where it lies in the list, the record there.
pub(crate) type Passed = Result<usize, StoreRecord>;

/// A record.
pub(crate) fn pass(item: StoreRecord, place: usize) -> Passed
    ensures value { result ≡ passed (item ∷ []) place }
{
    if place == 0 {
        return Err(item);
    }
    Ok(place - 1)
}

/// The Identity, where there is one.
pub(crate) fn pass_identity(
    unicast: Address,
    elements: u8,
    dev_key: &[u8; 16],
    place: usize,
) -> Passed
    ensures value { result ≡ passed (identity_records unicast elements dev_key.now) place }
{
    if elements == 0 {
        return Ok(place);
    }
    let identity = StoreRecord::Identity {
        unicast,
        elements,
        dev_key: *dev_key,
    };
    pass(identity, place)
}

/// The key that follows a network key, where there is one.
fn pass_next_net(index: u16, next: Option<[u8; 16]>, place: usize) -> Passed
    ensures value { result ≡ passed (next_net index next) place }
{
    match next {
        Some(key) => pass(StoreRecord::NetKey { op: 2, index, key }, place),
        None => Ok(place),
    }
}

/// The second phase of a Key Refresh, where a network key is in it.
fn pass_phase(index: u16, phase: u8, place: usize) -> Passed
    ensures value { result ≡ passed (second_phase index phase) place }
{
    if phase != 2 {
        return Ok(place);
    }
    let key = [0; 16];
    pass(StoreRecord::NetKey { op: 3, index, key }, place)
}

/// A network key.
fn pass_net(row: &NetKeyRow, place: usize) -> Passed
    ensures value { result ≡ passed (net_records row.now) place }
{
    let index = row.index;
    let key = row.key;
    let left = pass(StoreRecord::NetKey { op: 1, index, key }, place)?;
    let more = pass_next_net(index, row.next, left)?;
    pass_phase(index, row.phase, more)
}

/// The network keys.
pub(crate) fn pass_nets(rows: &[NetKeyRow], place: usize) -> Passed
    ensures value { result ≡ passed (flat_map net_records rows.now) place }
{
    let mut left = place;
    for row in rows {
        left = pass_net(row, left)?;
    }
    Ok(left)
}

/// The value that follows an application key, where there is one.
fn pass_next_app(net: u16, index: u16, next: Option<[u8; 16]>, place: usize) -> Passed
    ensures value { result ≡ passed (next_app net index next) place }
{
    let Some(key) = next else {
        return Ok(place);
    };
    let update = StoreRecord::AppKey {
        op: 2,
        net,
        index,
        key,
    };
    pass(update, place)
}

/// An application key.
fn pass_app(row: &AppKeyRow, place: usize) -> Passed
    ensures value { result ≡ passed (app_records row.now) place }
{
    let add = StoreRecord::AppKey {
        op: 1,
        net: row.net,
        index: row.index,
        key: row.key,
    };
    let left = pass(add, place)?;
    pass_next_app(row.net, row.index, row.next, left)
}

/// The application keys.
pub(crate) fn pass_apps(rows: &[AppKeyRow], place: usize) -> Passed
    ensures value { result ≡ passed (flat_map app_records rows.now) place }
{
    let mut left = place;
    for row in rows {
        left = pass_app(row, left)?;
    }
    Ok(left)
}

/// The bindings.
pub(crate) fn pass_binds(rows: &[(Address, u16, u16)], place: usize) -> Passed
    ensures value { result ≡ passed (flat_map bind_records rows.now) place }
{
    if place >= rows.len() {
        return Ok(place - rows.len());
    }
    let row = rows[place];
    Err(StoreRecord::Bind {
        op: 1,
        element: row.0,
        model: row.1,
        app: row.2,
    })
}

/// The subscriptions to groups.
pub(crate) fn pass_subs(rows: &[(Address, u16, Address)], place: usize) -> Passed
    ensures value { result ≡ passed (flat_map sub_records rows.now) place }
{
    if place >= rows.len() {
        return Ok(place - rows.len());
    }
    let row = rows[place];
    Err(StoreRecord::Subscribe {
        op: 1,
        element: row.0,
        model: row.1,
        address: row.2,
    })
}

/// The subscriptions to virtual addresses.
pub(crate) fn pass_labels(rows: &[(Address, u16, [u8; 16])], place: usize) -> Passed
    ensures value { result ≡ passed (flat_map label_records rows.now) place }
{
    if place >= rows.len() {
        return Ok(place - rows.len());
    }
    let row = rows[place];
    let label = row.2;
    Err(StoreRecord::Label {
        op: 1,
        element: row.0,
        model: row.1,
        label,
    })
}

/// A feature, where its value differs from the first one.
fn pass_feature(which: u8, first: u16, value: u16, place: usize) -> Passed
    ensures value { result ≡ passed (feature_record which first value) place }
{
    if value == first {
        return Ok(place);
    }
    pass(StoreRecord::Feature { which, value }, place)
}

/// The value of the relay feature: its state, and in the lower octet its retransmissions.
fn relay_value(relay: u8, retransmit: u8) -> u16
    ensures value { result ≡ relay * 256 + retransmit }
{
    u16::from(relay) * 256 + u16::from(retransmit)
}

/// The features of a value: beacon, Default TTL, friend, relay with its retransmissions, network transmit.
pub(crate) fn pass_features(p: &Persist, place: usize) -> Passed
    ensures value { result
        ≡ passed
        (feature_records p.now.beacon p.now.ttl p.now.friend p.now.relay p.now.retransmit p.now.transmit) place }
{
    let relayed = relay_value(p.relay, p.retransmit);
    let first = pass_feature(1, 0, u16::from(p.beacon), place)?;
    let second = pass_feature(2, 7, u16::from(p.ttl), first)?;
    let third = pass_feature(3, 1, u16::from(p.friend), second)?;
    let fourth = pass_feature(4, 256, relayed, third)?;
    pass_feature(5, 0, u16::from(p.transmit), fourth)
}

/// The value that a model keeps, where it isn't 0.
fn pass_model(model: u16, element: u8, value: u16, place: usize) -> Passed
    ensures value { result ≡ passed (model_record model element value) place }
{
    if value == 0 {
        return Ok(place);
    }
    let kept = StoreRecord::Model {
        element,
        model,
        value,
    };
    pass(kept, place)
}

/// The values that the models of an element keep.
fn pass_element(
    onoffs: &[u8; ELEMENTS],
    levels: &[u16; ELEMENTS],
    element: u8,
    place: usize,
) -> Passed
    requires { element < ELEMENTS }
    ensures value { result ≡ passed (element_records onoffs.now levels.now element) place }
{
    let at = usize::from(element);
    let left = pass_model(0x1000, element, u16::from(onoffs[at]), place)?;
    pass_model(0x1002, element, levels[at], left)
}

/// The kept values, by element and model.
pub(crate) fn pass_models(onoffs: &[u8; ELEMENTS], levels: &[u16; ELEMENTS], place: usize) -> Passed
    ensures value { result ≡ passed (model_records onoffs.now levels.now) place }
{
    let mut left = place;
    for element in 0..ELEMENTS as u8 {
        left = pass_element(onoffs, levels, element, left)?;
    }
    Ok(left)
}

/// The Node Reset, where there was one.
pub(crate) fn pass_reset(reset: bool, place: usize) -> Passed
    ensures value { result ≡ passed (reset_records reset) place }
{
    if !reset {
        return Ok(place);
    }
    pass(StoreRecord::Reset, place)
}

/// The publications.
pub(crate) fn pass_publications(rows: &[PublishRow], place: usize) -> Passed
    ensures value { result ≡ passed (flat_map publish_records rows.now) place }
{
    if place >= rows.len() {
        return Ok(place - rows.len());
    }
    let row = rows[place];
    Err(StoreRecord::Publish { row })
}
