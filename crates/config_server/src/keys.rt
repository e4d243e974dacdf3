//! Messages about network keys and application keys (Mesh Profile 1.0.1, sections 4.3.2.31 to 4.3.2.42 and 4.3.2.58 to 4.3.2.60).
#![tactic(auto)]

ghost use Rattle.std.specs.Prelude.{◌≡◌, ◌≤◌, ◌+◌, [], ◌∷◌, ◌++◌, ◌==◌, length, map, filter, if◌then◌else◌};
ghost use Rattle.config_definitions.specs.Keys.{app_indexes, app_key_act, app_key_add, app_key_delete, app_key_list, app_key_update, has_net, is_next, net_key_act, net_key_add, net_key_delete, net_key_list, net_key_update, phase_act, phase_after, phase_end, phase_of, phase_set, phase_shown, phase_two};
ghost use Rattle.config_definitions.specs.Params.{refused, unchanged};
ghost use Rattle.config_definitions.specs.declared.acts.Status.TheVariants as S;
ghost use Rattle.mesh_base.specs.declared.keys.AppKeyRow.{AppKeyRow};
ghost use Rattle.mesh_base.specs.declared.keys.NetKeyRow.{NetKeyRow};
ghost use Rattle.node_records.specs.Tables.{config_in};

use crate::params::{
    acted, is_same_key, put_list, put_packed, put_two, refused, replied, status_octet, stored,
    unchanged,
};
use config_definitions::acts::{ConfigAct, Outcome, Status};
use config_definitions::messages::{AppKeyIndexes, AppKeyValue, NetKeyValue, PhaseTransition};
use mesh_base::keys::{AppKeyRow, app_row, net_row};
use mesh_base::octets::Octets;
use mesh_base::table::Table;
use node_limits::{APPLICATION_KEYS, NETWORK_KEYS};
use node_records::{Persist, StoreRecord};

/// The key of a record that needs none.
const NO_KEY: [u8; 16] = [0; 16];

/// Whether a network key is held.
pub fn has_net(p: &Persist, index: u16) -> bool
    ensures { result ≡ has_net (config_in p.now) index }
{
    net_row(p.nets.as_slice(), index).is_some()
}

// The phase of a network key, 0 where it isn't held.
fn phase_of(p: &Persist, index: u16) -> u8
    ensures { result ≡ phase_of (config_in p.now) index }
{
    match net_row(p.nets.as_slice(), index) {
        Some(row) => row.phase,
        None => 0,
    }
}

// Whether a key is the new one.
fn is_next(key: &[u8; 16], next: &Option<[u8; 16]>) -> bool
    ensures { result ≡ is_next key.now next.now }
{
    match next {
        None => false,
        Some(next) => is_same_key(next, key),
    }
}

// AppKey Add.
fn add_app(p: &Persist, net: u16, app: u16, key: &[u8; 16]) -> Outcome
    ensures { result ≡ app_key_add (config_in p.now) net app key.now }
{
    if !has_net(p, net) {
        return refused(Status::InvalidNetKey);
    }
    match app_row(p.apps.as_slice(), app) {
        Some(row) => {
            if row.net == net && is_same_key(&row.key, key) {
                unchanged()
            } else {
                refused(Status::KeyIndexStored)
            }
        }
        None => {
            if p.apps.len() >= APPLICATION_KEYS {
                refused(Status::InsufficientResources)
            } else {
                stored(StoreRecord::AppKey {
                    op: 1,
                    net,
                    index: app,
                    key: *key,
                })
            }
        }
    }
}

// AppKey Update.
fn update_app(p: &Persist, net: u16, app: u16, key: &[u8; 16]) -> Outcome
    ensures { result ≡ app_key_update (config_in p.now) net app key.now }
{
    match app_row(p.apps.as_slice(), app) {
        None => refused(Status::InvalidAppKey),
        Some(row) => {
            if row.net != net {
                refused(Status::InvalidNetKey)
            } else if phase_of(p, net) != 1 {
                refused(Status::CannotUpdate)
            } else if is_next(key, &row.next) {
                unchanged()
            } else if row.next.is_some() {
                refused(Status::CannotUpdate)
            } else {
                stored(StoreRecord::AppKey {
                    op: 2,
                    net,
                    index: app,
                    key: *key,
                })
            }
        }
    }
}

// AppKey Delete.
fn delete_app(p: &Persist, net: u16, app: u16) -> Outcome
    ensures { result ≡ app_key_delete (config_in p.now) net app }
{
    if !has_net(p, net) {
        return refused(Status::InvalidNetKey);
    }
    match app_row(p.apps.as_slice(), app) {
        None => unchanged(),
        Some(row) => {
            if row.net != net {
                refused(Status::InvalidNetKey)
            } else {
                stored(StoreRecord::AppKey {
                    op: 3,
                    net,
                    index: app,
                    key: NO_KEY,
                })
            }
        }
    }
}

// AppKey Status.
fn app_key_act(o: &Outcome, key: &AppKeyIndexes) -> ConfigAct
    ensures { result ≡ app_key_act o.now key.now }
{
    let mut reply = Octets::new();
    reply.extend(&[0x80, 0x03, status_octet(o.status)]);
    put_packed(&mut reply, key.net, key.app);
    acted(o.change, reply)
}

/// AppKey Add.
pub fn app_key_add(p: &Persist, k: &AppKeyValue) -> ConfigAct
    ensures { result
        ≡ app_key_act (app_key_add (config_in p.now) k.now.indexes.net k.now.indexes.app k.now.key) k.now.indexes }
{
    app_key_act(
        &add_app(p, k.indexes.net, k.indexes.app, &k.key),
        &k.indexes,
    )
}

/// AppKey Update.
pub fn app_key_update(p: &Persist, k: &AppKeyValue) -> ConfigAct
    ensures { result
        ≡ app_key_act (app_key_update (config_in p.now) k.now.indexes.net k.now.indexes.app k.now.key) k.now.indexes }
{
    app_key_act(
        &update_app(p, k.indexes.net, k.indexes.app, &k.key),
        &k.indexes,
    )
}

/// AppKey Delete.
pub fn app_key_delete(p: &Persist, key: &AppKeyIndexes) -> ConfigAct
    ensures { result ≡ app_key_act (app_key_delete (config_in p.now) key.now.net key.now.app) key.now }
{
    app_key_act(&delete_app(p, key.net, key.app), key)
}

// Puts an application key's index behind the others, if it is one of this network key.
fn add_index(list: &mut Table<u16, APPLICATION_KEYS>, net: u16, row: &AppKeyRow)
    requires { length list.old + 1 ≤ APPLICATION_KEYS }
    ensures { list.new ≡ list.old ++ map (λ (r : AppKeyRow). r.index) (filter (λ r. r.net == net) (row.now ∷ [])) }
{
    if row.net == net {
        list.push(row.index).unwrap();
    }
}

// The indexes of the application keys of a network key.
fn app_indexes(p: &Persist, net: u16) -> Table<u16, APPLICATION_KEYS>
    ensures value { result ≡ app_indexes (config_in p.now) net }
    ensures few { length result ≤ APPLICATION_KEYS }
{
    let mut list = Table::new();
    for row in p.apps.as_slice() {
        add_index(&mut list, net, row);
    }
    list
}

/// AppKey List, of the application keys of a network key.
pub fn app_key_list(p: &Persist, net: u16) -> ConfigAct
    ensures { result ≡ app_key_list (config_in p.now) net }
{
    let mut reply = Octets::new();
    if has_net(p, net) {
        reply.extend(&[0x80, 0x02, 0x00]);
        put_two(&mut reply, net);
        put_list(&mut reply, app_indexes(p, net).as_slice());
    } else {
        reply.extend(&[0x80, 0x02, status_octet(Status::InvalidNetKey)]);
        put_two(&mut reply, net);
    }
    replied(reply)
}

// NetKey Add.
fn add_net(p: &Persist, net: u16, key: &[u8; 16]) -> Outcome
    ensures { result ≡ net_key_add (config_in p.now) net key.now }
{
    match net_row(p.nets.as_slice(), net) {
        Some(row) => {
            if is_same_key(&row.key, key) {
                unchanged()
            } else {
                refused(Status::KeyIndexStored)
            }
        }
        None => {
            if p.nets.len() >= NETWORK_KEYS {
                refused(Status::InsufficientResources)
            } else {
                stored(StoreRecord::NetKey {
                    op: 1,
                    index: net,
                    key: *key,
                })
            }
        }
    }
}

// NetKey Update.
fn update_net(p: &Persist, net: u16, key: &[u8; 16]) -> Outcome
    ensures { result ≡ net_key_update (config_in p.now) net key.now }
{
    match net_row(p.nets.as_slice(), net) {
        None => refused(Status::InvalidNetKey),
        Some(row) => {
            if row.phase == 1 && is_next(key, &row.next) {
                unchanged()
            } else if row.phase != 0 {
                refused(Status::CannotUpdate)
            } else {
                stored(StoreRecord::NetKey {
                    op: 2,
                    index: net,
                    key: *key,
                })
            }
        }
    }
}

// NetKey Delete.
fn delete_net(p: &Persist, under: u16, net: u16) -> Outcome
    ensures { result ≡ net_key_delete (config_in p.now) under net }
{
    if !has_net(p, net) {
        unchanged()
    } else if net == under || p.nets.len() <= 1 {
        refused(Status::CannotRemove)
    } else {
        stored(StoreRecord::NetKey {
            op: 5,
            index: net,
            key: NO_KEY,
        })
    }
}

// NetKey Status.
fn net_key_act(o: &Outcome, net: u16) -> ConfigAct
    ensures { result ≡ net_key_act o.now net }
{
    let mut reply = Octets::new();
    reply.extend(&[0x80, 0x44, status_octet(o.status)]);
    put_two(&mut reply, net);
    acted(o.change, reply)
}

/// NetKey Add.
pub fn net_key_add(p: &Persist, k: &NetKeyValue) -> ConfigAct
    ensures { result ≡ net_key_act (net_key_add (config_in p.now) k.now.net k.now.key) k.now.net }
{
    net_key_act(&add_net(p, k.net, &k.key), k.net)
}

/// NetKey Update.
pub fn net_key_update(p: &Persist, k: &NetKeyValue) -> ConfigAct
    ensures { result ≡ net_key_act (net_key_update (config_in p.now) k.now.net k.now.key) k.now.net }
{
    net_key_act(&update_net(p, k.net, &k.key), k.net)
}

/// NetKey Delete.
pub fn net_key_delete(p: &Persist, under: u16, net: u16) -> ConfigAct
    ensures { result ≡ net_key_act (net_key_delete (config_in p.now) under net) net }
{
    net_key_act(&delete_net(p, under, net), net)
}

// The indexes of the network keys.
fn net_indexes(p: &Persist) -> Table<u16, NETWORK_KEYS>
    ensures value { result ≡ map (λ (r : NetKeyRow). r.index) p.now.nets }
    ensures few { length result ≤ NETWORK_KEYS }
{
    let mut list = Table::new();
    for row in p.nets.as_slice() {
        list.push(row.index).unwrap();
    }
    list
}

/// NetKey List.
pub fn net_key_list(p: &Persist) -> ConfigAct
    ensures { result ≡ net_key_list (config_in p.now) }
{
    let mut reply = Octets::new();
    reply.extend(&[0x80, 0x43]);
    put_list(&mut reply, net_indexes(p).as_slice());
    replied(reply)
}

// Transition to phase 2.
fn begin_phase_two(p: &Persist, net: u16) -> Outcome
    ensures { result ≡ phase_two (config_in p.now) net }
{
    if !has_net(p, net) {
        return refused(Status::InvalidNetKey);
    }
    match phase_of(p, net) {
        0 => refused(Status::CannotSet),
        2 => unchanged(),
        _ => stored(StoreRecord::NetKey {
            op: 3,
            index: net,
            key: NO_KEY,
        }),
    }
}

// The end of a Key Refresh.
fn end_refresh(p: &Persist, net: u16) -> Outcome
    ensures { result ≡ phase_end (config_in p.now) net }
{
    if !has_net(p, net) {
        return refused(Status::InvalidNetKey);
    }
    if phase_of(p, net) == 0 {
        return unchanged();
    }
    stored(StoreRecord::NetKey {
        op: 4,
        index: net,
        key: NO_KEY,
    })
}

// Key Refresh Phase Status.
fn phase_act(o: &Outcome, net: u16, phase: u8) -> ConfigAct
    ensures { result ≡ phase_act o.now net phase }
{
    let mut reply = Octets::new();
    reply.extend(&[0x80, 0x17, status_octet(o.status)]);
    put_two(&mut reply, net);
    reply.extend(&[phase]);
    acted(o.change, reply)
}

// The phase after a message.
fn phase_after(p: &Persist, net: u16, o: &Outcome, set: u8) -> u8
    ensures { result ≡ phase_after (config_in p.now) net o.now set }
{
    if o.change.is_some() {
        set
    } else {
        phase_of(p, net)
    }
}

// Whether a network key is held, as an outcome.
fn held_outcome(p: &Persist, net: u16) -> Outcome
    ensures { result ≡ (if has_net (config_in p.now) net then unchanged else refused S.InvalidNetKey) }
{
    if has_net(p, net) {
        unchanged()
    } else {
        refused(Status::InvalidNetKey)
    }
}

/// Key Refresh Phase Status of a network key as it is.
pub fn phase_shown(p: &Persist, net: u16) -> ConfigAct
    ensures { result ≡ phase_shown (config_in p.now) net }
{
    phase_act(&held_outcome(p, net), net, phase_of(p, net))
}

/// Key Refresh Phase Set.
pub fn phase_set(p: &Persist, net: u16, transition: PhaseTransition) -> ConfigAct
    ensures { result ≡ phase_set (config_in p.now) net transition }
{
    match transition {
        PhaseTransition::ToPhaseTwo => {
            let o = begin_phase_two(p, net);
            phase_act(&o, net, phase_after(p, net, &o, 2))
        }
        PhaseTransition::ToEnd => {
            let o = end_refresh(p, net);
            phase_act(&o, net, phase_after(p, net, &o, 0))
        }
    }
}
