//! The tables of network keys and application keys.
#![tactic(auto)]

ghost use Rattle.std.specs.Prelude.{◌≡◌, ◌≤◌, not, ◌==◌, length, filter, map};
ghost use Rattle.store_definitions.specs.Config.{finished_app, updated_app, nets_after, apps_after, apps_after_net};
ghost use Rattle.node_records.specs.Rows.{net_after};

use crate::keyed::put;
use mesh_base::keys::{AppKeyRow, NetKeyRow};
use mesh_base::table::Table;
use node_limits::{APPLICATION_KEYS, NETWORK_KEYS};

/// A network key after op 2, 3 or 4 on this index.
fn net_with(row: NetKeyRow, op: u8, index: u16, key: &[u8; 16]) -> NetKeyRow
    ensures { result ≡ net_after op index key.now row }
{
    if row.index != index {
        return row;
    }
    match op {
        2 => NetKeyRow {
            phase: 1,
            next: Some(*key),
            ..row
        },
        3 => NetKeyRow { phase: 2, ..row },
        _ => NetKeyRow {
            phase: 0,
            key: row.next.unwrap_or(row.key),
            next: None,
            ..row
        },
    }
}

/// The network keys after op 2, 3 or 4 on this index.
fn change_nets(nets: &mut Table<NetKeyRow, NETWORK_KEYS>, op: u8, index: u16, key: &[u8; 16])
    requires least { 2 ≤ op }
    requires most { op ≤ 4 }
    ensures { nets.new ≡ nets_after op index key.now nets.old }
{
    for place in 0..nets.len() {
        let row = net_with(nets.as_slice()[place], op, index, key);
        nets.set(place, row);
    }
}

/// The network keys without the one of this index.
fn drop_net(nets: &mut Table<NetKeyRow, NETWORK_KEYS>, index: u16)
    ensures { nets.new ≡ filter (λ r. not (r.index == index)) nets.old }
{
    nets.retain(|row| row.index != index);
}

/// The network keys after a NetKey record, for which there is a place.
pub(crate) fn apply_to_nets(
    nets: &mut Table<NetKeyRow, NETWORK_KEYS>,
    op: u8,
    index: u16,
    key: &[u8; 16],
)
    requires { length (nets_after op index key.now nets.old) ≤ NETWORK_KEYS }
    ensures { nets.new ≡ nets_after op index key.now nets.old }
{
    match op {
        1 => put(
            nets,
            NetKeyRow {
                index,
                phase: 0,
                key: *key,
                next: None,
            },
        ),
        2..=4 => change_nets(nets, op, index, key),
        5 => drop_net(nets, index),
        _ => {}
    }
}

/// An application key after the end of its network key's refresh.
fn app_finished(row: AppKeyRow, net: u16) -> AppKeyRow
    ensures { result ≡ finished_app net row }
{
    if row.net != net {
        return row;
    }
    AppKeyRow {
        key: row.next.unwrap_or(row.key),
        next: None,
        ..row
    }
}

/// The application keys after the end of their network key's refresh.
fn finish_apps(apps: &mut Table<AppKeyRow, APPLICATION_KEYS>, net: u16)
    ensures { apps.new ≡ map (finished_app net) apps.old }
{
    for place in 0..apps.len() {
        let row = app_finished(apps.as_slice()[place], net);
        apps.set(place, row);
    }
}

/// The application keys without those of a network key.
fn drop_apps_of(apps: &mut Table<AppKeyRow, APPLICATION_KEYS>, net: u16)
    ensures { apps.new ≡ filter (λ r. not (r.net == net)) apps.old }
{
    apps.retain(|row| row.net != net);
}

/// The application keys after a NetKey record.
pub(crate) fn apply_net_to_apps(apps: &mut Table<AppKeyRow, APPLICATION_KEYS>, op: u8, net: u16)
    ensures { apps.new ≡ apps_after_net op net apps.old }
{
    match op {
        4 => finish_apps(apps, net),
        5 => drop_apps_of(apps, net),
        _ => {}
    }
}

/// An application key after an update of the one of this index.
fn app_updated(row: AppKeyRow, index: u16, key: &[u8; 16]) -> AppKeyRow
    ensures { result ≡ updated_app index key.now row }
{
    if row.index != index {
        return row;
    }
    AppKeyRow {
        next: Some(*key),
        ..row
    }
}

/// The application keys after an update of the one of this index.
fn update_apps(apps: &mut Table<AppKeyRow, APPLICATION_KEYS>, index: u16, key: &[u8; 16])
    ensures { apps.new ≡ map (updated_app index key.now) apps.old }
{
    for place in 0..apps.len() {
        let row = app_updated(apps.as_slice()[place], index, key);
        apps.set(place, row);
    }
}

/// The application keys without the one of this index.
fn drop_app(apps: &mut Table<AppKeyRow, APPLICATION_KEYS>, index: u16)
    ensures { apps.new ≡ filter (λ r. not (r.index == index)) apps.old }
{
    apps.retain(|row| row.index != index);
}

/// The application keys after an AppKey record, for which there is a place.
pub(crate) fn apply_to_apps(
    apps: &mut Table<AppKeyRow, APPLICATION_KEYS>,
    op: u8,
    net: u16,
    index: u16,
    key: &[u8; 16],
)
    requires { length (apps_after op net index key.now apps.old) ≤ APPLICATION_KEYS }
    ensures { apps.new ≡ apps_after op net index key.now apps.old }
{
    match op {
        1 => put(
            apps,
            AppKeyRow {
                net,
                index,
                key: *key,
                next: None,
            },
        ),
        2 => update_apps(apps, index, key),
        3 => drop_app(apps, index),
        _ => {}
    }
}
