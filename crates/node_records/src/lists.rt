//! The tables of bindings and of subscriptions to groups.
#![tactic(auto)]

ghost use Rattle.std.specs.Prelude.{◌≡◌, ◌<◌, ◌≤◌, ◌==◌, ◌&&◌, not, length, filter};
ghost use Rattle.std.specs.List.{list_any};
ghost use Rattle.store_definitions.specs.Config.{is_bind, is_sub, binds_after, binds_after_net, binds_after_app, subs_without, subs_after, subs_after_label};

use mesh_base::address::Address;
use mesh_base::keys::AppKeyRow;
use mesh_base::table::Table;
use node_limits::{BINDINGS, GROUP_SUBSCRIPTIONS};

/// Element, model and application key index of a binding.
type Bind = (Address, u16, u16);

/// Element, model and group of a subscription.
type Sub = (Address, u16, Address);

/// Whether a binding is among these.
pub(crate) fn has_bind(binds: &[Bind], element: Address, model: u16, app: u16) -> bool
    ensures { result ≡ list_any (is_bind element model app) binds.now }
{
    binds.iter().any(|bind| bind.0.0 == element.0 && bind.1 == model && bind.2 == app)
}

/// Whether an application key of this network key and this index is among these.
pub(crate) fn has_app(apps: &[AppKeyRow], net: u16, index: u16) -> bool
    ensures { result ≡ list_any (λ r. r.net == net && r.index == index) apps.now }
{
    apps.iter().any(|row| row.net == net && row.index == index)
}

/// Whether a subscription is among these.
pub(crate) fn has_sub(subs: &[Sub], element: Address, model: u16, address: Address) -> bool
    ensures { result ≡ list_any (is_sub element model address) subs.now }
{
    subs.iter().any(|sub| sub.0.0 == element.0 && sub.1 == model && sub.2.0 == address.0)
}

/// Adds a binding, unless it is there.
fn add_bind(binds: &mut Table<Bind, BINDINGS>, element: Address, model: u16, app: u16)
    requires { length (binds_after 1 element model app binds.old) ≤ BINDINGS }
    ensures { binds.new ≡ binds_after 1 element model app binds.old }
{
    if has_bind(binds.as_slice(), element, model, app) {
        return;
    }
    binds.push((element, model, app)).unwrap();
}

/// The bindings without this one.
fn drop_bind(binds: &mut Table<Bind, BINDINGS>, element: Address, model: u16, app: u16)
    ensures { binds.new ≡ filter (λ b. not (is_bind element model app b)) binds.old }
{
    binds.retain(|bind| { !(bind.0.0 == element.0 && bind.1 == model && bind.2 == app) });
}

/// The bindings after a Bind record, for which there is a place.
pub(crate) fn apply_to_binds(
    binds: &mut Table<Bind, BINDINGS>,
    op: u8,
    element: Address,
    model: u16,
    app: u16,
)
    requires { length (binds_after op element model app binds.old) ≤ BINDINGS }
    ensures { binds.new ≡ binds_after op element model app binds.old }
{
    match op {
        1 => add_bind(binds, element, model, app),
        2 => drop_bind(binds, element, model, app),
        _ => {}
    }
}

/// The bindings without those of a network key's application keys.
fn drop_binds_of_net(binds: &mut Table<Bind, BINDINGS>, apps: &[AppKeyRow], net: u16)
    ensures { binds.new ≡ filter (λ b. not (list_any (λ r. r.net == net && r.index == b.2) apps.now)) binds.old }
{
    binds.retain(|bind| !has_app(apps, net, bind.2));
}

/// The bindings after a NetKey record, by the application keys before it.
pub(crate) fn apply_net_to_binds(
    binds: &mut Table<Bind, BINDINGS>,
    apps: &[AppKeyRow],
    op: u8,
    net: u16,
)
    ensures { binds.new ≡ binds_after_net op net apps.now binds.old }
{
    if op == 5 {
        drop_binds_of_net(binds, apps, net);
    }
}

/// The bindings without those of an application key.
fn drop_binds_of_app(binds: &mut Table<Bind, BINDINGS>, app: u16)
    ensures { binds.new ≡ filter (λ b. not (b.2 == app)) binds.old }
{
    binds.retain(|bind| bind.2 != app);
}

/// The bindings after an AppKey record.
pub(crate) fn apply_app_to_binds(binds: &mut Table<Bind, BINDINGS>, op: u8, app: u16)
    ensures { binds.new ≡ binds_after_app op app binds.old }
{
    if op == 3 {
        drop_binds_of_app(binds, app);
    }
}

/// Adds a subscription, unless it is there.
fn add_sub(
    subs: &mut Table<Sub, GROUP_SUBSCRIPTIONS>,
    element: Address,
    model: u16,
    address: Address,
)
    requires { length (subs_after 1 element model address subs.old) ≤ GROUP_SUBSCRIPTIONS }
    ensures { subs.new ≡ subs_after 1 element model address subs.old }
{
    if has_sub(subs.as_slice(), element, model, address) {
        return;
    }
    subs.push((element, model, address)).unwrap();
}

/// The subscriptions without this one.
fn drop_sub(
    subs: &mut Table<Sub, GROUP_SUBSCRIPTIONS>,
    element: Address,
    model: u16,
    address: Address,
)
    ensures { subs.new ≡ filter (λ s. not (is_sub element model address s)) subs.old }
{
    subs.retain(|sub| { !(sub.0.0 == element.0 && sub.1 == model && sub.2.0 == address.0) });
}

/// The subscriptions without those of a model.
fn drop_subs(subs: &mut Table<Sub, GROUP_SUBSCRIPTIONS>, element: Address, model: u16)
    ensures { subs.new ≡ subs_without element model subs.old }
{
    subs.retain(|sub| !(sub.0.0 == element.0 && sub.1 == model));
}

/// Puts a subscription in the place of all of its model.
fn overwrite_subs(
    subs: &mut Table<Sub, GROUP_SUBSCRIPTIONS>,
    element: Address,
    model: u16,
    address: Address,
)
    requires { length (subs_after 4 element model address subs.old) ≤ GROUP_SUBSCRIPTIONS }
    ensures { subs.new ≡ subs_after 4 element model address subs.old }
{
    drop_subs(subs, element, model);
    subs.push((element, model, address)).unwrap();
}

/// The subscriptions after a Subscribe record, for which there is a place.
pub(crate) fn apply_to_subs(
    subs: &mut Table<Sub, GROUP_SUBSCRIPTIONS>,
    op: u8,
    element: Address,
    model: u16,
    address: Address,
)
    requires { length (subs_after op element model address subs.old) ≤ GROUP_SUBSCRIPTIONS }
    ensures { subs.new ≡ subs_after op element model address subs.old }
{
    match op {
        1 => add_sub(subs, element, model, address),
        2 => drop_sub(subs, element, model, address),
        3 => drop_subs(subs, element, model),
        4 => overwrite_subs(subs, element, model, address),
        _ => {}
    }
}

/// The subscriptions after a Label record: with all labels of a model its groups go.
pub(crate) fn apply_label_to_subs(
    subs: &mut Table<Sub, GROUP_SUBSCRIPTIONS>,
    op: u8,
    element: Address,
    model: u16,
)
    ensures { subs.new ≡ subs_after_label op element model subs.old }
{
    if op == 4 {
        drop_subs(subs, element, model);
    }
}
