//! Messages about subscriptions to groups (Mesh Profile 1.0.1, sections 4.3.2.19 to 4.3.2.26).
#![tactic(auto)]

ghost use Rattle.std.specs.Prelude.{◌≡◌, ◌≤◌, ◌==◌, ◌&&◌, length, filter, not};
ghost use Rattle.std.specs.List.{list_any};
ghost use Rattle.config_definitions.specs.Models.{count_of_model, delete_all_act, group_act, group_add, group_delete, group_overwrite, groups_of, is_full_of_others, is_subscribed, labels_of, model_of, on_model, subscription_act, subscriptions_delete};
ghost use Rattle.config_definitions.specs.declared.acts.Status.TheVariants as S;
ghost use Rattle.node_records.specs.Tables.{config_in};
ghost use Rattle.store_definitions.specs.Config.{is_sub, labels_without, subs_without};

use crate::models::model_of;
use crate::params::{acted, put_model, put_two, refused, status_octet, stored, unchanged};
use config_definitions::acts::{ConfigAct, Outcome, Status};
use config_definitions::messages::{ElementModel, GroupSubscription};
use mesh_base::address::Address;
use mesh_base::octets::Octets;
use node_limits::SUBSCRIPTIONS;
use node_records::{Persist, StoreRecord};

// Whether it is a group, but for the one of all nodes.
fn is_subscribed(a: Address) -> bool
    ensures { result ≡ is_subscribed a }
{
    0xc000 <= a.0 && a.0 <= 0xfffe
}

// Whether a subscription is this one.
fn is_sub(s: &(Address, u16, Address), element: Address, model: u16, group: Address) -> bool
    ensures { result ≡ is_sub element model group s.now }
{
    s.0.0 == element.0 && s.1 == model && s.2.0 == group.0
}

// Whether a subscription of a holder, by element and model, is one of this model.
fn is_held_by(holder: Address, held: u16, element: Address, model: u16) -> bool
    ensures { result ≡ (holder.0 == element.0 && held == model) }
{
    holder.0 == element.0 && held == model
}

// Whether a model subscribes to a group.
fn has_sub(p: &Persist, element: Address, model: u16, group: Address) -> bool
    ensures { result ≡ list_any (is_sub element model group) p.now.subs }
{
    p.subs
        .as_slice()
        .iter()
        .any(|s| is_sub(s, element, model, group))
}

// How many groups a model subscribes to.
fn count_of_groups(p: &Persist, element: Address, model: u16) -> usize
    ensures value { result ≡ length (groups_of (config_in p.now) element model) }
    ensures most { result ≤ SUBSCRIPTIONS }
{
    p.subs
        .as_slice()
        .iter()
        .filter(|s| is_held_by(s.0, s.1, element, model))
        .count()
}

// How many labels a model subscribes to.
fn count_of_labels(p: &Persist, element: Address, model: u16) -> usize
    ensures value { result ≡ length (labels_of (config_in p.now) element model) }
    ensures most { result ≤ SUBSCRIPTIONS }
{
    p.labels
        .as_slice()
        .iter()
        .filter(|l| is_held_by(l.0, l.1, element, model))
        .count()
}

/// How many subscriptions a model has, to groups and labels together.
pub fn count_of_model(p: &Persist, element: Address, model: u16) -> usize
    ensures value { result ≡ count_of_model (config_in p.now) element model }
{
    count_of_groups(p, element, model) + count_of_labels(p, element, model)
}

// How many groups other models subscribe to.
fn count_of_other_groups(p: &Persist, element: Address, model: u16) -> usize
    ensures value { result ≡ length (subs_without element model p.now.subs) }
    ensures most { result ≤ SUBSCRIPTIONS }
{
    p.subs
        .as_slice()
        .iter()
        .filter(|s| !is_held_by(s.0, s.1, element, model))
        .count()
}

// How many labels other models subscribe to.
fn count_of_other_labels(p: &Persist, element: Address, model: u16) -> usize
    ensures value { result ≡ length (labels_without element model p.now.labels) }
    ensures most { result ≤ SUBSCRIPTIONS }
{
    p.labels
        .as_slice()
        .iter()
        .filter(|l| !is_held_by(l.0, l.1, element, model))
        .count()
}

/// Whether the subscriptions of other models alone fill the table.
pub fn is_full_of_others(p: &Persist, element: Address, model: u16) -> bool
    ensures { result ≡ is_full_of_others (config_in p.now) element model }
{
    count_of_other_groups(p, element, model) + count_of_other_labels(p, element, model)
        >= SUBSCRIPTIONS
}

// Subscription Add.
fn add_group(p: &Persist, element: Address, group: Address, model: u16) -> Outcome
    ensures { result ≡ group_add (config_in p.now) element group model }
{
    if !is_subscribed(group) {
        refused(Status::InvalidAddress)
    } else if has_sub(p, element, model, group) {
        unchanged()
    } else if p.subs.len() + p.labels.len() >= SUBSCRIPTIONS {
        refused(Status::InsufficientResources)
    } else {
        stored(StoreRecord::Subscribe {
            op: 1,
            element,
            model,
            address: group,
        })
    }
}

// Subscription Delete.
fn delete_group(p: &Persist, element: Address, group: Address, model: u16) -> Outcome
    ensures { result ≡ group_delete (config_in p.now) element group model }
{
    if !is_subscribed(group) {
        refused(Status::InvalidAddress)
    } else if has_sub(p, element, model, group) {
        stored(StoreRecord::Subscribe {
            op: 2,
            element,
            model,
            address: group,
        })
    } else {
        unchanged()
    }
}

// Whether the group is the only subscription of the model.
fn is_only_group(p: &Persist, element: Address, group: Address, model: u16) -> bool
    ensures { result
        ≡ (list_any (is_sub element model group) p.now.subs && count_of_model (config_in p.now) element model == 1) }
{
    has_sub(p, element, model, group) && count_of_model(p, element, model) == 1
}

// Subscription Overwrite.
fn overwrite_group(p: &Persist, element: Address, group: Address, model: u16) -> Outcome
    ensures { result ≡ group_overwrite (config_in p.now) element group model }
{
    if !is_subscribed(group) {
        refused(Status::InvalidAddress)
    } else if is_only_group(p, element, group, model) {
        unchanged()
    } else if is_full_of_others(p, element, model) {
        refused(Status::InsufficientResources)
    } else {
        stored(StoreRecord::Subscribe {
            op: 4,
            element,
            model,
            address: group,
        })
    }
}

// Subscription Delete All.
fn delete_all(p: &Persist, element: Address, model: u16) -> Outcome
    ensures { result ≡ subscriptions_delete (config_in p.now) element model }
{
    if count_of_model(p, element, model) == 0 {
        unchanged()
    } else {
        stored(StoreRecord::Subscribe {
            op: 3,
            element,
            model,
            address: Address(0),
        })
    }
}

/// Model Subscription Status.
pub fn subscription_act(o: &Outcome, holder: &ElementModel, address: u16) -> ConfigAct
    ensures { result ≡ subscription_act o.now holder.now address }
{
    let mut reply = Octets::new();
    reply.extend(&[0x80, 0x1f, status_octet(o.status)]);
    put_two(&mut reply, holder.element.0);
    put_two(&mut reply, address);
    put_model(&mut reply, holder.model);
    acted(o.change, reply)
}

// Model Subscription Add, of the model that is meant.
fn group_added(p: &Persist, s: &GroupSubscription) -> Outcome
    ensures { result
        ≡ on_model (model_of (config_in p.now) s.now.holder S.NotSubscribe)
        (group_add (config_in p.now) s.now.holder.element s.now.group) }
{
    match model_of(p, &s.holder, Status::NotSubscribe) {
        Ok(number) => add_group(p, s.holder.element, s.group, number),
        Err(status) => refused(status),
    }
}

/// Model Subscription Add.
pub fn group_add(p: &Persist, s: &GroupSubscription) -> ConfigAct
    ensures { result ≡ group_act (config_in p.now) (group_add (config_in p.now)) s.now }
{
    subscription_act(&group_added(p, s), &s.holder, s.group.0)
}

// Model Subscription Delete, of the model that is meant.
fn group_deleted(p: &Persist, s: &GroupSubscription) -> Outcome
    ensures { result
        ≡ on_model (model_of (config_in p.now) s.now.holder S.NotSubscribe)
        (group_delete (config_in p.now) s.now.holder.element s.now.group) }
{
    match model_of(p, &s.holder, Status::NotSubscribe) {
        Ok(number) => delete_group(p, s.holder.element, s.group, number),
        Err(status) => refused(status),
    }
}

/// Model Subscription Delete.
pub fn group_delete(p: &Persist, s: &GroupSubscription) -> ConfigAct
    ensures { result ≡ group_act (config_in p.now) (group_delete (config_in p.now)) s.now }
{
    subscription_act(&group_deleted(p, s), &s.holder, s.group.0)
}

// Model Subscription Overwrite, of the model that is meant.
fn group_overwritten(p: &Persist, s: &GroupSubscription) -> Outcome
    ensures { result
        ≡ on_model (model_of (config_in p.now) s.now.holder S.NotSubscribe)
        (group_overwrite (config_in p.now) s.now.holder.element s.now.group) }
{
    match model_of(p, &s.holder, Status::NotSubscribe) {
        Ok(number) => overwrite_group(p, s.holder.element, s.group, number),
        Err(status) => refused(status),
    }
}

/// Model Subscription Overwrite.
pub fn group_overwrite(p: &Persist, s: &GroupSubscription) -> ConfigAct
    ensures { result ≡ group_act (config_in p.now) (group_overwrite (config_in p.now)) s.now }
{
    subscription_act(&group_overwritten(p, s), &s.holder, s.group.0)
}

// Model Subscription Delete All, of the model that is meant.
fn all_deleted(p: &Persist, holder: &ElementModel) -> Outcome
    ensures { result
        ≡ on_model (model_of (config_in p.now) holder.now S.NotSubscribe)
        (subscriptions_delete (config_in p.now) holder.now.element) }
{
    match model_of(p, holder, Status::NotSubscribe) {
        Ok(number) => delete_all(p, holder.element, number),
        Err(status) => refused(status),
    }
}

/// Model Subscription Delete All.
pub fn subscriptions_delete(p: &Persist, holder: &ElementModel) -> ConfigAct
    ensures { result ≡ delete_all_act (config_in p.now) holder.now }
{
    subscription_act(&all_deleted(p, holder), holder, 0)
}
