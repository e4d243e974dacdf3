//! Messages about subscriptions to labels (Mesh Profile 1.0.1, sections 4.3.2.20, 4.3.2.22 and 4.3.2.23).
#![tactic(auto)]

ghost use Rattle.std.specs.Prelude.{◌≡◌, ◌==◌, ◌&&◌};
ghost use Rattle.std.specs.List.{list_any};
ghost use Rattle.config_definitions.specs.Models.{count_of_model, label_add, label_delete, label_overwrite, label_act, model_of, on_model};
ghost use Rattle.config_definitions.specs.declared.acts.Status.TheVariants as S;
ghost use Rattle.node_records.specs.Tables.{config_in};
ghost use Rattle.store_definitions.specs.Config.{is_label};

use crate::groups::{count_of_model, is_full_of_others, subscription_act};
use crate::models::model_of;
use crate::params::{is_same_key, refused, stored, unchanged};
use config_definitions::acts::{ConfigAct, Outcome, Status};
use config_definitions::messages::LabelSubscription;
use mesh_base::address::Address;
use node_limits::SUBSCRIPTIONS;
use node_records::{Persist, StoreRecord};

// Whether a subscription is this one.
fn is_label(l: &(Address, u16, [u8; 16]), element: Address, model: u16, label: &[u8; 16]) -> bool
    ensures { result ≡ is_label element model label.now l.now }
{
    l.0.0 == element.0 && l.1 == model && is_same_key(&l.2, label)
}

// Whether a model subscribes to a label.
fn has_label(p: &Persist, element: Address, model: u16, label: &[u8; 16]) -> bool
    ensures { result ≡ list_any (is_label element model label.now) p.now.labels }
{
    p.labels
        .as_slice()
        .iter()
        .any(|l| is_label(l, element, model, label))
}

// Virtual Address Add.
fn add_label(p: &Persist, element: Address, label: &[u8; 16], model: u16) -> Outcome
    ensures { result ≡ label_add (config_in p.now) element label.now model }
{
    if has_label(p, element, model, label) {
        unchanged()
    } else if p.subs.len() + p.labels.len() >= SUBSCRIPTIONS {
        refused(Status::InsufficientResources)
    } else {
        stored(StoreRecord::Label {
            op: 1,
            element,
            model,
            label: *label,
        })
    }
}

// Virtual Address Delete.
fn delete_label(p: &Persist, element: Address, label: &[u8; 16], model: u16) -> Outcome
    ensures { result ≡ label_delete (config_in p.now) element label.now model }
{
    if has_label(p, element, model, label) {
        stored(StoreRecord::Label {
            op: 2,
            element,
            model,
            label: *label,
        })
    } else {
        unchanged()
    }
}

// Whether the label is the only subscription of the model.
fn is_only_label(p: &Persist, element: Address, label: &[u8; 16], model: u16) -> bool
    ensures { result
        ≡ (list_any (is_label element model label.now) p.now.labels
        && count_of_model (config_in p.now) element model == 1) }
{
    has_label(p, element, model, label) && count_of_model(p, element, model) == 1
}

// Virtual Address Overwrite.
fn overwrite_label(p: &Persist, element: Address, label: &[u8; 16], model: u16) -> Outcome
    ensures { result ≡ label_overwrite (config_in p.now) element label.now model }
{
    if is_only_label(p, element, label, model) {
        unchanged()
    } else if is_full_of_others(p, element, model) {
        refused(Status::InsufficientResources)
    } else {
        stored(StoreRecord::Label {
            op: 4,
            element,
            model,
            label: *label,
        })
    }
}

// Virtual Address Add, of the model that is meant.
fn label_added(p: &Persist, s: &LabelSubscription) -> Outcome
    ensures { result
        ≡ on_model (model_of (config_in p.now) s.now.holder S.NotSubscribe)
        (label_add (config_in p.now) s.now.holder.element s.now.label) }
{
    match model_of(p, &s.holder, Status::NotSubscribe) {
        Ok(number) => add_label(p, s.holder.element, &s.label, number),
        Err(status) => refused(status),
    }
}

/// Model Subscription Virtual Address Add.
pub fn label_add(p: &Persist, s: &LabelSubscription) -> ConfigAct
    ensures { result ≡ label_act (config_in p.now) (label_add (config_in p.now)) s.now }
{
    subscription_act(&label_added(p, s), &s.holder, mesh_kdf::address(&s.label))
}

// Virtual Address Delete, of the model that is meant.
fn label_deleted(p: &Persist, s: &LabelSubscription) -> Outcome
    ensures { result
        ≡ on_model (model_of (config_in p.now) s.now.holder S.NotSubscribe)
        (label_delete (config_in p.now) s.now.holder.element s.now.label) }
{
    match model_of(p, &s.holder, Status::NotSubscribe) {
        Ok(number) => delete_label(p, s.holder.element, &s.label, number),
        Err(status) => refused(status),
    }
}

/// Model Subscription Virtual Address Delete.
pub fn label_delete(p: &Persist, s: &LabelSubscription) -> ConfigAct
    ensures { result ≡ label_act (config_in p.now) (label_delete (config_in p.now)) s.now }
{
    subscription_act(&label_deleted(p, s), &s.holder, mesh_kdf::address(&s.label))
}

// Virtual Address Overwrite, of the model that is meant.
fn label_overwritten(p: &Persist, s: &LabelSubscription) -> Outcome
    ensures { result
        ≡ on_model (model_of (config_in p.now) s.now.holder S.NotSubscribe)
        (label_overwrite (config_in p.now) s.now.holder.element s.now.label) }
{
    match model_of(p, &s.holder, Status::NotSubscribe) {
        Ok(number) => overwrite_label(p, s.holder.element, &s.label, number),
        Err(status) => refused(status),
    }
}

/// Model Subscription Virtual Address Overwrite.
pub fn label_overwrite(p: &Persist, s: &LabelSubscription) -> ConfigAct
    ensures { result ≡ label_act (config_in p.now) (label_overwrite (config_in p.now)) s.now }
{
    subscription_act(
        &label_overwritten(p, s),
        &s.holder,
        mesh_kdf::address(&s.label),
    )
}
