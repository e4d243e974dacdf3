//! Messages about the application keys of models (Mesh Profile 1.0.1, sections 4.3.2.46 to 4.3.2.48).
#![tactic(auto)]

ghost use Rattle.std.specs.Prelude.{◌≡◌};
ghost use Rattle.std.specs.List.{list_any};
ghost use Rattle.config_definitions.specs.Models.{app_bind, app_unbind, bind_act, bind_status, model_of, on_model};
ghost use Rattle.config_definitions.specs.declared.acts.Status.TheVariants as S;
ghost use Rattle.node_records.specs.Tables.{config_in};
ghost use Rattle.store_definitions.specs.Config.{is_bind};

use crate::models::model_of;
use crate::params::{acted, put_model, put_two, refused, status_octet, stored, unchanged};
use config_definitions::acts::{ConfigAct, Outcome, Status};
use config_definitions::messages::AppBinding;
use mesh_base::address::Address;
use mesh_base::octets::Octets;
use node_limits::BINDINGS;
use node_records::{Persist, StoreRecord};

// Whether a binding is this one.
fn is_bind(b: &(Address, u16, u16), element: Address, model: u16, app: u16) -> bool
    ensures { result ≡ is_bind element model app b.now }
{
    b.0.0 == element.0 && b.1 == model && b.2 == app
}

/// Whether a model is bound to an application key.
pub fn has_bind(p: &Persist, element: Address, model: u16, app: u16) -> bool
    ensures { result ≡ list_any (is_bind element model app) p.now.binds }
{
    p.binds
        .as_slice()
        .iter()
        .any(|b| is_bind(b, element, model, app))
}

// Model App Bind.
fn bind(p: &Persist, element: Address, app: u16, model: u16) -> Outcome
    ensures { result ≡ app_bind (config_in p.now) element app model }
{
    if !p.has_app(app) {
        refused(Status::InvalidAppKey)
    } else if has_bind(p, element, model, app) {
        unchanged()
    } else if p.binds.len() >= BINDINGS {
        refused(Status::InsufficientResources)
    } else {
        stored(StoreRecord::Bind {
            op: 1,
            element,
            model,
            app,
        })
    }
}

// Model App Unbind.
fn unbind(p: &Persist, element: Address, app: u16, model: u16) -> Outcome
    ensures { result ≡ app_unbind (config_in p.now) element app model }
{
    if !p.has_app(app) {
        refused(Status::InvalidAppKey)
    } else if has_bind(p, element, model, app) {
        stored(StoreRecord::Bind {
            op: 2,
            element,
            model,
            app,
        })
    } else {
        unchanged()
    }
}

// Model App Status.
fn bind_status(o: &Outcome, b: &AppBinding) -> ConfigAct
    ensures { result ≡ bind_status o.now b.now }
{
    let mut reply = Octets::new();
    reply.extend(&[0x80, 0x3e, status_octet(o.status)]);
    put_two(&mut reply, b.holder.element.0);
    put_two(&mut reply, b.app);
    put_model(&mut reply, b.holder.model);
    acted(o.change, reply)
}

// Model App Bind, of the model that is meant.
fn bound(p: &Persist, b: &AppBinding) -> Outcome
    ensures { result
        ≡ on_model (model_of (config_in p.now) b.now.holder S.CannotBind)
        (app_bind (config_in p.now) b.now.holder.element b.now.app) }
{
    match model_of(p, &b.holder, Status::CannotBind) {
        Ok(number) => bind(p, b.holder.element, b.app, number),
        Err(status) => refused(status),
    }
}

/// Model App Bind.
pub fn app_bind(p: &Persist, b: &AppBinding) -> ConfigAct
    ensures { result ≡ bind_act (config_in p.now) (app_bind (config_in p.now)) b.now }
{
    bind_status(&bound(p, b), b)
}

// Model App Unbind, of the model that is meant.
fn unbound(p: &Persist, b: &AppBinding) -> Outcome
    ensures { result
        ≡ on_model (model_of (config_in p.now) b.now.holder S.CannotBind)
        (app_unbind (config_in p.now) b.now.holder.element b.now.app) }
{
    match model_of(p, &b.holder, Status::CannotBind) {
        Ok(number) => unbind(p, b.holder.element, b.app, number),
        Err(status) => refused(status),
    }
}

/// Model App Unbind.
pub fn app_unbind(p: &Persist, b: &AppBinding) -> ConfigAct
    ensures { result ≡ bind_act (config_in p.now) (app_unbind (config_in p.now)) b.now }
{
    bind_status(&unbound(p, b), b)
}
