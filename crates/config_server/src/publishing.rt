//! Messages about publications (Mesh Profile 1.0.1, sections 4.3.2.15 to 4.3.2.18).
#![tactic(auto)]

ghost use Rattle.std.specs.Prelude.{◌≡◌, ◌≤◌, ◌==◌, ◌&&◌, not, length, filter};
ghost use Rattle.std.specs.List.{list_any, find};
ghost use Rattle.config_definitions.specs.Publishing.{is_model_row, is_same_row, no_row, publication_act, publication_set, publication_shown, row_asked, row_of, row_set};
ghost use Rattle.config_definitions.specs.Models.{model_of, on_model};
ghost use Rattle.config_definitions.specs.declared.acts.Status.TheVariants as S;
ghost use Rattle.node_records.specs.Tables.{config_in};

use crate::bindings::has_bind;
use crate::models::model_of;
use crate::params::{acted, put_model, put_two, refused, status_octet, stored, unchanged};
use config_definitions::acts::{ConfigAct, Outcome, Status};
use config_definitions::messages::{ElementModel, PublicationValue};
use mesh_base::address::Address;
use mesh_base::octets::Octets;
use node_limits::PUBLICATIONS;
use node_records::{Persist, PublishRow, StoreRecord};

// Whether a row is of this model.
fn is_model_row(element: Address, model: u16, row: &PublishRow) -> bool
    ensures { result ≡ is_model_row element model row.now }
{
    row.element.0 == element.0 && row.model == model
}

// Whether two rows say the same.
fn is_same_row(a: &PublishRow, b: &PublishRow) -> bool
    ensures { result ≡ is_same_row a.now b.now }
{
    is_model_row(a.element, a.model, b)
        && a.address.0 == b.address.0
        && a.app == b.app
        && a.ttl == b.ttl
        && a.period == b.period
        && a.retransmit == b.retransmit
}

// How many models but this one publish.
fn count_of_others(p: &Persist, row: &PublishRow) -> usize
    ensures { result ≡ length (filter (λ r. not (is_model_row row.now.element row.now.model r)) p.now.publications) }
{
    p.publications
        .as_slice()
        .iter()
        .filter(|other| !is_model_row(row.element, row.model, other))
        .count()
}

// Whether this row is held.
fn has_row(p: &Persist, row: &PublishRow) -> bool
    ensures { result ≡ list_any (is_same_row row.now) p.now.publications }
{
    p.publications
        .as_slice()
        .iter()
        .any(|other| is_same_row(row, other))
}

// Publication Set of a model that there is.
fn set_row(p: &Persist, row: &PublishRow) -> Outcome
    ensures { result ≡ row_set (config_in p.now) row.now }
{
    let publishes = row.address.0 != 0;
    if row.address.is_virtual() {
        refused(Status::InvalidAddress)
    } else if publishes && !p.has_app(row.app) {
        refused(Status::InvalidAppKey)
    } else if publishes && !has_bind(p, row.element, row.model, row.app) {
        refused(Status::InvalidPublish)
    } else if count_of_others(p, row) >= PUBLICATIONS {
        refused(Status::InsufficientResources)
    } else if has_row(p, row) {
        unchanged()
    } else {
        stored(StoreRecord::Publish { row: *row })
    }
}

// No publication.
fn no_row(element: Address, model: u16) -> PublishRow
    ensures { result ≡ no_row element model }
{
    PublishRow {
        element,
        model,
        address: Address(0),
        app: 0,
        ttl: 0,
        period: 0,
        retransmit: 0,
    }
}

// The row of a model.
fn row_among(rows: &[PublishRow], element: Address, model: u16) -> Option<PublishRow>
    ensures { result ≡ find (is_model_row element model) rows.now }
{
    for row in rows {
        if is_model_row(element, model, row) {
            return Some(*row);
        }
    }
    None
}

// What a model publishes.
fn row_of(p: &Persist, element: Address, model: u16) -> PublishRow
    ensures { result ≡ row_of (config_in p.now) element model }
{
    match row_among(p.publications.as_slice(), element, model) {
        Some(row) => row,
        None => no_row(element, model),
    }
}

// Model Publication Status.
fn publication_act(o: &Outcome, holder: &ElementModel, row: &PublishRow) -> ConfigAct
    ensures { result ≡ publication_act o.now holder.now row.now }
{
    let mut reply = Octets::new();
    reply.extend(&[0x80, 0x19, status_octet(o.status)]);
    put_two(&mut reply, holder.element.0);
    put_two(&mut reply, row.address.0);
    put_two(&mut reply, row.app);
    reply.extend(&[row.ttl, row.period, row.retransmit]);
    put_model(&mut reply, holder.model);
    acted(o.change, reply)
}

/// Model Publication Get.
pub fn publication_shown(p: &Persist, holder: &ElementModel) -> ConfigAct
    ensures { result ≡ publication_shown (config_in p.now) holder.now }
{
    match model_of(p, holder, Status::InvalidPublish) {
        Ok(number) => publication_act(&unchanged(), holder, &row_of(p, holder.element, number)),
        Err(status) => publication_act(&refused(status), holder, &no_row(holder.element, 0)),
    }
}

// The row that a Publication Set asks for, of the model of this number.
fn row_asked(v: &PublicationValue, model: u16) -> PublishRow
    ensures { result ≡ row_asked v.now model }
{
    PublishRow {
        element: v.holder.element,
        model,
        address: v.address,
        app: v.app,
        ttl: v.ttl,
        period: v.period,
        retransmit: v.retransmit,
    }
}

// Publication Set, of the model that is meant.
fn published(p: &Persist, v: &PublicationValue) -> Outcome
    ensures { result
        ≡ on_model (model_of (config_in p.now) v.now.holder S.InvalidPublish)
        (λ n. row_set (config_in p.now) (row_asked v.now n)) }
{
    match model_of(p, &v.holder, Status::InvalidPublish) {
        Ok(number) => set_row(p, &row_asked(v, number)),
        Err(status) => refused(status),
    }
}

/// Model Publication Set.
pub fn publication_set(p: &Persist, v: &PublicationValue) -> ConfigAct
    ensures { result ≡ publication_set (config_in p.now) v.now }
{
    publication_act(&published(p, v), &v.holder, &row_asked(v, 0))
}
