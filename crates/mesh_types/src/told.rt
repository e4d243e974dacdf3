//! What contracts alone see of a value that was there.
#![tactic(auto)]

ghost use Rattle.std.specs.Prelude.{◌≡◌};

use crate::events::{Event, Kind};
use std::marker::Model;
use std::snapshot::Snapshot;

/// What some value was at an earlier moment. A contract sees that value; nothing of it is kept when the program runs.
#[derive(Drop)]
pub struct Told<X> {
    value: Snapshot<X>,
}

impl<X> Model for Told<X> {
    ghost Value = { X };

    ghost view = { λ t. t.value.value };
}

impl<X> Told<X> {
    /// What this value is now.
    pub fn of(value: &X) -> Told<X>
        ensures value { result ≡ value.now }
    {
        Told {
            value: Snapshot::of(value),
        }
    }
}

/// An event that was told. A contract sees the event; its kind alone is kept when the program runs.
#[derive(Drop)]
pub struct ToldEvent {
    kind: Kind,
    event: Snapshot<Event>,
}

impl Model for ToldEvent {
    ghost use Rattle.std.specs.Prelude.{◌≡◌};
    ghost use Rattle.mesh_types.specs.Kind.{kind_of};
    ghost use Rattle.mesh_types.specs.declared.events.Event.{Event};

    ghost Value = { Event };

    ghost view = { λ t. t.event.value };

    ghost invariant = { λ t. t.kind ≡ kind_of t.event.value };
}

impl ToldEvent {
    ghost use Rattle.mesh_types.specs.Kind.{kind_of};

    /// What this event is.
    pub fn of(event: &Event) -> ToldEvent
        ensures value { result ≡ event.now }
    {
        ToldEvent {
            kind: event.kind(),
            event: Snapshot::of(event),
        }
    }

    /// The kind of the event.
    pub fn kind(&self) -> Kind
        ensures value { result ≡ kind_of self.now }
    {
        self.kind
    }
}
