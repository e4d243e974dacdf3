//! What octets were read as.
#![tactic(auto)]

ghost use Rattle.std.specs.Prelude.{◌≡◌, Some, None};
ghost use Rattle.std.specs.Option.{option_map};
ghost use Rattle.early_reading.specs.Known.{early_of};
ghost use Rattle.early_reading.specs.Views.{read_before};

use crate::early::Early;
use crate::view::KeyView;
use mesh_base::octets::Octets;
use network_layer::NetReading;
use std::marker::Model;

/// Octets that a [`Reader`](crate::Reader) read, and what they read as, or nothing: until other octets are read, or until it is to forget them. By
/// which view they were read it doesn't keep, so it is the reading of a reader only as long as that has its view. A clause sees it as the octets
/// with what they read as, if any were read. It shows what was heard, so it isn't printed.
#[derive(Drop)]
pub struct Reading {
    octets: Octets<40>,
    reading: Option<NetReading>,
    is_read: bool,
}

impl Model for Reading {
    ghost use Rattle.std.specs.Prelude.{Option, Some, None, cond};
    ghost use Rattle.early_reading.specs.Views.{ReadOctets};

    ghost Value = { Option ReadOctets };

    ghost view = { λ r. cond r.is_read (Some (record { octets = r.octets; reading = r.reading })) None };
}

impl Reading {
    /// One that has read nothing.
    pub fn new() -> Reading
        ensures value { result ≡ None }
    {
        Reading {
            octets: Octets::new(),
            reading: None,
            is_read: false,
        }
    }

    /// Forgets what was read.
    pub fn forget(&mut self)
        ensures value { self.new ≡ None }
    {
        self.is_read = false;
    }

    // Keeps octets, and what they were read as.
    pub(crate) fn keep(&mut self, octets: &Octets<40>, reading: Option<NetReading>)
        ensures value { self.new ≡ Some (record { octets = octets.now; reading = reading }) }
    {
        self.octets = octets.copied();
        self.reading = reading;
        self.is_read = true;
    }

    // What was read, if anything was, beside a view.
    pub(crate) fn with<'a>(&'a self, view: &'a KeyView) -> Option<Early<'a>>
        ensures value { option_map early_of result ≡ read_before (Some view.now) self.now }
    {
        if !self.is_read {
            return None;
        }
        Some(Early {
            view,
            octets: &self.octets,
            reading: &self.reading,
        })
    }
}
