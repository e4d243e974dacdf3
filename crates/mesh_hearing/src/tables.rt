//! The tables of a node in memory, and the keys that are derived from its store.
#![tactic(auto)]

ghost use Rattle.std.specs.Prelude.{◌≡◌, ◌≤◌, ◌^◌, List, [], IfOk};
ghost use Rattle.mesh_hearing.specs.Tables.{AreTablesOf, IsFit};
ghost use Rattle.mesh_reading.specs.Held.{held_in, AreHeldKeys};
ghost use Rattle.node_records.specs.Tables.{config_in};
ghost use Rattle.event_definitions.specs.History.{Told};

use mesh_base::pair::Name;
use mesh_reading::Keys;
use node_records::Persist;
use relay_cache::Cache;
use segment_reassembly::Parts;
use segment_sender::Senders;
use std::alloc::{AllocError, Global};
use std::marker::Model;

/// The tables of a node in a life: the keys that it holds, its message cache, the messages in progress, of the names that it accepted from
/// segments in this life the newest of each source, its own segmented messages that are held, and the ticks of 10 ms so far, at most 2^48. A
/// clause sees these six.
#[derive(Drop)]
pub struct Tables {
    pub(crate) keys: Keys,
    pub(crate) cache: Cache,
    pub(crate) parts: Parts,
    pub(crate) again: Vec<Name>,
    pub(crate) own: Senders,
    pub(crate) ticks: u64,
}

impl Model for Tables {
    ghost use Rattle.std.specs.Prelude.{◌≤◌, ◌^◌};
    ghost use Rattle.mesh_hearing.specs.Tables.{TablesView};

    ghost Value = { TablesView };

    ghost view = { λ t. record {
      keys = t.keys;
      cache = t.cache;
      parts = t.parts;
      again = t.again.items;
      own = t.own;
      ticks = t.ticks;
    } };

    ghost invariant = { λ t. t.ticks ≤ 2 ^ 48 };
}

impl Tables {
    /// The tables of a life that begins over a store of this value. They take their memory from `alloc`; the error is for want of memory.
    pub fn new(alloc: Global, p: &Persist) -> Result<Tables, AllocError>
        requires { AreHeldKeys (config_in p.now) }
        ensures value { IfOk result
            (λ t. t
            ≡ record { keys = held_in (config_in p.now); cache = []; parts = []; again = []; own = []; ticks = 0 }) }
        ensures fit { IfOk result (λ t. IsFit t p.now) }
        ensures tables { IfOk result (λ t. AreTablesOf t []) }
    {
        let cache = Cache::new(alloc)?;
        Ok(Tables {
            keys: Keys::derive(p),
            cache,
            parts: Parts::new(),
            again: Vec::new(alloc),
            own: Senders::new(),
            ticks: 0,
        })
    }

    /// Derives the keys anew, from a store of this value: after a record that changes keys or labels.
    pub fn renew_keys(&mut self, p: &Persist)
        requires { AreHeldKeys (config_in p.now) }
        ensures value { self.new ≡ record self.old { keys = held_in (config_in p.now) } }
        ensures fit { IsFit self.new p.now }
        ensures tables { (told : List Told) → AreTablesOf self.old told → AreTablesOf self.new told }
    {
        self.keys.renew(p);
    }

    /// The keys that the node holds.
    pub fn keys(&self) -> &Keys
        ensures value { result.now ≡ self.now.keys }
    {
        &self.keys
    }

    /// The ticks of 10 ms of this life so far, at most 2^48.
    pub fn ticks(&self) -> u64
        ensures value { result ≡ self.now.ticks }
        ensures most { result ≤ 2 ^ 48 }
    {
        self.ticks
    }
}
