//! The cache.
#![tactic(auto)]

ghost use Rattle.std.specs.Prelude.{◌≡◌, [], not, IfOk, OnOk, OnErr};
ghost use Rattle.layer_states.specs.Cache.{after_heard, is_cached};

use lru::LruCache;
use mesh_base::address::Address;
use mesh_base::pair::{Name, Pair};
use node_limits::MESSAGE_CACHE;
use std::alloc::{AllocError, Global};
use std::marker::Model;
use std::num::NonZeroUsize;

/// The names of the last `MESSAGE_CACHE` network PDUs that weren't in the cache when they were heard. A clause sees it as the list
/// of them, the oldest first.
#[derive(Drop)]
pub struct Cache {
    names: LruCache<Name, ()>,
}

impl Model for Cache {
    ghost use Rattle.std.specs.Prelude.{◌≡◌, ◌≤◌, List, length};
    ghost use Rattle.mesh_base.specs.declared.pair.Name.{Name};
    ghost use Rattle.relay_cache.specs.Kept.{names_of};
    ghost use Rattle.node_limits.specs.declared.TheConstants.{MESSAGE_CACHE};

    ghost Value = { List Name };

    ghost view = { λ c. names_of c.names };

    ghost invariant = { λ c. (c.names.cap ≡ MESSAGE_CACHE) × (length c.names.entries ≤ MESSAGE_CACHE) };
}

impl Cache {
    /// No names. It takes its memory from `alloc`; the error is for want of memory.
    pub fn new(alloc: Global) -> Result<Cache, AllocError>
        ensures value { IfOk result (λ c. c ≡ []) }
    {
        let size = NonZeroUsize::new(MESSAGE_CACHE).unwrap();
        let names = LruCache::new(alloc, size)?;
        Ok(Cache { names })
    }

    /// Whether the cache doesn't hold the PDU of this SRC and this pair; then it is remembered, in place of the oldest
    /// where so many are held. One that it holds stays in its place. The error is for want of memory, and then the cache
    /// is as before.
    pub fn first(&mut self, src: Address, pair: Pair) -> Result<bool, AllocError>
        ensures value { IfOk result (λ first. first ≡ not (is_cached self.old (record { src = src; pair = pair }))) }
        ensures state { OnOk result (self.new ≡ after_heard self.old (record { src = src; pair = pair })) }
        ensures unchanged { OnErr result (self.new ≡ self.old) }
    {
        let name = Name { src, pair };
        if self.names.contains(&name) {
            return Ok(false);
        }
        match self.names.put(name, ()) {
            Ok(_) => {}
            Err(_) => return Err(AllocError),
        }
        Ok(true)
    }
}
