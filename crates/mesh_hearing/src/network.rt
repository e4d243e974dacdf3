//! The answers of the network layer (Mesh Profile 1.0.1, section 3.4.6.3).
#![tactic(auto)]

ghost use Rattle.std.specs.Prelude.{◌≡◌, ◌&&◌, ◌==◌, ℕ, true, IfOk, IfSome, OnErr};
ghost use Rattle.std.specs.List.{list_any};
ghost use Rattle.layer_states.specs.Cache.{last_of};
ghost use Rattle.mesh_base.specs.declared.address.Address.{Address};
ghost use Rattle.mesh_hearing.specs.Below.{cache_after_row, own_address};
ghost use Rattle.message_answers.specs.Kinds.{is_early};
ghost use Rattle.node_layers.specs.Steps.{cached_names};
ghost use Rattle.mesh_reading.specs.Held.{held_in, reading_of};
ghost use Rattle.node_records.specs.Tables.{config_in};
ghost use Rattle.event_definitions.specs.Answers.{is_mine, network_answer};
ghost use Rattle.event_definitions.specs.History.{Past};
ghost use Rattle.store_definitions.specs.Config.{config_of};
ghost use Rattle.mesh_base.specs.Address.{is_group};

use mesh_base::address::Address;
use mesh_base::pair::Pair;
use mesh_reading::{Keys, NetReading};
use mesh_types::answers::Answer;
use message_answers::sender_row;
use node_limits::MESSAGE_CACHE;
use node_records::Persist;
use relay_cache::Cache;
use std::alloc::AllocError;

// Whether a model subscribes to this group.
fn is_subscribed(rows: &[(Address, u16, Address)], a: Address) -> bool
    ensures { result ≡ list_any (λ (s : Address × ℕ × Address). is_group s.2 && s.2.0 == a.0) rows.now }
{
    rows.iter().any(|s| s.2.is_group() && s.2.0 == a.0)
}

// Whether an address is that of an element, one that all nodes, all friends or all relays have, or a group subscribed to.
fn is_own(p: &Persist, a: Address) -> bool
    ensures { result ≡ own_address (config_in p.now) a }
{
    p.is_element(a)
        || a.0 == 0xffff
        || (a.0 == 0xfffd && p.is_friend())
        || (a.0 == 0xfffe && p.relays())
        || is_subscribed(p.subs.as_slice(), a)
}

// Whether an address is one of this node's.
fn is_mine(keys: &Keys, p: &Persist, a: Address) -> bool
    requires { keys.now ≡ held_in (config_in p.now) }
    ensures { result ≡ is_mine (config_in p.now) a }
{
    is_own(p, a) || keys.is_labelled(a)
}

/// The answer of the network layer to a PDU that reads, if it has one. The message cache has a PDU that isn't from this node's own elements.
pub(crate) fn network_row(
    keys: &Keys,
    p: &Persist,
    cache: &mut Cache,
    r: &NetReading,
) -> Result<Option<Answer>, AllocError>
    requires { keys.now ≡ held_in (config_in p.now) }
    ensures value { (past : Past) → config_in p.now ≡ config_of past.records
        → cache.old ≡ last_of MESSAGE_CACHE (cached_names past.told)
        → IfOk result (λ row. row ≡ network_answer past (reading_of r.now)) }
    ensures early { IfOk result (λ row. IfSome row (λ a. is_early a ≡ true)) }
    ensures state { IfOk result (λ row. cache.new ≡ cache_after_row cache.old r.now.fields row) }
    ensures unchanged { OnErr result (cache.new ≡ cache.old) }
{
    let f = &r.fields;
    match sender_row(p, f) {
        Some(answer) => return Ok(Some(answer)),
        None => {}
    }
    let pair = Pair {
        iv: f.iv,
        seq: f.seq,
    };
    if !cache.first(f.src, pair)? {
        return Ok(Some(Answer::Cached));
    }
    if is_mine(keys, p, f.dst) {
        Ok(None)
    } else {
        Ok(Some(Answer::NotMine))
    }
}
