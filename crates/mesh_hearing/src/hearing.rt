//! A network PDU heard: from its octets to the answer, and what the tables become.
#![tactic(auto)]

ghost use Rattle.std.specs.Prelude.{◌≡◌, ℕ, ◌≤◌, ◌<◌, ◌^◌, ◌++◌, true, IsFalse, Some, fold, IfOk, IfSome, OnErr, vec_len, vec_capacity};
ghost use Rattle.std.specs.Option.{option_map};
ghost use Rattle.early_reading.specs.Known.{IsKnown};
ghost use Rattle.early_reading.specs.Views.{view_of};
ghost use Rattle.layer_states.specs.Cache.{last_of};
ghost use Rattle.layer_states.specs.Reassembly.{after};
ghost use Rattle.mesh_hearing.specs.Again.{AreRecorded};
ghost use Rattle.mesh_hearing.specs.Below.{IsReadAs, IsTransportAs, StandsBelow, heard_calls};
ghost use Rattle.mesh_hearing.specs.Heard.{IsHeard, delivered_from, insight_of, message_delivered};
ghost use Rattle.message_answers.specs.Kinds.{is_late};
ghost use Rattle.mesh_hearing.specs.Tables.{cache_after, AreTablesOf, IsFit};
ghost use Rattle.mesh_reading.specs.Held.{held_in, opened_in, reading_in, reading_of};
ghost use Rattle.node_layers.specs.Friendship.{friend_keys};
ghost use Rattle.node_layers.specs.Reassembly.{message_calls, tick_calls};
ghost use Rattle.node_layers.specs.Sending.{own_calls};
ghost use Rattle.node_layers.specs.Steps.{cached_names};
ghost use Rattle.node_records.specs.Meaning.{IsMeaningOf};
ghost use Rattle.node_records.specs.Tables.{config_in};
ghost use Rattle.mesh_types.specs.declared.events.Event.{Event};
ghost use Rattle.event_definitions.specs.Answers.{cached_name, is_before_cache};
ghost use Rattle.event_definitions.specs.History.{Past, ticks_after};

use crate::again::put_reserved;
use crate::lower::{Before, accepted_part, hear_low};
use crate::network::network_row;
use crate::own::acknowledge;
use crate::tables::Tables;
use early_reading::{Known, read_unless};
use mesh_base::address::Address;
use mesh_base::fields::Heard;
use mesh_base::pair::Name;
use mesh_reading::{HeardPdu, NetReading, Opened};
use mesh_types::answers::Answer;
use node_limits::MESSAGE_CACHE;
use node_records::Persist;
use relay_cache::Cache;
use segment_reassembly::Parts;
use std::alloc::AllocError;

/// What octets heard as a network PDU were read as, and the answer.
#[derive(Drop)]
pub struct Hearing {
    /// How far the octets were read.
    pub pdu: HeardPdu,
    /// The answer.
    pub answer: Answer,
}

/// An access message that was delivered.
#[derive(Drop)]
pub struct Delivered<'a> {
    /// Its name.
    pub name: Name,
    /// DST.
    pub dst: Address,
    /// The network PDU that completed it.
    pub reading: &'a NetReading,
    /// What it opened to.
    pub opened: &'a Opened,
}

impl Hearing {
    /// The access message that was delivered, if there is one.
    pub fn delivered(&self) -> Option<Delivered<'_>>
        ensures value { option_map message_delivered result ≡ delivered_from (insight_of self.now) self.now.answer }
        ensures opened { IfSome result (λ d. opened_in self.now.pdu ≡ Some d.opened.now) }
    {
        let HeardPdu::Opened {
            reading,
            opened,
            ..
        } = &self.pdu
        else {
            return None;
        };
        let Answer::Delivered { name, dst, .. } = &self.answer else {
            return None;
        };
        Some(Delivered {
            name: *name,
            dst: *dst,
            reading,
            opened,
        })
    }
}

// From the lower transport layer on.
fn hear_transport(before: &Before<'_>, parts: &mut Parts, reading: NetReading) -> Hearing
    requires fit { before.now.keys.now ≡ held_in (config_in before.now.p.now) }
    requires time { before.now.ticks ≤ 2 ^ 48 }
    ensures value { (past : Past) → StandsBelow past before.now.p.now parts.old before.now.again.now before.now.ticks
        → IsTransportAs past (reading_of reading) result }
    ensures reading { reading_in result.pdu ≡ Some reading }
    ensures late { is_late result.answer ≡ true }
    ensures parts { parts.new
        ≡ fold after parts.old
        (message_calls before.now.ticks (config_in before.now.p.now) (insight_of result) result.answer) }
{
    match lower_transport::read(reading.fields.ctl, reading.fields.tpdu.as_slice()) {
        Ok(low) => {
            let judged = hear_low(before, parts, &reading, &low);
            Hearing {
                pdu: HeardPdu::lower(reading, low, judged.opened),
                answer: judged.answer,
            }
        }
        Err(_) => Hearing {
            pdu: HeardPdu::Network(reading),
            answer: Answer::Malformed,
        },
    }
}

// What is heard of octets, and what becomes of the message cache and of the messages in progress.
fn hear_octets(
    before: &Before<'_>,
    cache: &mut Cache,
    parts: &mut Parts,
    known: Known<'_>,
    more: &[Heard],
    octets: &[u8],
) -> Result<Hearing, AllocError>
    requires fit { before.now.keys.now ≡ held_in (config_in before.now.p.now) }
    requires known { IsKnown (view_of before.now.keys.now.nets more.now before.now.p.now.iv.current) octets.now known }
    requires time { before.now.ticks ≤ 2 ^ 48 }
    ensures heard { (past : Past) → IsFalse before.now.p.now.reset
        → cache.old ≡ last_of MESSAGE_CACHE (cached_names past.told)
        → StandsBelow past before.now.p.now parts.old before.now.again.now before.now.ticks
        → more.now ≡ friend_keys past
        → IfOk result (IsReadAs past octets.now) }
    ensures cache { IfOk result
        (λ h. cache.new ≡ cache_after cache.old (cached_name (insight_of h) (is_before_cache h.answer))) }
    ensures parts { IfOk result
        (λ h. parts.new
        ≡ fold after parts.old
        (message_calls before.now.ticks (config_in before.now.p.now) (insight_of h) h.answer ++ tick_calls h.answer)) }
    ensures own { IfOk result (λ h. (at : ℕ) (event : Event) → own_calls at event h.answer ≡ heard_calls h.answer) }
    ensures time { IfOk result (λ h. ticks_after before.now.ticks h.answer ≡ before.now.ticks) }
    ensures unchanged { OnErr result ((cache.new ≡ cache.old) × (parts.new ≡ parts.old)) }
{
    let p = before.p;
    let Some(reading) = read_unless(before.keys, known, more, p.iv.current, octets) else {
        return Ok(Hearing {
            pdu: HeardPdu::Unread,
            answer: Answer::Unread,
        });
    };
    match network_row(before.keys, p, cache, &reading)? {
        Some(answer) => Ok(Hearing {
            pdu: HeardPdu::Network(reading),
            answer,
        }),
        None => Ok(hear_transport(before, parts, reading)),
    }
}

impl Tables {
    /// What a node with a store of this value answers to octets heard as a network PDU, and what its tables become. They are read under the
    /// network keys and behind them under `more`, the credentials of the friendships and offers before the event; what is known of that reading
    /// is used. The error is for want of memory, and then nothing changes.
    pub fn hear(
        &mut self,
        p: &Persist,
        known: Known<'_>,
        more: &[Heard],
        octets: &[u8],
    ) -> Result<Hearing, AllocError>
        requires fit { IsFit self.old p.now }
        requires known { IsKnown (view_of self.old.keys.nets more.now p.now.iv.current) octets.now known }
        ensures heard { (past : Past) → IsMeaningOf past.records p.now → AreTablesOf self.old past.told
            → AreRecorded past → more.now ≡ friend_keys past
            → IfOk result (λ h. IsHeard past octets.now h self.new) }
        ensures fit { IsFit self.new p.now }
        ensures unchanged { OnErr result (self.new ≡ self.old) }
    {
        if p.reset {
            return Ok(Hearing {
                pdu: HeardPdu::Reset,
                answer: Answer::Reset,
            });
        }
        self.again.reserve(1)?;
        let before = Before {
            keys: &self.keys,
            p,
            again: self.again.as_slice(),
            ticks: self.ticks,
        };
        let hearing = hear_octets(
            &before,
            &mut self.cache,
            &mut self.parts,
            known,
            more,
            octets,
        )?;
        put_reserved(&mut self.again, accepted_part(&hearing));
        acknowledge(&mut self.own, &hearing.answer);
        Ok(hearing)
    }
}
