//! The line of a job, by its kind.
#![tactic(auto)]

ghost use Rattle.std.specs.Prelude.{◌≡◌, ℕ, ◌^◌, ◌<◌, ◌≤◌, [], ◌∷◌, length, true, false, Some, None, IfSome};
ghost use Rattle.std.specs.Option.{option_to_list};
ghost use Rattle.layer_definitions.specs.Network.{HasPdu, net_text};
ghost use Rattle.mesh_types.specs.declared.events.Event.{Event};
ghost use Rattle.mesh_types.specs.declared.lines.Outcome.TheVariants as O;
ghost use Rattle.run_definitions.specs.Lines.{Shows, after_line, drawn_of, is_drawing, is_first, kept_events};
ghost use Rattle.run_definitions.specs.Order.{is_outside};
ghost use Rattle.run_definitions.specs.Seals.{own_fields};
ghost use Rattle.machine_contract.specs.Ranges.{IsEvent, IsJob};
ghost use Rattle.job_sealing.specs.Sealed.{IsAccess, IsMessageJob, IsPayloadOf, IsSentJob, IsSentLine, access_in};

use crate::kept::KeptSeals;
use crate::messages::{Access, UNSEGMENTED, long_line, short_line};
use crate::segments::{later_segment, segment_line};
use mesh_base::address::Address;
use mesh_base::fields::{NetFields, NetMaterial};
use mesh_base::octets::Octets;
use mesh_base::pair::{Name, Pair};
use mesh_types::events::Event;
use mesh_types::jobs::Job;
use mesh_types::lines::Outcome;

/// What became of a job, and the event that follows.
#[derive(Drop)]
pub struct Line {
    /// What became of it.
    pub outcome: Outcome,
    /// The node's own event that is to be handled next.
    pub next: Option<Event>,
}

/// Whether a job draws a pair: each that seals with a number of its own, but the first segment of a message, which goes under SeqAuth.
pub fn draws(job: &Job) -> bool
    ensures value { result ≡ is_drawing job.now }
{
    match job {
        Job::Control { .. } | Job::Message { .. } | Job::Sent { .. } => true,
        Job::Segment(segment) => !segment.first,
        Job::Relay { .. } | Job::Repeat { .. } | Job::Beacon(_) => false,
    }
}

/// The line of a job of this event that draws no pair.
pub fn plain_line(kept: &mut KeptSeals, event: &Event, job: &Job) -> Outcome
    requires job { IsJob event.now job.now }
    requires plain { is_drawing job.now ≡ false }
    ensures shows { Shows event.now job.now result }
    ensures drawn { drawn_of job.now result ≡ None }
    ensures next { after_line job.now result ≡ [] }
{
    match job {
        Job::Relay { material, fields } => relayed(kept, material, fields),
        Job::Segment(segment) => segment_line(kept, segment, segment.name.pair),
        Job::Repeat { name, pdu } => Outcome::Rep {
            name: *name,
            pdu: pdu.copied(),
        },
        Job::Beacon(octets) => Outcome::Bcn(*octets),
        Job::Control { .. } | Job::Message { .. } | Job::Sent { .. } => unreachable!(),
    }
}

/// The line of a job of this event that draws, with the pair drawn for it.
pub fn drawn_line(kept: &mut KeptSeals, event: &Event, job: &Job, pair: Pair) -> Line
    requires job { IsJob event.now job.now }
    requires draws { is_drawing job.now ≡ true }
    requires pair { pair.seq < 2 ^ 24 }
    ensures shows { Shows event.now job.now result.outcome }
    ensures drawn { drawn_of job.now result.outcome ≡ Some pair }
    ensures next { option_to_list result.next ≡ after_line job.now result.outcome }
    ensures own { IfSome result.next (λ e. is_outside e ≡ false) }
    ensures range { (elements : ℕ) → IfSome result.next (IsEvent elements) }
{
    match job {
        Job::Control {
            material,
            ttl,
            src,
            dst,
            tpdu,
            keep,
        } => {
            let control = ControlPdu {
                material,
                pair,
                ttl: *ttl,
                src: *src,
                dst: *dst,
                tpdu,
            };
            control_line(kept, &control, keep)
        }
        Job::Message { .. } => message_line(kept, job, pair),
        Job::Sent { .. } => send_line(kept, event, job, pair),
        Job::Segment(segment) => Line {
            outcome: later_segment(kept, segment, pair),
            next: None,
        },
        Job::Relay { .. } | Job::Repeat { .. } | Job::Beacon(_) => unreachable!(),
    }
}

/// The access message of a job that has one, with the pair drawn for it.
fn access_of(job: &Job, pair: Pair) -> Option<Access>
    ensures { result ≡ access_in job.now pair }
{
    match job {
        Job::Message {
            net,
            material,
            key,
            ttl,
            src,
            dst,
            ..
        }
        | Job::Sent {
            net,
            material,
            key,
            ttl,
            src,
            dst,
        } => Some(Access {
            net: *net,
            material: *material,
            key: *key,
            pair,
            ttl: *ttl,
            src: *src,
            dst: *dst,
        }),
        _ => None,
    }
}

/// The line of a message that has its payload, with the pair drawn for it.
fn message_line(kept: &mut KeptSeals, job: &Job, pair: Pair) -> Line
    requires message { IsMessageJob job.now }
    requires pair { pair.seq < 2 ^ 24 }
    ensures shows { (event : Event) → Shows event job.now result.outcome }
    ensures drawn { drawn_of job.now result.outcome ≡ Some pair }
    ensures next { option_to_list result.next ≡ after_line job.now result.outcome }
    ensures own { IfSome result.next (λ e. is_outside e ≡ false) }
    ensures range { (elements : ℕ) → IfSome result.next (IsEvent elements) }
{
    let Job::Message { payload, keep, .. } = job else {
        unreachable!()
    };
    let Some(access) = access_of(job, pair) else {
        unreachable!()
    };
    if payload.as_slice().len() <= UNSEGMENTED {
        short_line(kept, &access, payload.as_slice(), keep)
    } else {
        long_line(kept, &access, payload.as_slice())
    }
}

/// The line of a message whose payload is that of this event, with the pair drawn for it.
fn send_line(kept: &mut KeptSeals, event: &Event, job: &Job, pair: Pair) -> Line
    requires sent { IsSentJob event.now job.now }
    requires pair { pair.seq < 2 ^ 24 }
    ensures shows { Shows event.now job.now result.outcome }
    ensures drawn { drawn_of job.now result.outcome ≡ Some pair }
    ensures next { option_to_list result.next ≡ after_line job.now result.outcome }
    ensures own { IfSome result.next (λ e. is_outside e ≡ false) }
    ensures range { (elements : ℕ) → IfSome result.next (IsEvent elements) }
{
    let Some(access) = access_of(job, pair) else {
        unreachable!()
    };
    sent_line(kept, event, &access)
}

/// The line of a message whose payload is that of its event, a Send.
fn sent_line(kept: &mut KeptSeals, event: &Event, access: &Access) -> Line
    requires access { IsAccess access.now }
    requires payload { IsPayloadOf event.now }
    ensures sent { IsSentLine event.now access.now result.outcome result.next }
    ensures own { IfSome result.next (λ e. is_outside e ≡ false) }
    ensures range { (elements : ℕ) → IfSome result.next (IsEvent elements) }
{
    let Event::Send { payload, .. } = event else {
        unreachable!()
    };
    if payload.as_slice().len() <= UNSEGMENTED {
        short_line(kept, access, payload.as_slice(), &None)
    } else {
        long_line(kept, access, payload.as_slice())
    }
}

/// A PDU of another node goes on.
fn relayed(kept: &mut KeptSeals, material: &NetMaterial, fields: &NetFields) -> Outcome
    requires nid { material.now.nid < 2 ^ 7 }
    requires fields { HasPdu fields.now }
    ensures value { result
        ≡ O.Relay
        (record { iv = fields.now.iv; seq = fields.now.seq }) fields.now.ctl fields.now.ttl fields.now.src
        fields.now.dst fields.now.tpdu (net_text material.now fields.now) }
{
    Outcome::Relay {
        pair: Pair {
            iv: fields.iv,
            seq: fields.seq,
        },
        ctl: fields.ctl,
        ttl: fields.ttl,
        src: fields.src,
        dst: fields.dst,
        tpdu: fields.tpdu.copied(),
        pdu: kept.seal(material, fields),
    }
}

/// A control PDU of this node, with the pair drawn for it.
#[derive(Drop)]
struct ControlPdu<'a> {
    /// The credentials that it goes under.
    material: &'a NetMaterial,
    /// Its IV Index and SEQ.
    pair: Pair,
    /// TTL, 7 bits.
    ttl: u8,
    /// SRC.
    src: Address,
    /// DST.
    dst: Address,
    /// The lower transport PDU, 1 to 12 octets.
    tpdu: &'a Octets<16>,
}

/// The line of a control PDU; where it answers a Poll, its octets are kept.
fn control_line(kept: &mut KeptSeals, c: &ControlPdu<'_>, keep: &Option<(Address, bool)>) -> Line
    requires nid { c.now.material.now.nid < 2 ^ 7 }
    requires ttl { c.now.ttl < 2 ^ 7 }
    requires least { 1 ≤ length c.now.tpdu.now }
    requires most { length c.now.tpdu.now ≤ 12 }
    requires pair { c.now.pair.seq < 2 ^ 24 }
    ensures value { result.outcome
        ≡ O.Ctl c.now.pair c.now.ttl c.now.src c.now.dst c.now.tpdu.now
        (net_text c.now.material.now (own_fields c.now.pair true c.now.ttl c.now.src c.now.dst c.now.tpdu.now)) }
    ensures next { option_to_list result.next
        ≡ kept_events keep.now c.now.src c.now.pair
        (net_text c.now.material.now (own_fields c.now.pair true c.now.ttl c.now.src c.now.dst c.now.tpdu.now)) }
{
    let fields = NetFields {
        iv: c.pair.iv,
        ctl: true,
        ttl: c.ttl,
        seq: c.pair.seq,
        src: c.src,
        dst: c.dst,
        tpdu: c.tpdu.copied(),
    };
    let pdu = kept.seal(c.material, &fields);
    let name = Name {
        src: c.src,
        pair: c.pair,
    };
    Line {
        next: kept_event(keep, name, &pdu),
        outcome: Outcome::Ctl {
            pair: c.pair,
            ttl: c.ttl,
            src: c.src,
            dst: c.dst,
            tpdu: fields.tpdu,
            pdu,
        },
    }
}

/// The event that has the octets of an answer to a Poll kept.
pub fn kept_event(keep: &Option<(Address, bool)>, name: Name, pdu: &Octets<29>) -> Option<Event>
    ensures value { option_to_list result ≡ kept_events keep.now name.src name.pair pdu.now }
{
    let (lpn, fsn) = (*keep)?;
    Some(Event::Kept {
        lpn,
        fsn,
        name,
        pdu: pdu.copied(),
    })
}
