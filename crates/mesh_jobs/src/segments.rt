//! The segments of an own message (Mesh Profile 1.0.1, section 3.5.3.2).
#![tactic(auto)]

ghost use Rattle.std.specs.Prelude.{◌≡◌, ℕ, ◌+◌, ◌*◌, ◌≤◌, ◌++◌, ◌==◌, Bool, All, length};
ghost use Rattle.std.specs.List.{flat_map};
ghost use Rattle.layer_definitions.specs.Lower.{last_segment as last_segment_in, segment as segment_in};
ghost use Rattle.layer_states.specs.Sending.{round_of};
ghost use Rattle.mesh_base.specs.declared.fields.NetMaterial.{NetMaterial};
ghost use Rattle.mesh_jobs.specs.Segments.{segments_under};
ghost use Rattle.node_layers.specs.Sending.{round_jobs};
ghost use Rattle.node_records.specs.Tables.{config_in};
ghost use Rattle.event_definitions.specs.Jobs.{begin_jobs, segment_job};
ghost use Rattle.segment_sender.specs.Held.{IsHeldWell, IsOutgoing};

use layer_states::sending::Sending;
use lower_transport::{last_segment, segment, write};
use mesh_base::fields::NetMaterial;
use mesh_types::events::Outgoing;
use mesh_types::jobs::{Job, JobDraft, Segment};
use net_keys::NetKeys;
use node_limits::JOBS;
use node_records::Persist;
use segment_sender::round_due;

// The job of a segment, under this material.
fn segment_job(material: NetMaterial, m: &Outgoing, seg_o: u8, first: bool) -> Job
    requires outgoing { IsOutgoing m.now }
    requires place { seg_o ≤ last_segment_in m.now.upper }
    ensures { result ≡ segment_job first m.now seg_o material }
{
    let upper = m.upper.as_slice();
    Job::Segment(Segment {
        material,
        name: m.name,
        ttl: m.ttl,
        dst: m.dst,
        seg_o,
        seg_n: last_segment(upper),
        tpdu: write(&segment(m.akf, m.aid, m.name.pair.seq, upper, seg_o)),
        first,
    })
}

/// Puts all segments of a message that begins behind the others, where its network key is held. The first of all is the one that goes under
/// the pair of SeqAuth.
pub(crate) fn push_first_round(jobs: &mut JobDraft, p: &Persist, nets: &NetKeys, m: &Outgoing)
    requires room { length jobs.old + 32 ≤ JOBS }
    requires nets { nets.now ≡ p.now.nets }
    requires outgoing { IsOutgoing m.now }
    ensures value { jobs.new
        ≡ jobs.old ++ begin_jobs (config_in p.now) m.now }
    ensures few { length jobs.new ≤ length jobs.old + 32 }
{
    let Some(material) = nets.transmit(m.net) else {
        return;
    };
    for seg_o in 0..last_segment(m.upper.as_slice()) + 1 {
        jobs.push(segment_job(material, m, seg_o, seg_o == 0));
    }
}

// Puts segments of a message behind the others, each of which draws a pair of its own.
fn push_again(jobs: &mut JobDraft, material: NetMaterial, m: &Outgoing, round: &[u8])
    requires room { length jobs.old + length round.now ≤ JOBS }
    requires outgoing { IsOutgoing m.now }
    requires places { All (λ i. i ≤ last_segment_in m.now.upper) round.now }
    ensures value { jobs.new ≡ jobs.old ++ segments_under material m.now round.now }
    ensures few { length jobs.new ≡ length jobs.old + length round.now }
{
    for seg_o in round {
        jobs.push(segment_job(material, m, *seg_o, false));
    }
}

// Puts the segments of one message that are due behind the others.
fn push_round(jobs: &mut JobDraft, p: &Persist, nets: &NetKeys, now: u64, s: &Sending)
    requires room { length jobs.old + 32 ≤ JOBS }
    requires nets { nets.now ≡ p.now.nets }
    requires held { IsHeldWell s.now }
    ensures value { jobs.new ≡ jobs.old ++ round_jobs (config_in p.now) now s.now }
    ensures few { length jobs.new ≤ length jobs.old + 32 }
{
    let round = round_due(now, s);
    let Some(material) = nets.transmit(s.message.net) else {
        return;
    };
    push_again(jobs, material, &s.message, round.as_slice());
}

/// Puts the segments that are due at `now`, in ticks of 10 ms, behind the others, in the order in which their messages began: of each
/// message at most one round. `rows` are the messages as they are held before the time is counted.
pub fn push_rounds(jobs: &mut JobDraft, p: &Persist, nets: &NetKeys, now: u64, rows: &[Sending])
    requires room { length jobs.old + 128 ≤ JOBS }
    requires nets { nets.now ≡ p.now.nets }
    requires rows { length rows.now ≤ 4 }
    requires held { All IsHeldWell rows.now }
    ensures value { jobs.new ≡ jobs.old ++ flat_map (round_jobs (config_in p.now) now) rows.now }
    ensures few { length jobs.new ≤ length jobs.old + 128 }
{
    for s in rows {
        push_round(jobs, p, nets, now, s);
    }
}
