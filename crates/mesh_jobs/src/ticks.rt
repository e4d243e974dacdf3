//! What is due when time passed.
#![tactic(auto)]

ghost use Rattle.std.specs.Prelude.{◌≡◌, ℕ, ◌+◌, ◌<◌, ◌≤◌, ◌^◌, ◌++◌, [], length, All};
ghost use Rattle.std.specs.List.{flat_map};
ghost use Rattle.std.specs.Option.{option_to_list};
ghost use Rattle.app_keys.specs.AppRows.{AppRows};
ghost use Rattle.mesh_jobs.specs.Ticks.{AreDue, IsSpan, is_beacon_due as is_beacon_due_in};
ghost use Rattle.mesh_types.specs.declared.answers.Answer.TheVariants as A;
ghost use Rattle.mesh_types.specs.declared.events.Event.TheVariants as E;
ghost use Rattle.node_layers.specs.NodeLayers.{node_layers};
ghost use Rattle.node_layers.specs.Reassembly.{due_jobs};
ghost use Rattle.node_records.specs.Tables.{config_in};
ghost use Rattle.event_definitions.specs.History.{Insight, Past};
ghost use Rattle.event_definitions.specs.Jobs.{beacon_jobs, beacons_due, is_moved as is_moved_in, jobs_of};
ghost use Rattle.segment_sender.specs.Held.{IsHeldWell};

use crate::acknowledgments::acknowledgment;
use crate::beacons::push_beacons;
use crate::making::push_made;
use crate::publishing::push_publications;
use crate::segments::push_rounds;
use app_keys::AppKeys;
use layer_states::reassembly::{AckList, DueAck};
use mesh_base::iv_state::IvState;
use mesh_types::answers::Answer;
use mesh_types::jobs::{Job, JobDraft, Jobs};
use net_keys::NetKeys;
use node_limits::JOBS;
use node_models::Due;
use node_records::Persist;
use segment_sender::Rounds;

/// Between two multiples of so many ticks the node's beacons are sent once.
const BEACON_TICKS: u64 = 1000;

/// What a tick event went from, and the time that it leaves.
#[derive(Drop)]
pub struct Span {
    /// The ticks of this life before the event.
    pub from: u64,
    /// The ticks of this life after it.
    pub to: u64,
    /// The IV state before it.
    pub iv: IvState,
}

/// What the jobs of a tick event are made of.
#[derive(Drop)]
pub struct TimeBasis {
    /// The acknowledgments that are due.
    pub acks: AckList,
    /// The own segmented messages that send a round, as they are before the time is counted.
    pub rounds: Rounds,
    /// What is published then, but for what is stored, and the heartbeat.
    pub due: Due,
    /// The time before and after, and the IV state before.
    pub span: Span,
}

// An acknowledgment that is due. Its SeqZero is the low 13 bits of SeqAuth.
fn due_job(p: &Persist, nets: &NetKeys, a: &DueAck) -> Option<Job>
    requires nets { nets.now ≡ p.now.nets }
    ensures { option_to_list result ≡ due_jobs (config_in p.now) a.now }
{
    let material = nets.transmit(a.net)?;
    let seq_zero = (a.name.pair.seq % 0x2000) as u16;
    Some(Job::Control {
        material,
        ttl: a.ack_ttl,
        src: a.dst,
        dst: a.name.src,
        tpdu: acknowledgment(seq_zero, a.block),
        keep: None,
    })
}

/// Puts the acknowledgments that are due behind the others, in their order.
pub fn push_acks(jobs: &mut JobDraft, p: &Persist, nets: &NetKeys, acks: &AckList)
    requires room { length jobs.old + 8 ≤ JOBS }
    requires nets { nets.now ≡ p.now.nets }
    ensures value { jobs.new ≡ jobs.old ++ flat_map (due_jobs (config_in p.now)) acks.now }
    ensures few { length jobs.new ≤ length jobs.old + 8 }
{
    for a in acks.as_slice() {
        push_made(jobs, due_job(p, nets, a));
    }
}

// Whether the IV Index or the state of its update isn't what it was.
fn is_moved(s: &IvState, t: &IvState) -> bool
    ensures { result ≡ is_moved_in s.now t.now }
{
    s.current != t.current || s.progress != t.progress
}

// Whether beacons are due: a multiple of 1000 ticks was passed, or this is another IV state.
fn is_beacon_due(span: &Span, iv: &IvState) -> bool
    ensures { result ≡ is_beacon_due_in span.now iv.now }
{
    span.from / BEACON_TICKS < span.to / BEACON_TICKS || is_moved(&span.iv, iv)
}

/// Puts the node's beacons behind the others where a multiple of 1000 ticks was passed or the IV state changed.
pub fn push_beacons_due(jobs: &mut JobDraft, p: &Persist, span: &Span)
    requires room { length jobs.old + 4 ≤ JOBS }
    ensures value { (past : Past) (ticks : ℕ) → IsSpan past ticks span.now
        → jobs.new ≡ jobs.old ++ beacons_due past (config_in p.now) ticks }
    ensures few { length jobs.new ≤ length jobs.old + 4 }
{
    if is_beacon_due(span, &p.iv) {
        push_beacons(jobs, p);
    }
}

/// The jobs of a tick event: the acknowledgments that are due, the rounds of own messages, the node's beacons, if they
/// are due, and then what is published. `p` is what the records after the event say, and `nets` and `apps` are its keys. The jobs are made in
/// `draft`, which has none.
#[tactic(auto, unfolding(node_layers::specs::ConfiguredLayers::configured_layers, node_layers::specs::NodeLayers::node_layers, event_definitions::specs::Jobs::jobs_of))]
pub fn tick_jobs(
    mut draft: JobDraft,
    p: &Persist,
    nets: &NetKeys,
    apps: &AppKeys,
    basis: &TimeBasis,
    answer: &Answer,
) -> Jobs
    requires empty { draft ≡ [] }
    requires nets { nets.now ≡ p.now.nets }
    requires apps { apps.now ≡ record { apps = p.now.apps; nets = p.now.nets } }
    requires held { All IsHeldWell basis.now.rounds.items }
    requires unicast { p.now.unicast.0 < 2 ^ 15 }
    ensures value { (past : Past) (ticks : ℕ) (insight : Insight) → IsSpan past ticks basis.now.span
        → ((now : ℕ) → answer.now ≡ A.Ticked now → AreDue past ticks (config_in p.now) basis.now)
        → result ≡ jobs_of node_layers past (config_in p.now) (E.Tick ticks) insight answer.now }
    ensures few { length result ≤ 149 }
{
    let Answer::Ticked { .. } = answer else {
        return draft.finish();
    };
    push_acks(&mut draft, p, nets, &basis.acks);
    push_rounds(&mut draft, p, nets, basis.span.to, basis.rounds.as_slice());
    push_beacons_due(&mut draft, p, &basis.span);
    push_publications(&mut draft, p, nets, apps, &basis.due);
    draft.finish()
}
