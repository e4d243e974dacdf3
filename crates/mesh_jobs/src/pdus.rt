//! What a network PDU heard asks for.
#![tactic(auto)]

ghost use Rattle.std.specs.Prelude.{◌≡◌, ℕ, ◌+◌, ◌-◌, ◌<◌, ◌≤◌, ◌^◌, ◌==◌, ◌&&◌, not, nat_le, [], ◌++◌, List, Option, Some, IfSome, length};
ghost use Rattle.std.specs.List.{flat_map};
ghost use Rattle.std.specs.Option.{option_map, option_map_or, option_copied, option_to_list};
ghost use Rattle.layer_definitions.specs.KeyRefresh.{transmit_material};
ghost use Rattle.layer_definitions.specs.Lower.{Fits};
ghost use Rattle.mesh_base.specs.declared.fields.NetMaterial.{NetMaterial};
ghost use Rattle.mesh_base.specs.declared.keys.UpperKey.{UpperKey as Key};
ghost use Rattle.mesh_base.specs.declared.lower.Lower.{Lower as LowerPdu};
ghost use Rattle.mesh_jobs.specs.Acting.{IsActIn};
ghost use Rattle.mesh_jobs.specs.Hearing.{insight_of, insight_read, read_jobs};
ghost use Rattle.mesh_jobs.specs.Phases.{phases_of};
ghost use Rattle.mesh_jobs.specs.Replying.{AreRepliesTo, heard_as};
ghost use Rattle.mesh_reading.specs.Held.{low_in, opened_in, opening_of, pdu_insight, reading_of};
ghost use Rattle.mesh_types.specs.declared.events.Event.TheVariants as E;
ghost use Rattle.mesh_types.specs.declared.jobs.Job.TheVariants as J;
ghost use Rattle.node_layers.specs.ConfiguredLayers.{sent_reply};
ghost use Rattle.node_layers.specs.NodeLayers.{node_layers};
ghost use Rattle.node_models.specs.Replies.{replies_in};
ghost use Rattle.node_records.specs.Tables.{config_in};
ghost use Rattle.event_definitions.specs.Answers.{config_before, is_before_cache as is_before_cache_in};
ghost use Rattle.event_definitions.specs.History.{Opening, Past};
ghost use Rattle.event_definitions.specs.Jobs.{ack_job as ack_job_in, ack_jobs, block_asked as block_asked_in, jobs_of, message_jobs, relay_jobs, segment_numbers as segment_numbers_in};
ghost use Rattle.store_definitions.specs.Config.{is_element as is_element_in};

use crate::acknowledgments::{acknowledgment, all_pieces};
use crate::making::push_made;
use crate::refresh::{Phases, push_refresh};
use crate::replying::{HeardMessage, push_replies};
use mesh_base::address::Address;
use mesh_base::fields::NetFields;
use mesh_base::lower::Lower;
use mesh_reading::HeardPdu;
use mesh_types::answers::Answer;
use mesh_types::jobs::{Job, JobDraft, Jobs};
use net_keys::NetKeys;
use network_layer::NetReading;
use node_friends::{FriendAct, push_friend_jobs};
use node_limits::JOBS;
use node_models::MessageReplies;
use node_records::Persist;

// Whether a PDU goes on: Relay is on, a TTL is left, and it isn't for an element of this node.
fn is_relayed(p: &Persist, f: &NetFields) -> bool
    ensures { result ≡ (p.now.relay == 1 && nat_le 2 f.now.ttl && not (is_element_in (config_in p.now) f.now.dst.0)) }
{
    p.relays() && f.ttl >= 2 && !p.is_element(f.dst)
}

// The fields with one TTL less.
fn lowered(f: &NetFields) -> NetFields
    requires { 1 ≤ f.now.ttl }
    ensures { result ≡ record f.now { ttl = f.now.ttl - 1 } }
{
    NetFields {
        iv: f.iv,
        ctl: f.ctl,
        ttl: f.ttl - 1,
        seq: f.seq,
        src: f.src,
        dst: f.dst,
        tpdu: f.tpdu.copied(),
    }
}

// The PDU as it goes on, under the master credentials of the network key that it was heard with.
fn relay_job(nets: &NetKeys, r: &NetReading) -> Option<Job>
    requires { 1 ≤ r.now.fields.ttl }
    ensures { result
        ≡ option_map (λ (m : NetMaterial). J.Relay m (record r.now.fields { ttl = r.now.fields.ttl - 1 }))
        (transmit_material nets.now r.now.by.index) }
{
    let material = nets.transmit(r.by.index)?;
    Some(Job::Relay {
        material,
        fields: lowered(&r.fields),
    })
}

/// Puts the relay of a PDU behind the others, if it goes on: its own SRC, IV Index and SEQ with one TTL less, where
/// Relay is on, TTL is 2 or more, and DST isn't an element of this node.
pub fn push_relay(jobs: &mut JobDraft, p: &Persist, nets: &NetKeys, r: &NetReading)
    requires room { length jobs.old < JOBS }
    requires nets { nets.now ≡ p.now.nets }
    ensures value { jobs.new ≡ jobs.old ++ relay_jobs (config_in p.now) (reading_of r.now) }
    ensures few { length jobs.new ≤ length jobs.old + 1 }
{
    if is_relayed(p, &r.fields) {
        push_made(jobs, relay_job(nets, r));
    }
}

// SeqZero and SegN of a segment.
fn segment_numbers(low: &Lower) -> Option<(u16, u8)>
    requires { Fits low.now }
    ensures value { result ≡ segment_numbers_in low.now }
    ensures widths { IfSome result (λ n. (n.0 < 2 ^ 13) × (n.1 < 2 ^ 5)) }
{
    match low {
        Lower::AccessPart {
            seq_zero,
            seg_n,
            ..
        } => Some((*seq_zero, *seg_n)),
        Lower::ControlPart {
            seq_zero,
            seg_n,
            ..
        } => Some((*seq_zero, *seg_n)),
        Lower::Access { .. } => None,
        Lower::Control { .. } => None,
    }
}

// BlockAck of the acknowledgment that an answer asks for, if it asks for one: all pieces of a message that is through,
// none where there was no room.
fn block_asked(answer: &Answer, seg_n: u8) -> Option<u32>
    requires { seg_n < 2 ^ 5 }
    ensures { result ≡ block_asked_in answer.now seg_n }
{
    match answer {
        Answer::Again => Some(all_pieces(seg_n)),
        Answer::NoKey => Some(all_pieces(seg_n)),
        Answer::Delivered { .. } => Some(all_pieces(seg_n)),
        Answer::Control { .. } => Some(all_pieces(seg_n)),
        Answer::NoRoom { .. } => Some(0),
        _ => None,
    }
}

// An acknowledgment to the source of a PDU, from the element that it went to.
fn ack_job(p: &Persist, nets: &NetKeys, r: &NetReading, seq_zero: u16, block: u32) -> Option<Job>
    requires width { seq_zero < 2 ^ 13 }
    requires nets { nets.now ≡ p.now.nets }
    ensures { option_to_list result ≡ ack_job_in (config_in p.now) (reading_of r.now) seq_zero block }
{
    let material = nets.transmit(r.by.index)?;
    Some(Job::Control {
        material,
        ttl: p.reply_ttl(r.fields.ttl),
        src: r.fields.dst,
        dst: r.fields.src,
        tpdu: acknowledgment(seq_zero, block),
        keep: None,
    })
}

/// Puts the acknowledgment of a segment behind the others, if its answer asks for one: it went to one element, and its
/// message is through or found no room. `low` is what the transport PDU of `r` reads as; its fields are within their
/// widths.
pub fn push_ack(
    jobs: &mut JobDraft,
    p: &Persist,
    nets: &NetKeys,
    r: &NetReading,
    low: &Lower,
    answer: &Answer,
)
    requires room { length jobs.old < JOBS }
    requires nets { nets.now ≡ p.now.nets }
    requires fits { Fits low.now }
    ensures value { jobs.new ≡ jobs.old ++ ack_jobs (config_in p.now) (reading_of r.now) (Some low.now) answer.now }
    ensures few { length jobs.new ≤ length jobs.old + 1 }
{
    if !r.fields.dst.is_unicast() {
        return;
    }
    let Some((seq_zero, seg_n)) = segment_numbers(low) else {
        return;
    };
    let Some(block) = block_asked(answer, seg_n) else {
        return;
    };
    push_made(jobs, ack_job(p, nets, r, seq_zero, block));
}

/// Whether an answer comes before the message cache: then a PDU asks for nothing, and nothing of it is stored.
pub fn is_before_cache(answer: &Answer) -> bool
    ensures value { result ≡ is_before_cache_in answer.now }
{
    match answer {
        Answer::Unread => true,
        Answer::BadAddress => true,
        Answer::Own => true,
        Answer::Cached => true,
        Answer::Reset => true,
        _ => false,
    }
}

// Puts the acknowledgment of what was read behind the others, if there is one.
fn push_heard_ack(
    jobs: &mut JobDraft,
    p: &Persist,
    nets: &NetKeys,
    r: &NetReading,
    low: Option<&Lower>,
    answer: &Answer,
)
    requires room { length jobs.old < JOBS }
    requires nets { nets.now ≡ p.now.nets }
    requires fits { IfSome low (λ l. Fits l.now) }
    ensures value { jobs.new
        ≡ jobs.old ++ ack_jobs (config_in p.now) (reading_of r.now) (option_copied low.entry) answer.now }
    ensures few { length jobs.new ≤ length jobs.old + 1 }
{
    if let Some(low) = low {
        push_ack(jobs, p, nets, r, low, answer);
    }
}

/// What the jobs of a network PDU heard are made of.
#[derive(Drop)]
pub struct PduBasis {
    /// How far its octets were read.
    pub heard: HeardPdu,
    /// The Key Refresh phases before the records.
    pub phases: Phases,
    /// The replies to the message that it delivered, but for those that are stored.
    pub replies: MessageReplies,
    /// What a control message led to.
    pub act: FriendAct,
}

// Puts the replies to a message from `src` that was delivered behind the others, where a key opened it. `r` is the network PDU that it came in.
fn push_delivered(
    jobs: &mut JobDraft,
    p: &Persist,
    nets: &NetKeys,
    r: &NetReading,
    src: Address,
    basis: &PduBasis,
)
    requires room { length jobs.old + 9 ≤ JOBS }
    requires nets { nets.now ≡ p.now.nets }
    requires unicast { p.now.unicast.0 < 2 ^ 15 }
    ensures value { jobs.new ≡ jobs.old
        ++ option_map_or
        (λ (k : Key). flat_map (sent_reply (config_in p.now) (heard_as r.now k src)) (replies_in basis.now.replies))
        (option_map (λ (o : Opening). o.key) (option_map opening_of (opened_in basis.now.heard))) [] }
    ensures few { length jobs.new ≤ length jobs.old + 9 }
{
    if let Some(key) = basis.heard.key() {
        let message = HeardMessage {
            reading: r,
            key,
            src,
        };
        push_replies(jobs, p, nets, &message, &basis.replies);
    }
}

// Puts what the message that an answer accepted asks for behind the others: what a control message led to, or the replies to an access
// message. `r` is the network PDU that it came in.
#[tactic(auto, unfolding(node_layers::specs::ConfiguredLayers::configured_layers, node_layers::specs::NodeLayers::node_layers))]
fn push_message_jobs(
    jobs: &mut JobDraft,
    p: &Persist,
    nets: &NetKeys,
    r: &NetReading,
    basis: &PduBasis,
    answer: &Answer,
)
    requires room { length jobs.old + 9 ≤ JOBS }
    requires nets { nets.now ≡ p.now.nets }
    requires unicast { p.now.unicast.0 < 2 ^ 15 }
    ensures value { (past : Past) (low : Option LowerPdu) (opening : Option Opening)
        → option_map opening_of (opened_in basis.now.heard) ≡ opening
        → AreRepliesTo past (insight_of (Some r.now) low opening) answer.now basis.now.replies
        → IsActIn past (config_in p.now) (insight_of (Some r.now) low opening) answer.now basis.now.act
        → jobs.new ≡ jobs.old
        ++ message_jobs node_layers past (config_in p.now) (reading_of r.now) (insight_of (Some r.now) low opening)
        answer.now }
    ensures few { length jobs.new ≤ length jobs.old + 9 }
{
    match answer {
        Answer::Control { .. } => push_friend_jobs(jobs, p, nets, r, &basis.act),
        Answer::Delivered { name, .. } => push_delivered(jobs, p, nets, r, name.src, basis),
        _ => {}
    }
}

// Puts the jobs of a network PDU that got past the message cache behind the others. `r` is that PDU.
fn push_read_jobs(
    jobs: &mut JobDraft,
    p: &Persist,
    nets: &NetKeys,
    r: &NetReading,
    basis: &PduBasis,
    answer: &Answer,
)
    requires room { length jobs.old + 15 ≤ 160 }
    requires nets { nets.now ≡ p.now.nets }
    requires fits { IfSome (low_in basis.now.heard) Fits }
    requires unicast { p.now.unicast.0 < 2 ^ 15 }
    ensures value { (past : Past) → basis.now.phases ≡ phases_of (config_before past).nets
        → AreRepliesTo past (insight_read r.now basis.now.heard) answer.now basis.now.replies
        → IsActIn past (config_in p.now) (insight_read r.now basis.now.heard) answer.now basis.now.act
        → jobs.new ≡ jobs.old ++ read_jobs past (config_in p.now) r.now basis.now.heard answer.now }
    ensures few { length jobs.new ≤ length jobs.old + 15 }
{
    push_relay(jobs, p, nets, r);
    push_heard_ack(jobs, p, nets, r, basis.heard.low(), answer);
    push_message_jobs(jobs, p, nets, r, basis, answer);
    push_refresh(jobs, p, &basis.phases);
}

/// The jobs of a network PDU heard: it goes on, it is acknowledged, a delivered message is replied to or a control message of a Low Power node
/// is answered, and where a Key Refresh phase isn't what it was the node's beacons follow. A lower transport PDU of `basis` is within its
/// widths. `p` is what the records after the event say, and `nets` are its keys. The jobs are made in `draft`, which has none.
pub fn pdu_jobs(
    mut draft: JobDraft,
    p: &Persist,
    nets: &NetKeys,
    basis: &PduBasis,
    answer: &Answer,
) -> Jobs
    requires empty { draft ≡ [] }
    requires nets { nets.now ≡ p.now.nets }
    requires fits { IfSome (low_in basis.now.heard) Fits }
    requires unicast { p.now.unicast.0 < 2 ^ 15 }
    ensures value { (past : Past) (octets : List ℕ)
        → basis.now.phases ≡ phases_of (config_before past).nets
        → AreRepliesTo past (pdu_insight basis.now.heard) answer.now basis.now.replies
        → IsActIn past (config_in p.now) (pdu_insight basis.now.heard) answer.now basis.now.act
        → result ≡ jobs_of node_layers past (config_in p.now) (E.Net octets) (pdu_insight basis.now.heard) answer.now }
    ensures few { length result ≤ 15 }
{
    let Some(r) = basis.heard.reading() else {
        return draft.finish();
    };
    if is_before_cache(answer) {
        return draft.finish();
    }
    push_read_jobs(&mut draft, p, nets, r, basis, answer);
    draft.finish()
}
