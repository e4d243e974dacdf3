//! The node's own messages.
#![tactic(auto)]

ghost use Rattle.std.specs.Prelude.{◌≡◌, ℕ, ◌+◌, ◌<◌, ◌≤◌, ◌^◌, List, [], IfSome, length};
ghost use Rattle.std.specs.Option.{option_map_or, option_to_list};
ghost use Rattle.app_keys.specs.AppRows.{AppRows, HasAidWidth};
ghost use Rattle.mesh_base.specs.declared.keys.UpperKey.{UpperKey as Key};
ghost use Rattle.mesh_jobs.specs.Own.{IsBefriended, IsSingle};
ghost use Rattle.mesh_types.specs.declared.answers.Answer.TheVariants as A;
ghost use Rattle.mesh_types.specs.declared.events.Event.TheVariants as E;
ghost use Rattle.node_records.specs.Tables.{config_in};
ghost use Rattle.event_definitions.specs.History.{Insight, Past};
ghost use Rattle.event_definitions.specs.Jobs.{first_net as first_net_in, jobs_of, raw_jobs, send_keys as send_keys_in, sent_job as sent_job_in};
ghost use Rattle.event_definitions.specs.Layers.{Layers};
ghost use Rattle.segment_sender.specs.Held.{IsOutgoing};

use crate::making::push_made;
use crate::replies::is_stored;
use crate::segments::push_first_round;
use app_keys::AppKeys;
use mesh_base::address::Address;
use mesh_base::keys::UpperKey;
use mesh_base::octets::Octets;
use mesh_types::answers::Answer;
use mesh_types::events::{Event, Outgoing, SendKey};
use mesh_types::jobs::{Job, JobDraft, Jobs};
use net_keys::NetKeys;
use node_records::Persist;

// The index of the first network key, under which goes what no other rule gives one.
fn first_net(p: &Persist) -> Option<u16>
    ensures { result ≡ first_net_in (config_in p.now) }
{
    match p.nets.as_slice() {
        [row, ..] => Some(row.index),
        [] => None,
    }
}

// A control PDU from the first element, under the first network key.
fn raw_job(p: &Persist, nets: &NetKeys, dst: Address, ttl: u8, tpdu: &Octets<16>) -> Option<Job>
    requires nets { nets.now ≡ p.now.nets }
    ensures { option_to_list result ≡ raw_jobs (config_in p.now) dst ttl tpdu.now }
{
    let net = first_net(p)?;
    let material = nets.transmit(net)?;
    Some(Job::Control {
        material,
        ttl,
        src: p.unicast,
        dst,
        tpdu: tpdu.copied(),
        keep: None,
    })
}

/// The network key index and the key of an own access message: a device key goes under the first network key, and an application key under
/// that to which it is bound. None where they aren't held. An AID has 6 bits.
pub fn send_keys(p: &Persist, apps: &AppKeys, key: &SendKey) -> Option<(u16, UpperKey)>
    requires apps { apps.now ≡ record { apps = p.now.apps; nets = p.now.nets } }
    ensures value { result ≡ send_keys_in (config_in p.now) key.now }
    ensures aid { IfSome result (λ (keys : ℕ × Key). HasAidWidth keys.1) }
{
    match key {
        SendKey::Own => Some((first_net(p)?, UpperKey::Device(p.dev_key))),
        SendKey::Other(key) => Some((first_net(p)?, UpperKey::Device(*key))),
        SendKey::App(index) => apps.transmit(*index),
    }
}

/// A message that the node is asked to send, but for its payload.
#[derive(Drop)]
pub struct AskedMessage<'a> {
    /// The element that sends it, counted from 0.
    pub element: u8,
    /// DST.
    pub dst: Address,
    /// TTL, 7 bits.
    pub ttl: u8,
    /// By which rule it has its key.
    pub key: &'a SendKey,
}

// An access message whose payload is that of the event, under these keys.
fn sent_job(p: &Persist, nets: &NetKeys, m: &AskedMessage<'_>, keys: (u16, UpperKey)) -> Option<Job>
    requires nets { nets.now ≡ p.now.nets }
    requires element { p.now.unicast.0 + m.now.element < 2 ^ 16 }
    ensures { option_to_list result ≡ sent_job_in (config_in p.now) m.now.element m.now.dst m.now.ttl keys }
{
    let (net, key) = keys;
    let material = nets.transmit(net)?;
    Some(Job::Sent {
        net,
        material,
        key,
        ttl: m.ttl,
        src: p.element_address(m.element),
        dst: m.dst,
    })
}

// The job of a message that the node is asked to send, by the rule of its key.
fn send_job(p: &Persist, nets: &NetKeys, apps: &AppKeys, m: &AskedMessage<'_>) -> Option<Job>
    requires nets { nets.now ≡ p.now.nets }
    requires apps { apps.now ≡ record { apps = p.now.apps; nets = p.now.nets } }
    requires element { p.now.unicast.0 + m.now.element < 2 ^ 16 }
    ensures { option_to_list result
        ≡ option_map_or (sent_job_in (config_in p.now) m.now.element m.now.dst m.now.ttl)
        (send_keys_in (config_in p.now) m.now.key.now) [] }
{
    let keys = send_keys(p, apps, m.key)?;
    sent_job(p, nets, m, keys)
}

/// What the jobs of an event that asks for one at most are made of.
#[derive(Drop)]
pub struct OwnBasis<'a> {
    /// The event.
    pub event: &'a Event,
    /// Whether it sends a message to an address of a friendship that stands.
    pub befriended: bool,
}

// The job of an event that asks for one at most.
#[tactic(auto, unfolding(event_definitions::specs::Jobs::jobs_of))]
fn own_job(p: &Persist, nets: &NetKeys, apps: &AppKeys, basis: &OwnBasis<'_>) -> Option<Job>
    requires nets { nets.now ≡ p.now.nets }
    requires apps { apps.now ≡ record { apps = p.now.apps; nets = p.now.nets } }
    requires single { IsSingle (config_in p.now) basis.now.event.now }
    ensures { (layers : Layers) (past : Past) (insight : Insight)
        → IsBefriended layers past basis.now.event.now basis.now.befriended
        → option_to_list result ≡ jobs_of layers past (config_in p.now) basis.now.event.now insight A.Planned }
{
    match basis.event {
        Event::Raw { dst, ttl, tpdu } => raw_job(p, nets, *dst, *ttl, tpdu),
        Event::Send {
            element,
            dst,
            ttl,
            key,
            payload,
        } => {
            if is_stored(basis.befriended, payload.as_slice()) {
                return None;
            }
            let message = AskedMessage {
                element: *element,
                dst: *dst,
                ttl: *ttl,
                key,
            };
            send_job(p, nets, apps, &message)
        }
        _ => None,
    }
}

/// The jobs of an event that asks for one at most: a message or a control PDU that the node is asked to send, where it was answered `planned`;
/// a beacon heard and octets that were kept ask for none. `p` is what the records after the event say, and `nets` and `apps` are its keys. The
/// jobs are made in `draft`, which has none.
#[tactic(auto, unfolding(event_definitions::specs::Jobs::jobs_of))]
pub fn own_jobs(
    mut draft: JobDraft,
    p: &Persist,
    nets: &NetKeys,
    apps: &AppKeys,
    basis: &OwnBasis<'_>,
    answer: &Answer,
) -> Jobs
    requires empty { draft ≡ [] }
    requires nets { nets.now ≡ p.now.nets }
    requires apps { apps.now ≡ record { apps = p.now.apps; nets = p.now.nets } }
    requires single { IsSingle (config_in p.now) basis.now.event.now }
    ensures value { (layers : Layers) (past : Past) (insight : Insight)
        → IsBefriended layers past basis.now.event.now basis.now.befriended
        → result ≡ jobs_of layers past (config_in p.now) basis.now.event.now insight answer.now }
    ensures few { length result ≤ 1 }
{
    if let Answer::Planned = answer {
        push_made(&mut draft, own_job(p, nets, apps, basis));
    }
    draft.finish()
}

/// The jobs of an own message that begins, where it was answered `begun`: all of its segments. `p` is what the records after the event say,
/// and `nets` are its keys. The jobs are made in `draft`, which has none.
#[tactic(auto, unfolding(event_definitions::specs::Jobs::jobs_of))]
pub fn begin_jobs(
    mut draft: JobDraft,
    p: &Persist,
    nets: &NetKeys,
    m: &Outgoing,
    answer: &Answer,
) -> Jobs
    requires empty { draft ≡ [] }
    requires nets { nets.now ≡ p.now.nets }
    requires outgoing { IsOutgoing m.now }
    ensures value { (layers : Layers) (past : Past) (insight : Insight)
        → result ≡ jobs_of layers past (config_in p.now)
        (E.Begin m.now) insight answer.now }
    ensures few { length result ≤ 32 }
{
    if let Answer::Begun = answer {
        push_first_round(&mut draft, p, nets, m);
    }
    draft.finish()
}
