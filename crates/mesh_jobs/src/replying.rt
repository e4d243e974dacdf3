//! The replies to a message that was delivered (Mesh Profile 1.0.1, section 3.7.4.1).
#![tactic(auto)]

ghost use Rattle.std.specs.Prelude.{◌≡◌, ◌+◌, ◌<◌, ◌≤◌, ◌^◌, ◌++◌, length, map};
ghost use Rattle.std.specs.List.{flat_map};
ghost use Rattle.std.specs.Option.{option_copied, option_to_list};
ghost use Rattle.element_models.specs.Messages.{reply_in};
ghost use Rattle.mesh_jobs.specs.Replying.{heard_as};
ghost use Rattle.node_layers.specs.ConfiguredLayers.{sent_reply};
ghost use Rattle.node_models.specs.Replies.{from_first, replies_in};
ghost use Rattle.node_records.specs.Tables.{config_in};

use crate::making::{payload_of, push_made};
use mesh_base::address::Address;
use mesh_base::keys::UpperKey;
use mesh_base::octets::Octets;
use mesh_types::jobs::{Job, JobDraft};
use net_keys::NetKeys;
use network_layer::NetReading;
use node_limits::JOBS;
use node_models::{MessageReplies, Replies};
use node_records::Persist;

/// A message that is replied to, as it was heard.
#[derive(Drop)]
pub struct HeardMessage<'a> {
    /// The network PDU that completed it.
    pub reading: &'a NetReading,
    /// The key that opened it.
    pub key: &'a UpperKey,
    /// SRC, to which replies go.
    pub src: Address,
}

// A reply of the element at this place, under the keys by which the message was heard.
fn reply_job(
    p: &Persist,
    nets: &NetKeys,
    m: &HeardMessage<'_>,
    element: u8,
    payload: &[u8],
) -> Option<Job>
    requires nets { nets.now ≡ p.now.nets }
    requires element { p.now.unicast.0 + element < 2 ^ 16 }
    requires short { length payload.now ≤ 48 }
    ensures { option_to_list result
        ≡ sent_reply (config_in p.now) (heard_as m.now.reading.now m.now.key.now m.now.src) (element, payload.now) }
{
    let net = m.reading.by.index;
    let material = nets.transmit(net)?;
    Some(Job::Message {
        net,
        material,
        key: *m.key,
        ttl: p.reply_ttl(m.reading.fields.ttl),
        src: p.element_address(element),
        dst: m.src,
        payload: payload_of(payload),
        keep: None,
    })
}

// Puts the reply of the Configuration Server, which is on the first element, behind the others, if there is one.
fn push_first_reply(
    jobs: &mut JobDraft,
    p: &Persist,
    nets: &NetKeys,
    m: &HeardMessage<'_>,
    payload: Option<&Octets<48>>,
)
    requires room { length jobs.old < JOBS }
    requires nets { nets.now ≡ p.now.nets }
    requires unicast { p.now.unicast.0 < 2 ^ 15 }
    ensures value { jobs.new ≡ jobs.old
        ++ flat_map (sent_reply (config_in p.now) (heard_as m.now.reading.now m.now.key.now m.now.src))
        (map from_first (option_to_list (option_copied payload.entry))) }
    ensures few { length jobs.new ≤ length jobs.old + 1 }
{
    if let Some(payload) = payload {
        push_made(jobs, reply_job(p, nets, m, 0, payload.as_slice()));
    }
}

// Puts the replies of the models behind the others.
fn push_model_replies(
    jobs: &mut JobDraft,
    p: &Persist,
    nets: &NetKeys,
    m: &HeardMessage<'_>,
    replies: &Replies,
)
    requires room { length jobs.old + 8 ≤ JOBS }
    requires nets { nets.now ≡ p.now.nets }
    requires unicast { p.now.unicast.0 < 2 ^ 15 }
    ensures value { jobs.new ≡ jobs.old
        ++ flat_map (sent_reply (config_in p.now) (heard_as m.now.reading.now m.now.key.now m.now.src))
        (map reply_in replies.now) }
    ensures few { length jobs.new ≤ length jobs.old + 8 }
{
    for reply in replies.as_slice() {
        let job = reply_job(p, nets, m, reply.element, reply.payload.as_slice());
        push_made(jobs, job);
    }
}

/// Puts the replies to a message behind the others, that of the Configuration Server first: each from its element to
/// the message's source, under the network key that the message was heard with, if that is held, and the key that
/// opened it, with TTL 0 where it was heard with that, and else the Default TTL.
pub fn push_replies(
    jobs: &mut JobDraft,
    p: &Persist,
    nets: &NetKeys,
    m: &HeardMessage<'_>,
    replies: &MessageReplies,
)
    requires room { length jobs.old + 9 ≤ JOBS }
    requires nets { nets.now ≡ p.now.nets }
    requires unicast { p.now.unicast.0 < 2 ^ 15 }
    ensures value { jobs.new ≡ jobs.old
        ++ flat_map (sent_reply (config_in p.now) (heard_as m.now.reading.now m.now.key.now m.now.src))
        (replies_in replies.now) }
    ensures few { length jobs.new ≤ length jobs.old + 9 }
{
    push_first_reply(jobs, p, nets, m, replies.configuration.as_ref());
    push_model_replies(jobs, p, nets, m, &replies.models);
}
