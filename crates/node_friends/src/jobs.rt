//! What a control message of a Low Power node asks to be sent.
#![tactic(auto)]

ghost use Rattle.std.specs.Prelude.{◌≡◌, ℕ, ◌+◌, ◌<◌, ◌≤◌, ◌==◌, ◌++◌, false, Some, None, length};
ghost use Rattle.std.specs.Option.{option_map_or};
ghost use Rattle.layer_definitions.specs.Control.{FitsControl, control_text};
ghost use Rattle.layer_definitions.specs.KeyRefresh.{net_row as net_row_in};
ghost use Rattle.layer_states.specs.Friends.{FriendsState};
ghost use Rattle.mesh_base.specs.declared.control.ControlMsg.{ControlMsg as Message};
ghost use Rattle.mesh_base.specs.declared.control.ControlMsg.TheVariants as C;
ghost use Rattle.mesh_base.specs.declared.keys.NetKeyRow.{NetKeyRow as Row};
ghost use Rattle.mesh_reading.specs.Held.{reading_of};
ghost use Rattle.mesh_types.specs.declared.jobs.Job.TheVariants as J;
ghost use Rattle.node_friends.specs.Acts.{IsActOf, jobs_of_act};
ghost use Rattle.node_layers.specs.Friendship.{answer_jobs, clear_jobs, flags_of as flags_in, jobs_of_control, own_control as own_control_in, update_of as update_in};
ghost use Rattle.node_records.specs.Tables.{config_in};
ghost use Rattle.event_definitions.specs.Jobs.{under};

use crate::acts::FriendAct;
use layer_states::friends::{OwnShort, PollAnswer};
use mesh_base::address::Address;
use mesh_base::control::{Clear, ControlMsg, Update};
use mesh_base::fields::{NetFields, NetMaterial};
use mesh_base::keys::net_row;
use mesh_base::octets::Octets;
use mesh_types::jobs::{Job, JobDraft};
use net_keys::NetKeys;
use network_layer::NetReading;
use node_limits::JOBS;
use node_records::Persist;
use upper_transport::write_control;

// The transport PDU of a control message.
fn control_octets(m: &ControlMsg) -> Octets<16>
    requires { FitsControl m.now }
    ensures { result ≡ control_text m.now }
{
    let text = write_control(m);
    let mut octets = Octets::new();
    octets.extend(text.as_slice());
    octets
}

// A control message of this node.
#[derive(Drop)]
struct OwnControl {
    // TTL, 7 bits.
    ttl: u8,
    // DST.
    dst: Address,
    // What it says.
    message: ControlMsg,
}

// A control message from the first element.
fn own_control(
    p: &Persist,
    m: &OwnControl,
    keep: Option<(Address, bool)>,
    material: NetMaterial,
) -> Job
    requires { FitsControl m.now.message }
    ensures { result ≡ own_control_in (config_in p.now) m.now.ttl m.now.dst m.now.message keep material }
{
    Job::Control {
        material,
        ttl: m.ttl,
        src: p.unicast,
        dst: m.dst,
        tpdu: control_octets(&m.message),
        keep,
    }
}

// Puts a control message behind the others, under the master credentials of the network key that another message was heard with, if that is
// held.
fn push_under(jobs: &mut JobDraft, p: &Persist, nets: &NetKeys, r: &NetReading, m: &OwnControl)
    requires room { length jobs.old < JOBS }
    requires nets { nets.now ≡ p.now.nets }
    requires fits { FitsControl m.now.message }
    ensures value { jobs.new
        ≡ jobs.old
        ++ under (config_in p.now) r.now.by.index
        (own_control_in (config_in p.now) m.now.ttl m.now.dst m.now.message None) }
    ensures few { length jobs.new ≤ length jobs.old + 1 }
{
    if let Some(material) = nets.transmit(r.by.index) {
        jobs.push(own_control(p, m, None, material));
    }
}

// Whether a network key is in phase 2 of a Key Refresh.
fn is_refreshed(p: &Persist, index: u16) -> bool
    ensures { result ≡ option_map_or (λ (row : Row). row.phase == 2) (net_row_in p.now.nets index) false }
{
    match net_row(p.nets.as_slice(), index) {
        Some(row) => row.phase == 2,
        None => false,
    }
}

// Flags of a Friend Update: bit 0 is Key Refresh, bit 1 IV Update.
fn flags_of(p: &Persist, index: u16) -> u8
    ensures { result ≡ flags_in (config_in p.now) index }
{
    let refresh = if is_refreshed(p, index) { 1 } else { 0 };
    let update = if p.iv.progress { 2 } else { 0 };
    refresh + update
}

// The Friend Update of the network key of this index.
fn update_of(p: &Persist, index: u16) -> ControlMsg
    ensures value { result ≡ update_in (config_in p.now) index }
{
    ControlMsg::Update(Update {
        flags: flags_of(p, index),
        iv: p.iv.current,
        more_data: 0,
    })
}

// The Friend Update that answers a Poll.
fn update_job(p: &Persist, r: &NetReading, fsn: bool) -> Job
    ensures { result
        ≡ own_control_in (config_in p.now) 0 r.now.fields.src (update_in (config_in p.now) r.now.by.index)
        (Some (r.now.fields.src, fsn)) r.now.by.material }
{
    let keep = Some((r.fields.src, fsn));
    let update = OwnControl {
        ttl: 0,
        dst: r.fields.src,
        message: update_of(p, r.by.index),
    };
    own_control(p, &update, keep, r.by.material)
}

// A stored PDU that answers a Poll.
fn stored_job(r: &NetReading, f: &NetFields) -> Job
    ensures { result ≡ J.Relay r.now.by.material f.now }
{
    Job::Relay {
        material: r.by.material,
        fields: NetFields {
            iv: f.iv,
            ctl: f.ctl,
            ttl: f.ttl,
            seq: f.seq,
            src: f.src,
            dst: f.dst,
            tpdu: f.tpdu.copied(),
        },
    }
}

// A message of this node that answers a Poll.
fn message_job(r: &NetReading, fsn: bool, m: &OwnShort) -> Job
    ensures { result
        ≡ J.Message m.now.net r.now.by.material m.now.key m.now.ttl m.now.src m.now.dst m.now.payload
        (Some (r.now.fields.src, fsn)) }
{
    let mut payload = Octets::new();
    payload.extend(m.payload.as_slice());
    Job::Message {
        net: m.net,
        material: r.by.material,
        key: m.key,
        ttl: m.ttl,
        src: m.src,
        dst: m.dst,
        payload,
        keep: Some((r.fields.src, fsn)),
    }
}

// Puts the answer to a Poll behind the others: it goes under the friendship credentials by which the Poll was heard.
fn push_answer(jobs: &mut JobDraft, p: &Persist, r: &NetReading, fsn: bool, answer: &PollAnswer)
    requires room { length jobs.old < JOBS }
    ensures value { jobs.new ≡ jobs.old ++ answer_jobs (config_in p.now) (reading_of r.now) fsn answer.now }
    ensures few { length jobs.new ≤ length jobs.old + 1 }
{
    match answer {
        PollAnswer::Update => jobs.push(update_job(p, r, fsn)),
        PollAnswer::Stored(f) => jobs.push(stored_job(r, f)),
        PollAnswer::Own(m) => jobs.push(message_job(r, fsn, m)),
        PollAnswer::Repeat { name, pdu } => jobs.push(Job::Repeat {
            name: *name,
            pdu: pdu.copied(),
        }),
        PollAnswer::Silent => {}
    }
}

// Puts the Friend Clear to the Friend node before this one behind the others, if it is to be told.
fn push_clear(
    jobs: &mut JobDraft,
    p: &Persist,
    nets: &NetKeys,
    r: &NetReading,
    clear: &Option<(Address, u16)>,
)
    requires room { length jobs.old < JOBS }
    requires nets { nets.now ≡ p.now.nets }
    ensures value { jobs.new ≡ jobs.old ++ clear_jobs (config_in p.now) (reading_of r.now) clear.now }
    ensures few { length jobs.new ≤ length jobs.old + 1 }
{
    if let Some((before, counter)) = clear {
        let clear = OwnControl {
            ttl: p.ttl,
            dst: *before,
            message: ControlMsg::Clear(Clear {
                lpn: r.fields.src,
                lpn_counter: *counter,
            }),
        };
        push_under(jobs, p, nets, r, &clear);
    }
}

// Puts what an act asks for behind the others.
fn push_act(jobs: &mut JobDraft, p: &Persist, nets: &NetKeys, r: &NetReading, act: &FriendAct)
    requires room { length jobs.old + 2 ≤ JOBS }
    requires nets { nets.now ≡ p.now.nets }
    ensures value { jobs.new ≡ jobs.old ++ jobs_of_act (config_in p.now) (reading_of r.now) act.now }
    ensures few { length jobs.new ≤ length jobs.old + 2 }
{
    let lpn = r.fields.src;
    match act {
        FriendAct::Nothing => {}
        FriendAct::Offered(offer) => {
            let offer = OwnControl {
                ttl: 0,
                dst: lpn,
                message: ControlMsg::Offer(*offer),
            };
            push_under(jobs, p, nets, r, &offer);
        }
        FriendAct::Answered { fsn, polled } => {
            push_answer(jobs, p, r, *fsn, &polled.answer);
            push_clear(jobs, p, nets, r, &polled.clear);
        }
        FriendAct::Confirmed { transaction } => {
            let confirmation = OwnControl {
                ttl: 0,
                dst: lpn,
                message: ControlMsg::ListConfirm {
                    transaction: *transaction,
                },
            };
            jobs.push(own_control(p, &confirmation, None, r.by.material));
        }
        FriendAct::Cleared(l) => {
            let confirmation = OwnControl {
                ttl: p.ttl,
                dst: lpn,
                message: ControlMsg::ClearConfirm(*l),
            };
            push_under(jobs, p, nets, r, &confirmation);
        }
    }
}

/// Puts what a control message asks to be sent behind the others, where `act` is what it led to: an offer, the answer to a Poll and the Friend
/// Clear to the Friend node before this one, or a confirmation. `p` is what the records after the event say, `nets` are its keys, and `r` is how
/// the message was heard.
pub fn push_friend_jobs(
    jobs: &mut JobDraft,
    p: &Persist,
    nets: &NetKeys,
    r: &NetReading,
    act: &FriendAct,
)
    requires room { length jobs.old + 2 ≤ JOBS }
    requires nets { nets.now ≡ p.now.nets }
    ensures value { (st : FriendsState) (now : ℕ) (m : Message)
        → IsActOf (config_in p.now) st now (reading_of r.now) m act.now
        → jobs.new ≡ jobs.old ++ jobs_of_control (config_in p.now) st now (reading_of r.now) m }
    ensures few { length jobs.new ≤ length jobs.old + 2 }
{
    push_act(jobs, p, nets, r, act);
}
