//! What each configuration message does.
#![tactic(auto)]

ghost use Rattle.std.specs.Prelude.{◌≡◌, ◌≤◌, IfOk, OnErr, None, Some, length};
ghost use Rattle.config_definitions.specs.Answers.{config_answer, message_act};
ghost use Rattle.node_records.specs.Tables.{config_in};

use crate::bindings::{app_bind, app_unbind};
use crate::features::{
    composition_shown, friend_set, node_reset, octet_set, octet_shown, poll_timeout_shown,
    relay_set, relay_shown,
};
use crate::groups::{group_add, group_delete, group_overwrite, subscriptions_delete};
use crate::heartbeats::{heartbeat_set, heartbeat_shown};
use crate::keys::{
    app_key_add, app_key_delete, app_key_list, app_key_update, net_key_add, net_key_delete,
    net_key_list, net_key_update, phase_set, phase_shown,
};
use crate::labels::{label_add, label_delete, label_overwrite};
use crate::params::switch_octet;
use crate::publishing::{publication_set, publication_shown};
use crate::reading::config_message;
use config_definitions::acts::{ConfigAct, Status};
use config_definitions::messages::ConfigMessage;
use mesh_base::address::Address;
use model_states::publication::HeartbeatRow;
use node_limits::ELEMENTS;
use node_records::Persist;
use thiserror::Error;

/// The payload is no configuration message that this node answers: its opcode, its length or a value in it is of none.
#[derive(Clone, Copy, Debug, PartialEq, Eq, Error)]
#[error("no configuration message of this node")]
pub struct Ignored;

// What a message does.
#[tactic(auto, unfolding(config_definitions::specs::Answers::message_act))]
fn message_act(
    p: &Persist,
    under: u16,
    polls: &[(Address, u32)],
    beat: &HeartbeatRow,
    message: &ConfigMessage,
) -> ConfigAct
    requires { p.now.elements ≤ ELEMENTS }
    ensures { result ≡ message_act (config_in p.now) under polls.now beat.now message.now }
{
    match message {
        ConfigMessage::AppKeyAdd(k) => app_key_add(p, k),
        ConfigMessage::AppKeyUpdate(k) => app_key_update(p, k),
        ConfigMessage::PublicationSet(v) => publication_set(p, v),
        ConfigMessage::AppKeyDelete(k) => app_key_delete(p, k),
        ConfigMessage::AppKeyGet { net } => app_key_list(p, *net),
        ConfigMessage::CompositionGet => composition_shown(p),
        ConfigMessage::BeaconGet => octet_shown(0x0b, p.beacon),
        ConfigMessage::BeaconSet { on } => octet_set(1, 0x0b, p.beacon, switch_octet(*on)),
        ConfigMessage::DefaultTtlGet => octet_shown(0x0e, p.ttl),
        ConfigMessage::DefaultTtlSet { ttl } => octet_set(2, 0x0e, p.ttl, *ttl),
        ConfigMessage::FriendGet => octet_shown(0x11, p.friend),
        ConfigMessage::FriendSet { on } => friend_set(p, *on),
        ConfigMessage::ProxyGet => octet_shown(0x14, 0x02),
        ConfigMessage::ProxySet => octet_shown(0x14, 0x02),
        ConfigMessage::PhaseGet { net } => phase_shown(p, *net),
        ConfigMessage::PhaseSet { net, transition } => phase_set(p, *net, *transition),
        ConfigMessage::PublicationGet(holder) => publication_shown(p, holder),
        ConfigMessage::SubscriptionAdd(s) => group_add(p, s),
        ConfigMessage::SubscriptionDelete(s) => group_delete(p, s),
        ConfigMessage::SubscriptionDeleteAll(holder) => subscriptions_delete(p, holder),
        ConfigMessage::SubscriptionOverwrite(s) => group_overwrite(p, s),
        ConfigMessage::LabelAdd(s) => label_add(p, s),
        ConfigMessage::LabelDelete(s) => label_delete(p, s),
        ConfigMessage::LabelOverwrite(s) => label_overwrite(p, s),
        ConfigMessage::TransmitGet => octet_shown(0x25, p.transmit),
        ConfigMessage::TransmitSet { transmit } => octet_set(5, 0x25, p.transmit, *transmit),
        ConfigMessage::RelayGet => relay_shown(p),
        ConfigMessage::RelaySet(relay) => relay_set(p, relay),
        ConfigMessage::PollTimeoutGet { lpn } => poll_timeout_shown(polls, *lpn),
        ConfigMessage::HeartbeatGet => heartbeat_shown(Status::Success, beat),
        ConfigMessage::HeartbeatSet(h) => heartbeat_set(p, h),
        ConfigMessage::AppBind(b) => app_bind(p, b),
        ConfigMessage::AppUnbind(b) => app_unbind(p, b),
        ConfigMessage::NetKeyAdd(k) => net_key_add(p, k),
        ConfigMessage::NetKeyDelete { net } => net_key_delete(p, under, *net),
        ConfigMessage::NetKeyGet => net_key_list(p),
        ConfigMessage::NetKeyUpdate(k) => net_key_update(p, k),
        ConfigMessage::NodeReset => node_reset(),
    }
}

/// What a configuration message does, heard under the network key of this index, 12 bits. `polls` are the Low Power nodes of the node's
/// friendships with their PollTimeouts, in units of 100 ms, 24 bits; `beat` is the node's heartbeat as a Status shows it. `Ignored` comes
/// exactly where opcode, length or a value is that of no message. A reply begins with its opcode.
///
/// The node has at most `ELEMENTS` elements.
pub fn take(
    p: &Persist,
    under: u16,
    polls: &[(Address, u32)],
    beat: &HeartbeatRow,
    payload: &[u8],
) -> Result<ConfigAct, Ignored>
    requires { p.now.elements ≤ ELEMENTS }
    ensures ok { IfOk result (λ act. config_answer (config_in p.now) under polls.now beat.now payload.now ≡ Some act) }
    ensures reply { IfOk result (λ act. 1 ≤ length act.reply) }
    ensures ignored { OnErr result (config_answer (config_in p.now) under polls.now beat.now payload.now ≡ None) }
{
    match config_message(payload) {
        Some(message) => Ok(message_act(p, under, polls, beat, &message)),
        None => Err(Ignored),
    }
}
