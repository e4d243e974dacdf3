//! From an access payload to its configuration message (Mesh Profile 1.0.1, section 4.3.4): a row for each opcode.
#![tactic(auto)]

ghost use Rattle.std.specs.Prelude.{◌≡◌};
ghost use Rattle.config_definitions.specs.Messages.{any_octet, config_message, message_of, without};

use crate::fields::{
    address_in, app_key_in, binding_in, default_ttl_in, element_model_in, group_in, heartbeat_in,
    indexes_in, label_in, net_in, net_key_in, octet_in, publication_in, relay_in, switch_in,
    transition_in,
};
use access_layer::read_opcode;
use config_definitions::messages::ConfigMessage;

// A message without parameters.
#[tactic(auto, unfolding(config_definitions::specs::Messages::without))]
fn without(message: ConfigMessage, params: &[u8]) -> Option<ConfigMessage>
    ensures { result ≡ without message params.now }
{
    match params {
        [] => Some(message),
        _ => None,
    }
}

// A message with one octet that isn't read.
#[tactic(auto, unfolding(config_definitions::specs::Messages::any_octet))]
fn any_octet(message: ConfigMessage, params: &[u8]) -> Option<ConfigMessage>
    ensures { result ≡ any_octet message params.now }
{
    match params {
        [_octet] => Some(message),
        _ => None,
    }
}

// The message of this opcode with these parameters.
#[tactic(auto, unfolding(config_definitions::specs::Messages::message_of))]
fn message_of(opcode: u32, params: &[u8]) -> Option<ConfigMessage>
    ensures { result ≡ message_of opcode params.now }
{
    match opcode {
        0x00 => app_key_in(params).map(ConfigMessage::AppKeyAdd),
        0x01 => app_key_in(params).map(ConfigMessage::AppKeyUpdate),
        0x03 => publication_in(params).map(ConfigMessage::PublicationSet),
        0x8000 => indexes_in(params).map(ConfigMessage::AppKeyDelete),
        0x8001 => net_in(params).map(|net| ConfigMessage::AppKeyGet { net }),
        0x8008 => any_octet(ConfigMessage::CompositionGet, params),
        0x8009 => without(ConfigMessage::BeaconGet, params),
        0x800a => switch_in(params).map(|on| ConfigMessage::BeaconSet { on }),
        0x800c => without(ConfigMessage::DefaultTtlGet, params),
        0x800d => default_ttl_in(params).map(|ttl| ConfigMessage::DefaultTtlSet { ttl }),
        0x800f => without(ConfigMessage::FriendGet, params),
        0x8010 => switch_in(params).map(|on| ConfigMessage::FriendSet { on }),
        0x8012 => without(ConfigMessage::ProxyGet, params),
        0x8013 => switch_in(params).map(|_on| ConfigMessage::ProxySet),
        0x8015 => net_in(params).map(|net| ConfigMessage::PhaseGet { net }),
        0x8016 => transition_in(params),
        0x8018 => element_model_in(params).map(ConfigMessage::PublicationGet),
        0x801b => group_in(params).map(ConfigMessage::SubscriptionAdd),
        0x801c => group_in(params).map(ConfigMessage::SubscriptionDelete),
        0x801d => element_model_in(params).map(ConfigMessage::SubscriptionDeleteAll),
        0x801e => group_in(params).map(ConfigMessage::SubscriptionOverwrite),
        0x8020 => label_in(params).map(ConfigMessage::LabelAdd),
        0x8021 => label_in(params).map(ConfigMessage::LabelDelete),
        0x8022 => label_in(params).map(ConfigMessage::LabelOverwrite),
        0x8023 => without(ConfigMessage::TransmitGet, params),
        0x8024 => octet_in(params).map(|transmit| ConfigMessage::TransmitSet { transmit }),
        0x8026 => without(ConfigMessage::RelayGet, params),
        0x8027 => relay_in(params).map(ConfigMessage::RelaySet),
        0x802d => address_in(params).map(|lpn| ConfigMessage::PollTimeoutGet { lpn }),
        0x8038 => without(ConfigMessage::HeartbeatGet, params),
        0x8039 => heartbeat_in(params).map(ConfigMessage::HeartbeatSet),
        0x803d => binding_in(params).map(ConfigMessage::AppBind),
        0x803f => binding_in(params).map(ConfigMessage::AppUnbind),
        0x8040 => net_key_in(params).map(ConfigMessage::NetKeyAdd),
        0x8041 => net_in(params).map(|net| ConfigMessage::NetKeyDelete { net }),
        0x8042 => without(ConfigMessage::NetKeyGet, params),
        0x8045 => net_key_in(params).map(ConfigMessage::NetKeyUpdate),
        0x8049 => without(ConfigMessage::NodeReset, params),
        _ => None,
    }
}

/// The configuration message that a payload is; None exactly where its opcode, its length or a value in it is of none that this node answers.
#[tactic(auto, unfolding(config_definitions::specs::Messages::config_message))]
pub fn config_message(payload: &[u8]) -> Option<ConfigMessage>
    ensures { result ≡ config_message payload.now }
{
    match read_opcode(payload) {
        Ok((opcode, size)) => message_of(opcode.0, &payload[size..]),
        Err(_) => None,
    }
}
