//! The fields of messages, out of their parameters (Mesh Profile 1.0.1, section 4.3.2). Each reading is None exactly where the parameters have
//! another length, or a value that is prohibited.
#![tactic(auto)]

ghost use Rattle.std.specs.Prelude.{◌≡◌, ◌≤◌, length, take, drop, option_map};
ghost use Rattle.config_definitions.specs.Messages.{address_in, app_key_in, binding_in, default_ttl_in, element_model_in, group_in, heartbeat_in, holder_in, indexes_in, is_default_ttl, is_heartbeat, is_publish_ttl, key_in, label_in, model_in, net_in, net_key_in, octet_in, publication_in, relay_in, switch_in, transition_in};
ghost use Rattle.config_definitions.specs.declared.messages.ElementModel.{ElementModel};
ghost use Rattle.config_definitions.specs.Params.{address_of, first_index, index_of, number_of, second_index};

use byteorder::{ByteOrder, LittleEndian};
use config_definitions::messages::{
    AppBinding, AppKeyIndexes, AppKeyValue, ConfigMessage, ElementModel, GroupSubscription,
    LabelSubscription, ModelId, NetKeyValue, PhaseTransition, PublicationValue, RelayValue,
};
use mesh_base::address::Address;
use model_states::publication::HeartbeatRow;

/// The bits of a key index.
const INDEX_BITS: u16 = 0x0fff;

/// The octets of a key, and of a label.
const KEY_SIZE: usize = 16;

// A number of two octets.
fn number_of(low: u8, high: u8) -> u16
    ensures { result ≡ number_of low high }
{
    LittleEndian::read_u16(&[low, high])
}

// An address.
fn address_of(low: u8, high: u8) -> Address
    ensures { result ≡ address_of low high }
{
    Address(number_of(low, high))
}

// A key index, of which 12 bits are read.
fn index_of(low: u8, high: u8) -> u16
    ensures { result ≡ index_of low high }
{
    number_of(low, high) % (INDEX_BITS + 1)
}

// Two key indexes in three octets.
fn indexes_of(a: u8, b: u8, c: u8) -> AppKeyIndexes
    ensures net { result.net ≡ first_index a b }
    ensures app { result.app ≡ second_index b c }
{
    AppKeyIndexes {
        net: u16::from(a) + u16::from(b % 0x10) * 0x100,
        app: u16::from(b / 0x10) + u16::from(c) * 0x10,
    }
}

// A key or a label.
#[tactic(auto, unfolding(config_definitions::specs::Messages::key_in))]
fn key_in(octets: &[u8]) -> Option<[u8; 16]>
    ensures { result ≡ key_in octets.now }
{
    if octets.len() != KEY_SIZE {
        return None;
    }
    let mut key = [0; 16];
    key.copy_from_slice(octets);
    Some(key)
}

// A model.
#[tactic(auto, unfolding(config_definitions::specs::Messages::model_in))]
fn model_in(octets: &[u8]) -> Option<ModelId>
    ensures { result ≡ model_in octets.now }
{
    match octets {
        [a, b] => Some(ModelId::Sig(number_of(*a, *b))),
        [a, b, c, d] => Some(ModelId::Vendor {
            company: number_of(*a, *b),
            model: number_of(*c, *d),
        }),
        _ => None,
    }
}

/// A switch: 00 or 01.
#[tactic(auto, unfolding(config_definitions::specs::Messages::switch_in))]
pub fn switch_in(params: &[u8]) -> Option<bool>
    ensures { result ≡ switch_in params.now }
{
    match params {
        [0] => Some(false),
        [1] => Some(true),
        _ => None,
    }
}

/// The index of a network key.
#[tactic(auto, unfolding(config_definitions::specs::Messages::net_in))]
pub fn net_in(params: &[u8]) -> Option<u16>
    ensures { result ≡ net_in params.now }
{
    match params {
        [a, b] => Some(index_of(*a, *b)),
        _ => None,
    }
}

/// An address.
#[tactic(auto, unfolding(config_definitions::specs::Messages::address_in))]
pub fn address_in(params: &[u8]) -> Option<Address>
    ensures { result ≡ address_in params.now }
{
    match params {
        [a, b] => Some(address_of(*a, *b)),
        _ => None,
    }
}

/// A Default TTL: 00, or 02 to 7f.
#[tactic(auto, unfolding(config_definitions::specs::Messages::default_ttl_in))]
pub fn default_ttl_in(params: &[u8]) -> Option<u8>
    ensures { result ≡ default_ttl_in params.now }
{
    match params {
        [value @ (0 | 2..=0x7f)] => Some(*value),
        _ => None,
    }
}

/// One octet.
#[tactic(auto, unfolding(config_definitions::specs::Messages::octet_in))]
pub fn octet_in(params: &[u8]) -> Option<u8>
    ensures { result ≡ octet_in params.now }
{
    match params {
        [value] => Some(*value),
        _ => None,
    }
}

/// The indexes of an application key and its network key.
#[tactic(auto, unfolding(config_definitions::specs::Messages::indexes_in))]
pub fn indexes_in(params: &[u8]) -> Option<AppKeyIndexes>
    ensures { result ≡ indexes_in params.now }
{
    match params {
        [a, b, c] => Some(indexes_of(*a, *b, *c)),
        _ => None,
    }
}

/// The indexes of an application key and its network key, then the key.
#[tactic(auto, unfolding(config_definitions::specs::Messages::app_key_in))]
pub fn app_key_in(params: &[u8]) -> Option<AppKeyValue>
    ensures { result ≡ app_key_in params.now }
{
    match params {
        [a, b, c, key @ ..] => Some(AppKeyValue {
            indexes: indexes_of(*a, *b, *c),
            key: key_in(key)?,
        }),
        _ => None,
    }
}

/// The index of a network key, then the key.
#[tactic(auto, unfolding(config_definitions::specs::Messages::net_key_in))]
pub fn net_key_in(params: &[u8]) -> Option<NetKeyValue>
    ensures { result ≡ net_key_in params.now }
{
    match params {
        [a, b, key @ ..] => Some(NetKeyValue {
            net: index_of(*a, *b),
            key: key_in(key)?,
        }),
        _ => None,
    }
}

/// Relay, then its retransmissions.
#[tactic(auto, unfolding(config_definitions::specs::Messages::relay_in, config_definitions::specs::Messages::switch_in))]
pub fn relay_in(params: &[u8]) -> Option<RelayValue>
    ensures { result ≡ relay_in params.now }
{
    match params {
        [0, retransmit] => Some(RelayValue {
            on: false,
            retransmit: *retransmit,
        }),
        [1, retransmit] => Some(RelayValue {
            on: true,
            retransmit: *retransmit,
        }),
        _ => None,
    }
}

/// Key Refresh Phase Set: the index of a network key, then the transition, 02 or 03.
#[tactic(auto, unfolding(config_definitions::specs::Messages::transition_in))]
pub fn transition_in(params: &[u8]) -> Option<ConfigMessage>
    ensures { result ≡ transition_in params.now }
{
    match params {
        [a, b, 2] => Some(ConfigMessage::PhaseSet {
            net: index_of(*a, *b),
            transition: PhaseTransition::ToPhaseTwo,
        }),
        [a, b, 3] => Some(ConfigMessage::PhaseSet {
            net: index_of(*a, *b),
            transition: PhaseTransition::ToEnd,
        }),
        _ => None,
    }
}

// A model on the element of this address.
#[tactic(auto, unfolding(config_definitions::specs::Messages::holder_in))]
fn holder_in(low: u8, high: u8, model: &[u8]) -> Option<ElementModel>
    ensures { result ≡ holder_in low high model.now }
{
    Some(ElementModel {
        element: address_of(low, high),
        model: model_in(model)?,
    })
}

/// The element, then the model.
#[tactic(auto, unfolding(config_definitions::specs::Messages::element_model_in))]
pub fn element_model_in(params: &[u8]) -> Option<ElementModel>
    ensures { result ≡ element_model_in params.now }
{
    match params {
        [a, b, model @ ..] => holder_in(*a, *b, model),
        _ => None,
    }
}

/// The element, the group, then the model.
#[tactic(auto, unfolding(config_definitions::specs::Messages::group_in))]
pub fn group_in(params: &[u8]) -> Option<GroupSubscription>
    ensures { result ≡ group_in params.now }
{
    match params {
        [a, b, c, d, model @ ..] => Some(GroupSubscription {
            holder: holder_in(*a, *b, model)?,
            group: address_of(*c, *d),
        }),
        _ => None,
    }
}

// The label at the front.
fn label_at(rest: &[u8]) -> [u8; 16]
    requires { 16 ≤ length rest.now }
    ensures { result ≡ take 16 rest.now }
{
    let mut label = [0; 16];
    label.copy_from_slice(&rest[..KEY_SIZE]);
    label
}

// A label on the element of this address, then the model.
fn labelled(low: u8, high: u8, rest: &[u8]) -> Option<LabelSubscription>
    ensures { result
        ≡ option_map (λ (holder : ElementModel). record { holder = holder; label = take 16 rest.now })
        (holder_in low high (drop 16 rest.now)) }
{
    if rest.len() < KEY_SIZE {
        return None;
    }
    Some(LabelSubscription {
        holder: holder_in(low, high, &rest[KEY_SIZE..])?,
        label: label_at(rest),
    })
}

/// The element, the label, then the model.
#[tactic(auto, unfolding(config_definitions::specs::Messages::label_in))]
pub fn label_in(params: &[u8]) -> Option<LabelSubscription>
    ensures { result ≡ label_in params.now }
{
    match params {
        [a, b, rest @ ..] => labelled(*a, *b, rest),
        _ => None,
    }
}

/// The element, the application key, then the model.
#[tactic(auto, unfolding(config_definitions::specs::Messages::binding_in))]
pub fn binding_in(params: &[u8]) -> Option<AppBinding>
    ensures { result ≡ binding_in params.now }
{
    match params {
        [a, b, c, d, model @ ..] => Some(AppBinding {
            holder: holder_in(*a, *b, model)?,
            app: index_of(*c, *d),
        }),
        _ => None,
    }
}

// Whether a TTL may be a Publish TTL.
fn is_publish_ttl(ttl: u8) -> bool
    ensures { result ≡ is_publish_ttl ttl }
{
    ttl <= 0x7f || ttl == 0xff
}

/// The element, the publish address, the application key, TTL, period, retransmissions, then the model.
#[tactic(auto, unfolding(config_definitions::specs::Messages::publication_in))]
pub fn publication_in(params: &[u8]) -> Option<PublicationValue>
    ensures { result ≡ publication_in params.now }
{
    match params {
        [a, b, c, d, e, f, ttl, period, retransmit, model @ ..] if is_publish_ttl(*ttl) => {
            Some(PublicationValue {
                holder: holder_in(*a, *b, model)?,
                address: address_of(*c, *d),
                app: index_of(*e, *f),
                ttl: *ttl,
                period: *period,
                retransmit: *retransmit,
            })
        }
        _ => None,
    }
}

// Whether the logs and the TTL are none of those that are prohibited.
fn is_heartbeat(h: &HeartbeatRow) -> bool
    ensures { result ≡ is_heartbeat h.now }
{
    (h.count <= 0x11 || h.count == 0xff) && h.period <= 0x11 && h.ttl <= 0x7f
}

/// The destination, Count Log, Period Log, TTL, features, then the network key.
#[tactic(auto, unfolding(config_definitions::specs::Messages::heartbeat_in))]
pub fn heartbeat_in(params: &[u8]) -> Option<HeartbeatRow>
    ensures { result ≡ heartbeat_in params.now }
{
    match params {
        [a, b, count, period, ttl, c, d, e, f] => {
            let asked = HeartbeatRow {
                dst: address_of(*a, *b),
                count: *count,
                period: *period,
                ttl: *ttl,
                features: number_of(*c, *d),
                net: index_of(*e, *f),
            };
            if is_heartbeat(&asked) {
                Some(asked)
            } else {
                None
            }
        }
        _ => None,
    }
}
