//! Configuration messages with their fields (Mesh Profile 1.0.1, sections 4.3.2 and 4.3.4). Key indexes have 12 bits.
#![tactic(auto)]

use mesh_base::address::Address;
use model_states::publication::HeartbeatRow;

/// A model, as messages name it (section 4.2.1.1).
#[derive(Clone, Copy)]
pub enum ModelId {
    /// One of the Bluetooth SIG.
    Sig(u16),
    /// One of a vendor.
    Vendor {
        /// The company identifier.
        company: u16,
        /// The model among the company's.
        model: u16,
    },
}

/// A model on an element.
#[derive(Clone, Copy)]
pub struct ElementModel {
    /// The address of the element.
    pub element: Address,
    /// The model.
    pub model: ModelId,
}

/// An application key with its network key, by their indexes.
#[derive(Clone, Copy)]
pub struct AppKeyIndexes {
    /// The index of the network key.
    pub net: u16,
    /// The index of the application key.
    pub app: u16,
}

/// The value of an application key.
#[derive(Clone, Copy)]
pub struct AppKeyValue {
    /// Which key.
    pub indexes: AppKeyIndexes,
    /// Its value.
    pub key: [u8; 16],
}

/// The value of a network key.
#[derive(Clone, Copy)]
pub struct NetKeyValue {
    /// The index of the network key.
    pub net: u16,
    /// Its value.
    pub key: [u8; 16],
}

/// Relay with its retransmissions (sections 4.2.8 and 4.2.20).
#[derive(Clone, Copy)]
pub struct RelayValue {
    /// Whether the node relays.
    pub on: bool,
    /// Relay Retransmit Count and Interval Steps in one octet.
    pub retransmit: u8,
}

/// Transitions of a Key Refresh that a message may ask for (section 4.2.14).
#[derive(Clone, Copy)]
pub enum PhaseTransition {
    /// 02: to phase 2.
    ToPhaseTwo,
    /// 03: to the end, which is phase 0.
    ToEnd,
}

/// A subscription of a model to a group.
#[derive(Clone, Copy)]
pub struct GroupSubscription {
    /// The model.
    pub holder: ElementModel,
    /// The group.
    pub group: Address,
}

/// A subscription of a model to a label.
#[derive(Clone, Copy)]
pub struct LabelSubscription {
    /// The model.
    pub holder: ElementModel,
    /// The label.
    pub label: [u8; 16],
}

/// A binding of a model to an application key.
#[derive(Clone, Copy)]
pub struct AppBinding {
    /// The model.
    pub holder: ElementModel,
    /// The index of the application key.
    pub app: u16,
}

/// What a model is to publish (section 4.2.2).
#[derive(Clone, Copy)]
pub struct PublicationValue {
    /// The model.
    pub holder: ElementModel,
    /// The publish address.
    pub address: Address,
    /// The index of the application key.
    pub app: u16,
    /// The publish TTL: 00 to 7f, or ff for the Default TTL.
    pub ttl: u8,
    /// The publish period.
    pub period: u8,
    /// Count and interval of retransmissions.
    pub retransmit: u8,
}

/// A configuration message that this node answers.
#[derive(Clone, Copy)]
pub enum ConfigMessage {
    /// 00, section 4.3.2.37.
    AppKeyAdd(AppKeyValue),
    /// 01, section 4.3.2.38.
    AppKeyUpdate(AppKeyValue),
    /// 03, section 4.3.2.16.
    PublicationSet(PublicationValue),
    /// 8000, section 4.3.2.39.
    AppKeyDelete(AppKeyIndexes),
    /// 8001, section 4.3.2.41.
    AppKeyGet {
        /// The index of the network key.
        net: u16,
    },
    /// 8008, section 4.3.2.4. Each page asks for page 0.
    CompositionGet,
    /// 8009, section 4.3.2.1.
    BeaconGet,
    /// 800a, section 4.3.2.2.
    BeaconSet {
        /// Whether the node sends Secure Network beacons.
        on: bool,
    },
    /// 800c, section 4.3.2.6.
    DefaultTtlGet,
    /// 800d, section 4.3.2.7.
    DefaultTtlSet {
        /// 00, or 02 to 7f.
        ttl: u8,
    },
    /// 800f, section 4.3.2.55.
    FriendGet,
    /// 8010, section 4.3.2.56.
    FriendSet {
        /// Whether the node is a friend.
        on: bool,
    },
    /// 8012, section 4.3.2.9.
    ProxyGet,
    /// 8013, section 4.3.2.10. The node has no GATT Proxy.
    ProxySet,
    /// 8015, section 4.3.2.58.
    PhaseGet {
        /// The index of the network key.
        net: u16,
    },
    /// 8016, section 4.3.2.59.
    PhaseSet {
        /// The index of the network key.
        net: u16,
        /// Where its Key Refresh goes.
        transition: PhaseTransition,
    },
    /// 8018, section 4.3.2.15.
    PublicationGet(ElementModel),
    /// 801b, section 4.3.2.19.
    SubscriptionAdd(GroupSubscription),
    /// 801c, section 4.3.2.21.
    SubscriptionDelete(GroupSubscription),
    /// 801d, section 4.3.2.25.
    SubscriptionDeleteAll(ElementModel),
    /// 801e, section 4.3.2.23.
    SubscriptionOverwrite(GroupSubscription),
    /// 8020, section 4.3.2.20.
    LabelAdd(LabelSubscription),
    /// 8021, section 4.3.2.22.
    LabelDelete(LabelSubscription),
    /// 8022, section 4.3.2.24.
    LabelOverwrite(LabelSubscription),
    /// 8023, section 4.3.2.69.
    TransmitGet,
    /// 8024, section 4.3.2.70.
    TransmitSet {
        /// Network Transmit Count and Interval Steps in one octet.
        transmit: u8,
    },
    /// 8026, section 4.3.2.12.
    RelayGet,
    /// 8027, section 4.3.2.13.
    RelaySet(RelayValue),
    /// 802d, section 4.3.2.67.
    PollTimeoutGet {
        /// The Low Power node.
        lpn: Address,
    },
    /// 8038, section 4.3.2.61.
    HeartbeatGet,
    /// 8039, section 4.3.2.62.
    HeartbeatSet(HeartbeatRow),
    /// 803d, section 4.3.2.46.
    AppBind(AppBinding),
    /// 803f, section 4.3.2.47.
    AppUnbind(AppBinding),
    /// 8040, section 4.3.2.31.
    NetKeyAdd(NetKeyValue),
    /// 8041, section 4.3.2.33.
    NetKeyDelete {
        /// The index of the network key.
        net: u16,
    },
    /// 8042, section 4.3.2.35.
    NetKeyGet,
    /// 8045, section 4.3.2.32.
    NetKeyUpdate(NetKeyValue),
    /// 8049, section 4.3.2.53.
    NodeReset,
}
