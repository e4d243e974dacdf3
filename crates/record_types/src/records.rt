//! The records of a node's store.
#![tactic(auto)]

ghost use Rattle.std.specs.Prelude.{◌≡◌};

use mesh_base::address::Address;
use mesh_base::pair::Name;

/// What a model publishes, and where (Mesh Profile 1.0.1, section 4.2.2). Address 0000 stands for no publication.
#[derive(Clone, Copy, Default, PartialEq, Eq)]
pub struct PublishRow {
    /// The model's element.
    pub element: Address,
    /// The model.
    pub model: u16,
    /// The publish address.
    pub address: Address,
    /// The index of the application key, 12 bits.
    pub app: u16,
    /// The publish TTL: 00 to 7f, or ff for the Default TTL.
    pub ttl: u8,
    /// The publish period: its low 6 bits are steps, its high 2 bits their length.
    pub period: u8,
    /// Count and interval of retransmissions, which are kept and not used.
    pub retransmit: u8,
}

/// One record of the store. A key that an op doesn't need is zeros; an address that an op doesn't need is written as zeros and read as
/// anything. There is no `Debug` of it, since it may hold a key.
#[derive(Clone, Copy, PartialEq, Eq)]
pub enum StoreRecord {
    /// What the node is.
    Identity {
        /// The address of its first element.
        unicast: Address,
        /// The number of its elements, 1 to 4.
        elements: u8,
        /// The device key.
        dev_key: [u8; 16],
    },
    /// The IV state and the mark.
    Numbers {
        /// The known IV Index.
        current: u32,
        /// Whether IV Update is in progress.
        progress: bool,
        /// The durable bound of the pairs drawn: the word `iv * 2^25 + seq` with SEQ at most 2^24.
        mark: u64,
        /// Hours in this state.
        hours: u16,
        /// Hours since the last IV Index Recovery.
        since: u16,
    },
    /// Hours passed.
    Hour {
        /// Hours in this state.
        hours: u16,
        /// Hours since the last IV Index Recovery.
        since: u16,
    },
    /// Messages were accepted. The node writes one name when it accepts a message, and up to two where it writes all that it knows anew.
    Replay {
        /// The name of the first.
        first: Name,
        /// The name of the second, if there is one: not all of its octets are zeros.
        second: Option<Name>,
    },
    /// A change of a network key.
    NetKey {
        /// 1 add, 2 update, 3 phase 2, 4 finish, 5 delete.
        op: u8,
        /// The index of the key, 12 bits.
        index: u16,
        /// The key to be added, or its new value.
        key: [u8; 16],
    },
    /// A change of an application key.
    AppKey {
        /// 1 add, 2 update, 3 delete.
        op: u8,
        /// The index of its network key, 12 bits.
        net: u16,
        /// The index of the key, 12 bits.
        index: u16,
        /// The key to be added, or its new value.
        key: [u8; 16],
    },
    /// A change of the application keys of a model.
    Bind {
        /// 1 bind, 2 unbind.
        op: u8,
        /// The model's element.
        element: Address,
        /// The model.
        model: u16,
        /// The index of the application key, 12 bits.
        app: u16,
    },
    /// A change of the subscriptions of a model.
    Subscribe {
        /// 1 add, 2 delete, 3 delete all, 4 overwrite.
        op: u8,
        /// The model's element.
        element: Address,
        /// The model.
        model: u16,
        /// The group.
        address: Address,
    },
    /// The value of a feature.
    Feature {
        /// 1 beacon, 2 Default TTL, 3 friend, 4 relay and its retransmissions, 5 network transmit.
        which: u8,
        /// The value; of 4, relay is the high octet and the retransmissions the low one.
        value: u16,
    },
    /// A Node Reset.
    Reset,
    /// The value that a model keeps over a power cut.
    Model {
        /// The place of its element, 0 to 3.
        element: u8,
        /// The model: 1000, Generic OnOff Server, or 1002, Generic Level Server.
        model: u16,
        /// The value: 0 or 1 of 1000, a level in two's complement of 1002.
        value: u16,
    },
    /// A change of the labels that a model subscribes to.
    Label {
        /// 1 add, 2 delete, 4 overwrite.
        op: u8,
        /// The model's element.
        element: Address,
        /// The model.
        model: u16,
        /// The Label UUID.
        label: [u8; 16],
    },
    /// What a model publishes from now on.
    Publish {
        /// Its row, which takes the place of the model's row.
        row: PublishRow,
    },
}

/// A Node Reset, which fills the unused places of a table.
impl Default for StoreRecord {
    ghost use Rattle.record_types.specs.declared.records.StoreRecord.TheVariants.{Reset};

    ghost is_default = { λ item. item ≡ Reset };

    fn default() -> StoreRecord {
        StoreRecord::Reset
    }
}
