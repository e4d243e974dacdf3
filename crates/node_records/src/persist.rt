//! The value that a list of records stands for.
#![tactic(auto)]

use crate::replay::ReplayList;
use mesh_base::address::Address;
use mesh_base::iv_state::IvState;
use mesh_base::keys::{AppKeyRow, NetKeyRow, app_row};
use mesh_base::pair::Pair;
use mesh_base::table::Table;
use node_limits::{
    APPLICATION_KEYS, BINDINGS, ELEMENTS, GROUP_SUBSCRIPTIONS, LABEL_SUBSCRIPTIONS, NETWORK_KEYS,
    PUBLICATIONS,
};
use record_types::records::PublishRow;

/// What the records of a store say of the node. It holds keys, so it isn't printed.
#[derive(Drop)]
pub struct Persist {
    /// The address of the first element.
    pub unicast: Address,
    /// The number of elements, 1 to 4; 0 where there was no Identity.
    pub elements: u8,
    /// The device key.
    pub dev_key: [u8; 16],
    /// The IV state.
    pub iv: IvState,
    /// The durable bound of the pairs drawn: the word `iv * 2^25 + seq` with SEQ at most 2^24.
    pub mark: u64,
    /// Whether Secure Network beacons are sent, 0 or 1.
    pub beacon: u8,
    /// The Default TTL, 0 or 2 to 127.
    pub ttl: u8,
    /// Whether the Friend feature is on, 0 or 1.
    pub friend: u8,
    /// Whether the Relay feature is on, 0 or 1.
    pub relay: u8,
    /// The count and the interval of relay retransmissions, in one octet (Mesh Profile 1.0.1, section 4.2.20).
    pub retransmit: u8,
    /// The count and the interval of network transmissions, in one octet (section 4.2.19).
    pub transmit: u8,
    /// Whether there was a Node Reset.
    pub reset: bool,
    /// The network keys, by index.
    pub nets: Table<NetKeyRow, NETWORK_KEYS>,
    /// The application keys, by index.
    pub apps: Table<AppKeyRow, APPLICATION_KEYS>,
    /// Element, model and application key index of each binding.
    pub binds: Table<(Address, u16, u16), BINDINGS>,
    /// Element, model and group of each subscription to a group.
    pub subs: Table<(Address, u16, Address), GROUP_SUBSCRIPTIONS>,
    /// Element, model and label of each subscription to a virtual address, in the order in which they came.
    pub labels: Table<(Address, u16, [u8; 16]), LABEL_SUBSCRIPTIONS>,
    /// What models publish, by element and model.
    pub publications: Table<PublishRow, PUBLICATIONS>,
    /// The value that each Generic OnOff Server keeps, 0 or 1, by the place of its element.
    pub onoffs: [u8; ELEMENTS],
    /// The level that each Generic Level Server keeps, in two's complement, by the place of its element.
    pub levels: [u16; ELEMENTS],
    /// The replay list: the greatest pair accepted of each source.
    pub replay: ReplayList,
}

impl Persist {
    ghost use Rattle.std.specs.Prelude.{◌≡◌, ◌==◌, ◌+◌, ◌<◌, ◌^◌, List, [], is_some};
    ghost use Rattle.std.specs.List.{list_any};
    ghost use Rattle.mesh_base.specs.Keys.{app_row};
    ghost use Rattle.mesh_base.specs.declared.keys.AppKeyRow.{AppKeyRow};
    ghost use Rattle.record_types.specs.declared.records.StoreRecord.{StoreRecord};
    ghost use Rattle.store_definitions.specs.Config.{element_address, is_element, reply_ttl};
    ghost use Rattle.store_definitions.specs.Entries.{entry_of};
    ghost use Rattle.node_records.specs.Meaning.{IsMeaningOf, IsSaid};
    ghost use Rattle.node_records.specs.Tables.{config_in, entry_in};

    /// The value before any record: the features are those of a node that was just provisioned, all other numbers are 0,
    /// and the tables are empty.
    #[tactic(auto, using(crate::proofs::Meanings::first_said))]
    pub fn new() -> Persist
        ensures value { IsMeaningOf [] result }
        ensures said { IsSaid result }
    {
        Persist {
            unicast: Address(0),
            elements: 0,
            dev_key: [0; 16],
            iv: IvState {
                current: 0,
                progress: false,
                hours: 0,
                since: 0,
            },
            mark: 0,
            beacon: 0,
            ttl: 7,
            friend: 1,
            relay: 1,
            retransmit: 0,
            transmit: 0,
            reset: false,
            nets: Table::new(),
            apps: Table::new(),
            binds: Table::new(),
            subs: Table::new(),
            labels: Table::new(),
            publications: Table::new(),
            onoffs: [0; ELEMENTS],
            levels: [0; ELEMENTS],
            replay: ReplayList::new(),
        }
    }

    /// The entry of a source in the replay list: the greatest pair accepted from it, unless it is expired under the known IV Index.
    pub fn entry(&self, src: Address) -> Option<Pair>
        ensures value { result ≡ entry_in self.now src.0 }
        ensures records { (records : List StoreRecord) → IsMeaningOf records self.now
            → result ≡ entry_of records src.0 }
    {
        self.replay.entry(self.iv.current, src.0)
    }

    /// Whether the Relay feature is on (Mesh Profile 1.0.1, section 4.2.8).
    pub fn relays(&self) -> bool
        ensures value { result ≡ (self.now.relay == 1) }
    {
        self.relay == 1
    }

    /// Whether the Friend feature is on (section 4.2.13).
    pub fn is_friend(&self) -> bool
        ensures value { result ≡ (self.now.friend == 1) }
    {
        self.friend == 1
    }

    /// Whether Secure Network beacons are sent (section 4.2.10).
    pub fn sends_beacons(&self) -> bool
        ensures value { result ≡ (self.now.beacon == 1) }
    {
        self.beacon == 1
    }

    /// Whether an address is that of one of this node's elements.
    pub fn is_element(&self, address: Address) -> bool
        ensures value { result ≡ is_element (config_in self.now) address.0 }
    {
        self.unicast.0 <= address.0 && u32::from(address.0) < self.element_number(self.elements)
    }

    /// The number of an element's address, by the place of the element from 0 on: above 16 bits where no element has that place.
    pub fn element_number(&self, place: u8) -> u32
        ensures value { result ≡ (element_address (config_in self.now) place).0 }
    {
        u32::from(self.unicast.0) + u32::from(place)
    }

    /// The address of an element by its place, from 0 on. The place is that of an address, as each place of an element is.
    pub fn element_address(&self, place: u8) -> Address
        requires element { self.now.unicast.0 + place < 2 ^ 16 }
        ensures value { result ≡ element_address (config_in self.now) place }
    {
        Address(self.unicast.0 + u16::from(place))
    }

    /// TTL of an acknowledgment of, or a reply to, a message that was heard with this TTL: 0 where that is 0, and else the Default TTL.
    pub fn reply_ttl(&self, heard: u8) -> u8
        ensures value { result ≡ reply_ttl (config_in self.now) heard }
    {
        if heard == 0 { 0 } else { self.ttl }
    }

    /// Whether the application key of an index is held.
    pub fn has_app(&self, index: u16) -> bool
        ensures value { result ≡ is_some (app_row self.now.apps index) }
        ensures any { result ≡ list_any (λ (r : AppKeyRow). r.index == index) self.now.apps }
    {
        app_row(self.apps.as_slice(), index).is_some()
    }
}
