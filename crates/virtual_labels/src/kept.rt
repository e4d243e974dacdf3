//! Labels with their virtual addresses, which are derived once.
#![tactic(auto)]

ghost use Rattle.std.specs.Prelude.{◌≡◌, ◌==◌, ◌<◌, ◌≤◌, ◌↔◌, ◌++◌, ◌∷◌, [], List, true, length, IsErr, IfOk};
ghost use Rattle.std.specs.List.{list_any};
ghost use Rattle.cipher_definitions.specs.Kdf.{virtual_address};
ghost use Rattle.kept_keys.specs.Bound.{fitting_keys};
ghost use Rattle.layer_definitions.specs.Labels.{IsLabelUnopened, OpensLabel};
ghost use Rattle.mesh_base.specs.declared.address.Address.{Address as AddressIn};
ghost use Rattle.mesh_base.specs.declared.keys.UpperKey.{UpperKey};
ghost use Rattle.virtual_labels.specs.Addresses.{addresses_of, has_address};
ghost use Rattle.virtual_labels.specs.Search.{IsSearched};

use crate::opening::{LabelOpened, NoLabel};
use kept_keys::{BoundSchedule, UpperSchedule};
use mesh_base::address::Address;
use mesh_base::table::Table;
use mesh_base::upper::UpperFields;
use node_limits::{HEARD_APPLICATION_KEYS, LABEL_SUBSCRIPTIONS};
use std::marker::Model;
use upper_transport::{Opened, open_labelled};

/// At most `LABEL_SUBSCRIPTIONS` labels with their virtual addresses. An address is derived when its label is put in, and not for each message. A clause sees
/// the list of the labels.
#[derive(Drop)]
pub struct Labels {
    labels: Table<[u8; 16], LABEL_SUBSCRIPTIONS>,
    addresses: Table<Address, LABEL_SUBSCRIPTIONS>,
}

impl Model for Labels {
    ghost use Rattle.std.specs.Prelude.{◌≡◌, ℕ, List};
    ghost use Rattle.virtual_labels.specs.Addresses.{addresses_of};

    ghost Value = { List (List ℕ) };

    ghost view = { λ l. l.labels };

    ghost invariant = { λ l. l.addresses ≡ addresses_of l.labels };
}

// Whether an address is among these.
fn is_among(addresses: &[Address], address: Address) -> bool
    ensures { result ≡ list_any (λ (a : AddressIn). a.0 == address.0) addresses.now }
{
    addresses.iter().any(|a| a.0 == address.0)
}

// Whether two labels are the same.
fn are_same(one: &[u8; 16], other: &[u8; 16]) -> bool
    ensures { result ≡ true → one.now ≡ other.now }
{
    one.as_slice() == other.as_slice()
}

// What is found so far: the first label that a key opens, with the first such key, and how many labels may be before it.
#[derive(Drop)]
struct Search {
    limit: usize,
    found: Option<LabelOpened>,
}

// One key more that may have sealed a message, with its place: only labels before the one found so far are tried under it.
fn with_key(
    search: Search,
    labels: &Labels,
    key: &UpperSchedule,
    at: u32,
    f: &UpperFields,
    upper: &[u8],
) -> Search
    requires upper { length upper.now ≤ 384 }
    requires limit { search.limit ≤ length labels.now }
    ensures limit { result.limit ≤ length labels.now }
    ensures value { (keys : List UpperKey) → length keys ≡ at → IsSearched keys labels.now f.now upper.now search
        → IsSearched (keys ++ key.now ∷ []) labels.now f.now upper.now result }
{
    let (front, _) = labels.as_slice().split_at(search.limit);
    let (addresses, _) = labels.addresses().split_at(search.limit);
    match open_labelled(key, front, addresses, f, upper) {
        Some(opening) => Search {
            limit: opening.label as usize,
            found: Some(LabelOpened {
                label: opening.label,
                opened: Opened {
                    at,
                    payload: opening.payload,
                },
            }),
        },
        None => search,
    }
}

impl Labels {
    /// No labels.
    pub fn new() -> Labels
        ensures value { result ≡ [] }
    {
        Labels {
            labels: Table::new(),
            addresses: Table::new(),
        }
    }

    /// Puts a label behind the others, for which there is room.
    pub fn push(&mut self, label: &[u8; 16])
        requires room { length self.old < LABEL_SUBSCRIPTIONS }
        ensures value { self.new ≡ self.old ++ label.now ∷ [] }
    {
        let _ = self.labels.push(*label);
        let _ = self.addresses.push(Address(mesh_kdf::address(label)));
    }

    /// Puts a label behind the others, for which there is room. Its address is taken from `before` where it is among those labels, and else is
    /// derived.
    pub fn push_kept(&mut self, before: &Labels, label: &[u8; 16])
        requires room { length self.old < LABEL_SUBSCRIPTIONS }
        ensures value { self.new ≡ self.old ++ label.now ∷ [] }
    {
        let address = before.address_of(label);
        let _ = self.labels.push(*label);
        let _ = self.addresses.push(address);
    }

    // The address of a label: the one that is kept, if it is among these, and else it is derived.
    fn address_of(&self, label: &[u8; 16]) -> Address
        ensures { result.0 ≡ virtual_address label.now }
    {
        let addresses = self.addresses.as_slice();
        for (place, kept) in self.labels.as_slice().iter().enumerate() {
            if are_same(kept, label) {
                return addresses[place];
            }
        }
        Address(mesh_kdf::address(label))
    }

    /// The labels, in the order in which they were put in.
    pub fn as_slice(&self) -> &[[u8; 16]]
        ensures value { result.now ≡ self.now }
        ensures length { length result.now ≤ LABEL_SUBSCRIPTIONS }
    {
        self.labels.as_slice()
    }

    // The addresses of the labels, in their order.
    fn addresses(&self) -> &[Address]
        ensures value { result.now ≡ addresses_of self.now }
        ensures length { length result.now ≡ length self.now }
    {
        self.addresses.as_slice()
    }

    /// Whether an address is that of one of the labels.
    pub fn has(&self, address: Address) -> bool
        ensures value { result ≡ has_address self.now address }
    {
        is_among(self.addresses.as_slice(), address)
    }

    /// The first of the labels with DST as its address, and with it the first of those kept application keys that are bound to the network
    /// key of this index and have this AID, that open the octets of an upper transport access PDU. The place of the key is that among those
    /// that fit. `NoLabel` comes exactly where no label and key open them. The label of the fields isn't read.
    ///
    /// There are at most 384 octets, and `HEARD_APPLICATION_KEYS` keys.
    pub fn unseal(
        &self,
        keys: &[BoundSchedule],
        net: u16,
        aid: u8,
        f: &UpperFields,
        upper: &[u8],
    ) -> Result<LabelOpened, NoLabel>
        requires keys { length keys.now ≤ HEARD_APPLICATION_KEYS }
        requires upper { length upper.now ≤ 384 }
        ensures ok { IfOk result
            (λ o. OpensLabel
            (fitting_keys net aid keys.now) self.now f.now upper.now o.label o.opened.at o.opened.payload) }
        ensures no_label { IsErr result ↔ IsLabelUnopened (fitting_keys net aid keys.now) self.now f.now upper.now }
    {
        let mut search = Search {
            limit: self.labels.len(),
            found: None,
        };
        let mut at = 0;
        for key in keys {
            if key.fits(net, aid) {
                search = with_key(search, self, &key.key, at, f, upper);
                at += 1;
            }
        }
        match search.found {
            Some(found) => Ok(found),
            None => Err(NoLabel),
        }
    }
}
