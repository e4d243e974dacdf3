// A node is provisioned: its first records are written onto an erased flash.
ghost use Rattle.std.specs.Prelude.{◌≡◌, List, false, IsTrue, IfOk, IfErr, OnOk, ℕ, ◌*◌, ◌^◌, ◌<◌, All, map, slice_index};
ghost use Rattle.flash_model.specs.Arming.{FailsOnce};
ghost use Rattle.flash_model.specs.Chip.{IsFresh, Keeps, LeavesOnly, Stays, count_of};
ghost use Rattle.node_records.specs.Meaning.{IsMeaningOf, IsSaid};
ghost use Rattle.store_definitions.specs.Ranges.{IsInRange};
ghost use Rattle.store_definitions.specs.Recovered.{record_text, IsRecovered};
ghost use Rattle.store_definitions.specs.Provisioning.{provisioned};
ghost use Rattle.mesh_base.specs.IvState.{HasTransmit, transmit_of};
ghost use Rattle.slot_journal.specs.Causes.{IsFormatCause, IsNotErased};
ghost use Rattle.slot_journal.specs.Format.{IsErased};
ghost use Rattle.node_store.specs.Calls.{only_slots};
ghost use Rattle.node_store.specs.Provisioning.{IsProvision, provisioning, state_of};
ghost use Rattle.node_store.specs.Mounted.{IsOldNode};
ghost use Rattle.node_store.specs.Tie.{IsExactly, IsMade, IsStoreOf};
ghost use Rattle.node_store.specs.Writing.{CostsCalls};

use crate::store::Store;
use flash_model::Flash;
use mesh_base::address::Address;
use mesh_base::iv_state::IvState;
use mesh_base::slot::Slot;
use node_records::Persist;
use record_texts::encode;
use record_types::records::StoreRecord;
use slot_journal::{FormatFault, Journal};

/// The op of a NetKey record that adds a key.
const ADD: u8 = 1;

/// The format of a bank that a node writes: a Replay record has room for two names.
const FORMAT: u8 = 2;

/// The format that provisioning wrote before: a Replay record has one name.
const OLD_FORMAT: u8 = 1;

/// Hours since the last IV Index Recovery at which the next one is allowed (section 3.10.6).
const RECOVERY_HOURS: u16 = 192;

/// What a node is provisioned with (Mesh Profile 1.0.1, section 5.4.2.5). All addresses of its elements are 0001 to 7fff. There
/// is no `Debug` of it, since it holds keys.
#[derive(Clone, Copy, PartialEq, Eq)]
pub struct Provision {
    /// The address of its first element.
    pub unicast: Address,
    /// The number of its elements, 1 to 4.
    pub elements: u8,
    /// The IV Index.
    pub iv: u32,
    /// Bit 0 is Key Refresh, and has no effect: the node holds the new key alone. Bit 1 is IV Update in Progress, which needs an IV
    /// Index of at least 1. The others are 0.
    pub flags: u8,
    /// The index of the network key, 12 bits.
    pub net_index: u16,
    /// The network key.
    pub net_key: [u8; 16],
    /// The device key.
    pub dev_key: [u8; 16],
}

impl Store {
    /// Makes the store of a node that is provisioned on an erased flash. At `Ok` it is durable. In every image that a cut at any moment
    /// leaves, no bank counts yet, or the records are those of provisioning.
    ///
    /// The condition is met by the fields of a script's line `provision`. Of the clauses on content, a flash that was just made or that
    /// went through a power cycle is fresh.
    pub fn provision<F: Flash>(flash: &mut F, p: &Provision) -> Result<Self, FormatFault>
        requires { IsProvision p.now }
        ensures cause { IfErr result (IsFormatCause (F.chip flash.old) (F.chip flash.new)) }
        ensures erased { IsTrue (F.chip flash.old).honest → OnOk result (IsErased (F.chip flash.old).now) }
        ensures unchanged { IsTrue (F.chip flash.old).honest → ¬ IsErased (F.chip flash.old).now
            → Stays (F.chip flash.old) (F.chip flash.new) }
        ensures no_calls { IsTrue (F.chip flash.old).honest → ¬ IsErased (F.chip flash.old).now
            → count_of (F.chip flash.new) ≡ count_of (F.chip flash.old) }
        ensures value { IfOk result
            (λ s. (s.journal ≡ record { bank = 0; used = 3; closed = false; generation = 1; version = 2 })
            × IsMeaningOf (provisioned (provisioning p.now)) s.persist) }
        ensures exactly { IsFresh (F.chip flash.old)
            → IfOk result (λ s. IsExactly (F.chip flash.new) s (provisioned (provisioning p.now))) }
        ensures kept { IsFresh (F.chip flash.old)
            → IfOk result (λ s. IsStoreOf (F.chip flash.new) s (provisioned (provisioning p.now))) }
        ensures durable { IsFresh (F.chip flash.old)
            → OnOk result
            ((c : List ℕ) → (F.chip flash.new).images c → IsRecovered c (provisioned (provisioning p.now))) }
        ensures any_moment { IsFresh (F.chip flash.old) → IsErased (F.chip flash.old).now
            → LeavesOnly (F.chip flash.old) (F.chip flash.new) (IsMade (provisioned (provisioning p.now))) }

        // two program calls for each record and two for the header
        ensures costs { CostsCalls (only_slots 4) result (F.chip flash.old) (F.chip flash.new) }

        // of every flash, honest or not
        ensures no_fault { OnOk result ((F.chip flash.new).faults ≡ (F.chip flash.old).faults) }
        ensures once { FailsOnce (F.chip flash.old) (F.chip flash.new) }
        ensures sure { IsTrue (F.chip flash.old).sure → IfErr result IsNotErased }
        ensures frame { Keeps (F.chip flash.old) (F.chip flash.new) }
    {
        let journal = Journal::format(flash, &first_slots(p), FORMAT)?;
        Ok(Store {
            journal,
            persist: first_persist(p),
        })
    }

    /// Writes what a node is provisioned with onto an erased flash in format 01, as nodes did before Replay records had two names. `mount`
    /// migrates it. At `Ok` it is durable. In every image that a cut at any moment leaves, no bank counts yet, or the records are those of
    /// provisioning.
    ///
    /// The conditions are those of `provision`.
    pub fn provision_old<F: Flash>(flash: &mut F, p: &Provision) -> Result<(), FormatFault>
        requires { IsProvision p.now }
        ensures cause { IfErr result (IsFormatCause (F.chip flash.old) (F.chip flash.new)) }
        ensures erased { IsTrue (F.chip flash.old).honest → OnOk result (IsErased (F.chip flash.old).now) }
        ensures unchanged { IsTrue (F.chip flash.old).honest → ¬ IsErased (F.chip flash.old).now
            → Stays (F.chip flash.old) (F.chip flash.new) }
        ensures no_calls { IsTrue (F.chip flash.old).honest → ¬ IsErased (F.chip flash.old).now
            → count_of (F.chip flash.new) ≡ count_of (F.chip flash.old) }
        ensures kept { IsFresh (F.chip flash.old) → OnOk result (IsFresh (F.chip flash.new)) }
        ensures durable { IsFresh (F.chip flash.old)
            → OnOk result
            ((c : List ℕ) → (F.chip flash.new).images c → IsOldNode (provisioned (provisioning p.now)) c) }
        ensures any_moment { IsFresh (F.chip flash.old) → IsErased (F.chip flash.old).now
            → LeavesOnly (F.chip flash.old) (F.chip flash.new) (IsMade (provisioned (provisioning p.now))) }

        // as many calls as `provision` makes
        ensures costs { CostsCalls (only_slots 4) result (F.chip flash.old) (F.chip flash.new) }

        // of every flash, honest or not
        ensures no_fault { OnOk result ((F.chip flash.new).faults ≡ (F.chip flash.old).faults) }
        ensures once { FailsOnce (F.chip flash.old) (F.chip flash.new) }
        ensures sure { IsTrue (F.chip flash.old).sure → IfErr result IsNotErased }
        ensures frame { Keeps (F.chip flash.old) (F.chip flash.new) }
    {
        Journal::format(flash, &first_slots(p), OLD_FORMAT)?;
        Ok(())
    }
}

/// The slots of the first records, in the order in which they are written.
fn first_slots(p: &Provision) -> [Slot; 3]
    requires { IsProvision p.now }
    ensures value { result ≡ map record_text (provisioned (provisioning p.now)) }
    ensures ranges { All IsInRange (provisioned (provisioning p.now)) }
{
    [
        encode(&identity(p)),
        encode(&numbers(p.iv, p.flags)),
        encode(&net_key(p)),
    ]
}

/// What the first records say.
fn first_persist(p: &Provision) -> Persist
    requires { IsProvision p.now }
    ensures value { IsMeaningOf (provisioned (provisioning p.now)) result }
    ensures said { IsSaid result }
{
    let mut persist = Persist::new();
    persist.apply(&identity(p)).unwrap();
    persist.apply(&numbers(p.iv, p.flags)).unwrap();
    persist.apply(&net_key(p)).unwrap();
    persist
}

/// What the node is.
fn identity(p: &Provision) -> StoreRecord
    requires { IsProvision p.now }
    ensures value { result ≡ StoreRecord.Identity p.now.unicast p.now.elements p.now.dev_key }
    ensures range { IsInRange result }
{
    are_octets(&p.dev_key);
    StoreRecord::Identity {
        unicast: p.unicast,
        elements: p.elements,
        dev_key: p.dev_key,
    }
}

/// The IV state and the mark: the first pair under the transmit IV Index. IV Index Recovery is allowed at once.
fn numbers(iv: u32, flags: u8) -> StoreRecord
    requires { HasTransmit (state_of iv flags) }
    ensures value { result
        ≡ StoreRecord.Numbers iv (state_of iv flags).progress (transmit_of (state_of iv flags) * 2 ^ 25) 0 192 }
    ensures range { IsInRange result }
{
    let state = IvState {
        current: iv,
        progress: flags / 2 % 2 == 1,
        hours: 0,
        since: RECOVERY_HOURS,
    };
    StoreRecord::Numbers {
        current: state.current,
        progress: state.progress,
        mark: u64::from(state.transmit()) << 25,
        hours: state.hours,
        since: state.since,
    }
}

/// The network key is added.
fn net_key(p: &Provision) -> StoreRecord
    requires { IsProvision p.now }
    ensures value { result ≡ StoreRecord.NetKey 1 p.now.net_index p.now.net_key }
    ensures range { IsInRange result }
{
    are_octets(&p.net_key);
    StoreRecord::NetKey {
        op: ADD,
        index: p.net_index,
        key: p.net_key,
    }
}

/// What the type of a slice says of its items, as a clause that a proof can cite.
fn are_octets(octets: &[u8])
    ensures { (i : ℕ) → slice_index octets.now i < 256 }
{}
