//! What a Low Power node keeps in memory.
#![tactic(auto)]

ghost use Rattle.std.specs.Prelude.{◌≡◌, ◌++◌, ◌≤◌, ℕ, false, IfSome, IsNone, length};
ghost use Rattle.std.specs.Option.{option_map};
ghost use Rattle.event_definitions.specs.Readings.{IsOpenedUnder, fields_heard};
ghost use Rattle.layer_definitions.specs.KeyRefresh.{heard_keys};
ghost use Rattle.layer_definitions.specs.Network.{IsUnread, Reads};
ghost use Rattle.low_power_definitions.specs.State.{no_friend};
ghost use Rattle.low_power_machine.specs.Memory.{IsFitFor, keys_under};
ghost use Rattle.low_power_role.specs.Readings.{friend_keys, own_nets};
ghost use Rattle.mesh_reading.specs.Held.{opening_of, reading_of};
ghost use Rattle.node_records.specs.Tables.{config_in};

use kept_keys::UpperSchedule;
use low_power::Lpn;
use mesh_base::keys::{NetKeyRow, UpperKey};
use mesh_base::pair::Name;
use mesh_base::table::HeardList;
use mesh_base::upper::UpperFields;
use mesh_reading::{NetReading, Opened, read_under};
use net_keys::NetKeys;
use node_records::Persist;
use upper_transport::open_kept;

/// What a Low Power node keeps in memory: what it knows of its friend, and what is derived from the keys by which it reads.
#[derive(Drop)]
pub struct Memory {
    /// What it knows of its friend.
    pub(crate) lpn: Lpn,
    /// The first network key.
    pub(crate) nets: NetKeys,
    /// The credentials of the friendship, if there is one.
    pub(crate) friend: HeardList,
    /// The device key.
    pub(crate) device: UpperSchedule,
}

// The first network key, if there is one.
pub(crate) fn first_nets(p: &Persist) -> &[NetKeyRow]
    ensures value { result.now ≡ own_nets (config_in p.now) }
    ensures length { length result.now ≤ 1 }
{
    let nets = p.nets.as_slice();
    &nets[..nets.len().min(1)]
}

// The credentials that are heard of the friend.
fn friend_keys(p: &Persist, lpn: &Lpn) -> HeardList
    ensures value { result ≡ friend_keys (config_in p.now) lpn.now }
{
    let mut list = HeardList::new();
    if let Some(net) = first_nets(p).first() {
        if let Some(heard) = lpn.heard(net) {
            let _ = list.push(heard);
        }
    }
    list
}

impl Memory {
    /// At the beginning of a life: there is no friend.
    pub(crate) fn new(p: &Persist) -> Memory
        ensures fit { IsFitFor result p.now }
        ensures lpn { result.lpn ≡ no_friend p.now.unicast p.now.elements }
    {
        let lpn = Lpn::new(p.unicast, p.elements);
        let friend = friend_keys(p, &lpn);
        Memory {
            lpn,
            nets: NetKeys::derive(first_nets(p)),
            friend,
            device: UpperSchedule::new(&UpperKey::Device(p.dev_key)),
        }
    }

    /// The credentials of the friend anew, where there may be another friend.
    pub(crate) fn renew(&mut self, p: &Persist)
        ensures friend { self.new.friend ≡ friend_keys (config_in p.now) self.old.lpn }
        ensures lpn { self.new.lpn ≡ self.old.lpn }
        ensures nets { self.new.nets ≡ self.old.nets }
        ensures device { self.new.device ≡ self.old.device }
    {
        self.friend = friend_keys(p, &self.lpn);
    }

    /// What octets read as, under the first network key and the credentials of the friendship.
    pub(crate) fn read(&self, current: u32, octets: &[u8]) -> Option<NetReading>
        ensures some { IfSome result
            (λ r. (place : ℕ)
            × Reads (heard_keys self.now.nets ++ self.now.friend) current octets.now r.fields place r.by) }
        ensures none { IsNone result → IsUnread (heard_keys self.now.nets ++ self.now.friend) current octets.now }
    {
        read_under(&self.nets, self.friend.as_slice(), current, octets)
    }

    /// What the octets of an upper transport access PDU, at most 384, open to: under the device key where DST is unicast, and else under none.
    pub(crate) fn open(
        &self,
        r: &NetReading,
        name: &Name,
        akf: bool,
        upper: &[u8],
    ) -> Option<Opened>
        requires { length upper.now ≤ 384 }
        ensures value { IsOpenedUnder (keys_under self.now.device r.now.fields.dst akf)
            (fields_heard (reading_of r.now) name.now false) upper.now (option_map opening_of result) }
    {
        if akf || !r.fields.dst.is_unicast() {
            return None;
        }
        let f = UpperFields {
            pair: name.pair,
            src: r.fields.src,
            dst: r.fields.dst,
            long_mic: false,
            label: None,
        };
        let payload = open_kept(&self.device, &f, upper)?;
        Some(Opened {
            key: self.device.key(),
            label: None,
            payload,
        })
    }
}
