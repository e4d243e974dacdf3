//! Both nodes, and how a PDU goes from one to the other.

use friend_queue::{Friends, PollAnswer, Polled};
use low_power::{Lpn, LpnHeard, LpnJob, job_material};
use lower_transport::Lower;
use mesh_base::address::Address;
use mesh_base::control::{ControlMsg, Update};
use mesh_base::fields::{Heard, NetFields, NetMaterial};
use mesh_base::keys::NetKeyRow;
use mesh_base::octets::Octets;
use mesh_base::pair::{Name, Pair};
use mesh_base::table::HeardList;
use net_keys::master;
use network_layer::{NetReading, seal};
use upper_transport::{read_control, write_control};

/// The Low Power node's only element.
pub(crate) const LPN: Address = Address(0x1201);

/// The Friend node's first element.
pub(crate) const FRIEND: Address = Address(0x0100);

/// The IV Index.
const IV: u32 = 0x12345678;

/// The sample network key.
const KEY: [u8; 16] = [
    0x7d, 0xd7, 0x36, 0x4c, 0xd8, 0x42, 0xad, 0x18, 0xc1, 0x7c, 0x2b, 0x82, 0x0c, 0x84, 0xc3, 0xd6,
];

/// What becomes of octets that the Low Power node hears.
#[derive(Drop, PartialEq, Eq)]
pub(crate) enum Got {
    /// It reads nothing.
    Unread,
    /// No Poll is open.
    Unasked,
    /// They closed the last Poll.
    Repeat,
    /// A message of this SEQ.
    Message(u32),
    /// An Offer that is taken, and the Poll that answers it.
    Offer(LpnJob),
}

/// A Low Power node and a Friend node.
#[derive(Drop)]
pub(crate) struct Sides {
    /// The Low Power node.
    pub lpn: Lpn,
    /// The Friend node's friendships.
    pub friends: Friends,
    net: NetKeyRow,
    seq: u16,
}

/// The network PDU of these fields, if there is one.
fn sealed(m: &NetMaterial, f: &NetFields) -> Option<Octets<29>> {
    let most = if f.ctl { 12 } else { 16 };
    let length = f.tpdu.as_slice().len();
    if m.nid >= 0x80 || f.ttl >= 0x80 || f.seq >= 0x0100_0000 || length == 0 || length > most {
        return None;
    }
    Some(seal(m, f))
}

/// The control message of a PDU, if it is one.
fn control_of(r: &NetReading) -> ControlMsg {
    match lower_transport::read(r.fields.ctl, r.fields.tpdu.as_slice()) {
        Ok(Lower::Control { opcode, params }) => read_control(opcode, params.as_slice()),
        _ => ControlMsg::Other,
    }
}

/// An access PDU of this SEQ from another node.
pub(crate) fn message(seq: u16, dst: Address) -> NetFields {
    let mut tpdu = Octets::new();
    tpdu.extend(&[0x00, 1, 2, 3, 4, 5]);
    NetFields {
        iv: IV,
        ctl: false,
        ttl: 4,
        seq: u32::from(seq),
        src: Address(0x0300),
        dst,
        tpdu,
    }
}

impl Sides {
    /// Both before they know of each other.
    pub(crate) fn new() -> Sides {
        Sides {
            lpn: Lpn::new(LPN, 1),
            friends: Friends::new(),
            net: NetKeyRow {
                index: 0x456,
                phase: 0,
                key: KEY,
                next: None,
            },
            seq: 0,
        }
    }

    // The master credentials.
    fn master_key(&self) -> Heard {
        Heard {
            index: self.net.index,
            lpn: None,
            fresh: false,
            material: master(&self.net.key),
        }
    }

    // The fields of a control message that goes now, under a SEQ of its own.
    fn fields(&mut self, src: Address, dst: Address, text: &[u8]) -> NetFields {
        self.seq = self.seq.wrapping_add(1);
        let mut tpdu = Octets::new();
        for octet in text.iter().take(12) {
            let _ = tpdu.push(*octet);
        }
        NetFields {
            iv: IV,
            ctl: true,
            ttl: 0,
            seq: u32::from(self.seq),
            src,
            dst,
            tpdu,
        }
    }

    // The octets of a message of the Friend node, under this material.
    fn from_friend(&mut self, m: &NetMaterial, text: &[u8]) -> Option<Octets<29>> {
        let fields = self.fields(FRIEND, LPN, text);
        sealed(m, &fields)
    }

    // What answers a Poll, which is noted.
    fn answer(&mut self, by: &NetMaterial, fsn: bool, answer: PollAnswer) -> Option<Octets<29>> {
        let (name, pdu) = match answer {
            PollAnswer::Stored(f) => (name_of(&f), sealed(by, &f)?),
            PollAnswer::Update => {
                let update = ControlMsg::Update(Update {
                    flags: 0,
                    iv: IV,
                    more_data: 0,
                });
                let fields = self.fields(FRIEND, LPN, write_control(&update).as_slice());
                (name_of(&fields), sealed(by, &fields)?)
            }
            PollAnswer::Repeat { name: _, pdu } => return Some(pdu),
            PollAnswer::Own(_) | PollAnswer::Silent => return None,
        };
        let _ = self.friends.keep(LPN, fsn, &name, &pdu);
        Some(pdu)
    }

    /// The Friend node hears what the Low Power node sends, and answers it.
    pub(crate) fn hear_job(&mut self, job: &LpnJob) -> Option<Octets<29>> {
        let material = job_material(LPN, &self.net, job);
        let fields = self.fields(LPN, job.dst, job.tpdu.as_slice());
        let octets = sealed(&material, &fields)?;
        let mut keys = self.friends.credentials();
        let _ = keys.push(self.master_key());
        let r = network_layer::read(keys.as_slice(), IV, octets.as_slice()).ok()?;
        let by = r.by.material;
        match (control_of(&r), r.by.lpn) {
            (ControlMsg::Request(q), None) => {
                let offer = self
                    .friends
                    .request(0, &self.net, FRIEND, r.fields.src, &q)
                    .ok()?;
                self.from_friend(&by, write_control(&ControlMsg::Offer(offer)).as_slice())
            }
            (ControlMsg::Poll { fsn }, Some(_)) => {
                let Polled { answer, clear: _ } = self.friends.poll(0, r.fields.src, fsn).ok()?;
                self.answer(&by, fsn, answer)
            }
            (ControlMsg::ListAdd(l), Some(_)) => {
                self.friends
                    .list_add(0, r.fields.src, l.addresses.as_slice())
                    .ok()?;
                let confirm = ControlMsg::ListConfirm {
                    transaction: l.transaction,
                };
                self.from_friend(&by, write_control(&confirm).as_slice())
            }
            _ => None,
        }
    }

    /// What the Low Power node makes of octets.
    pub(crate) fn hear(&mut self, octets: &Option<Octets<29>>) -> Got {
        let Some(octets) = octets else {
            return Got::Unread;
        };
        let mut keys = HeardList::new();
        let _ = keys.push(self.master_key());
        if let Some(key) = self.lpn.heard(&self.net) {
            let _ = keys.push(key);
        }
        let Ok(r) = network_layer::read(keys.as_slice(), IV, octets.as_slice()) else {
            return Got::Unread;
        };
        match self.lpn.hear(&r) {
            LpnHeard::Unasked => Got::Unasked,
            LpnHeard::Repeat => Got::Repeat,
            LpnHeard::Pass => self.pass(&r),
        }
    }

    // What it makes of a PDU that passes.
    fn pass(&mut self, r: &NetReading) -> Got {
        let offered = match (control_of(r), r.by.lpn) {
            (ControlMsg::Offer(o), None) => self.lpn.offer(r.fields.src, o.friend_counter),
            _ => None,
        };
        match offered {
            Some(job) => Got::Offer(job),
            None => Got::Message(r.fields.seq),
        }
    }
}

// SRC, IV Index and SEQ of a network PDU.
fn name_of(f: &NetFields) -> Name {
    Name {
        src: f.src,
        pair: Pair {
            iv: f.iv,
            seq: f.seq,
        },
    }
}
