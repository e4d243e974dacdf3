//! An outside node: the octets that it seals, and what it keeps of the keys that it sealed with last.
#![tactic(auto)]

ghost use Rattle.std.specs.Prelude.{◌≡◌, Some};
ghost use Rattle.cipher_definitions.specs.Kdf.{virtual_address};
ghost use Rattle.layer_definitions.specs.Beacon.{beacon_text};
ghost use Rattle.layer_definitions.specs.Lower.{Fits};
ghost use Rattle.layer_definitions.specs.Network.{HasPdu, net_text};
ghost use Rattle.script_definitions.specs.Events as Said;
ghost use Rattle.script_definitions.specs.Ranges.{IsTalk};
ghost use Rattle.script_events.specs.Kept.{behind_talk, label_behind, nothing};

use crate::kept::{KeptCredentials, KeptKey, KeptLabel};
use crate::talking::{lower_of, tpdu_of};
use mesh_base::address::Address;
use mesh_base::fields::NetFields;
use mesh_base::lower::Lower;
use mesh_base::octets::Octets;
use script_definitions::line::{BeaconLine, PeerLine, ScriptNet, TalkDst, TalkLine};
use std::marker::Model;

/// An outside node, which seals what lines make heard. It keeps what it derived last of network credentials, of a key of messages, and of a
/// label, so that a line under the same ones derives nothing. What it answers is the same whatever it keeps. A clause sees what it keeps.
#[derive(Drop)]
pub struct OutsideNode {
    credentials: Option<KeptCredentials>,
    key: Option<KeptKey>,
    label: Option<KeptLabel>,
}

impl Model for OutsideNode {
    ghost use Rattle.script_events.specs.Kept.{Kept};

    ghost Value = { Kept };

    ghost view = { λ o. record { credentials = o.credentials; key = o.key; label = o.label } };
}

impl OutsideNode {
    /// An outside node that has sealed nothing yet.
    pub fn new() -> OutsideNode
        ensures value { result ≡ nothing }
    {
        OutsideNode {
            credentials: None,
            key: None,
            label: None,
        }
    }

    /// The network PDU of these fields under these credentials.
    fn seal(&mut self, net: &ScriptNet, fields: &NetFields) -> Octets<29>
        requires fields { HasPdu fields.now }
        ensures value { result ≡ net_text (Said.material_of net.now) fields.now }
        ensures kept { self.new ≡ record self.old { credentials = Some net.now } }
    {
        match &self.credentials {
            Some(kept) if kept.is_of(net) => kept.seal(fields),
            _ => self
                .credentials
                .insert(KeptCredentials::new(net))
                .seal(fields),
        }
    }

    /// The virtual address of a label.
    fn address_of(&mut self, label: &[u8; 16]) -> u16
        ensures value { result ≡ virtual_address label.now }
        ensures kept { self.new ≡ record self.old { label = Some label.now } }
    {
        match &self.label {
            Some(kept) if kept.is_of(label) => kept.address(),
            _ => self.label.insert(KeptLabel::new(label)).address(),
        }
    }

    /// The destination as an address.
    fn dst_of(&mut self, dst: &TalkDst) -> Address
        ensures value { result ≡ Said.dst_of dst.now }
        ensures kept { self.new ≡ record self.old { label = label_behind self.old.label dst.now } }
    {
        match dst {
            TalkDst::Address(address) => *address,
            TalkDst::Label(label) => Address(self.address_of(label)),
        }
    }

    /// The lower transport PDU of a line `talk` to this destination.
    fn lower_of(&mut self, dst: Address, talk: &TalkLine) -> Lower
        requires ranges { IsTalk talk.now }
        requires dst { dst ≡ Said.dst_of talk.now.pdu.dst }
        ensures value { result
            ≡ Said.lower_of talk.now.pdu.piece talk.now.key talk.now.pdu.auth (Said.talk_upper talk.now) }
        ensures fits { Fits result }
        ensures kept { self.new ≡ record self.old { key = Some talk.now.key } }
    {
        match &self.key {
            Some(kept) if kept.is_of(&talk.key) => lower_of(kept, dst, talk),
            _ => lower_of(self.key.insert(KeptKey::new(&talk.key)), dst, talk),
        }
    }

    /// The octets that are heard of a line `peer`: the network PDU of its fields, under its credentials.
    pub fn peer_octets(&mut self, peer: &PeerLine) -> Octets<29>
        requires fields { HasPdu peer.now.fields }
        ensures value { result ≡ Said.peer_text peer.now }
        ensures kept { self.new ≡ record self.old { credentials = Some peer.now.net } }
    {
        self.seal(&peer.net, &peer.fields)
    }

    /// The octets that are heard of a line `talk`: the network PDU with the whole message or one of its segments. The network PDU has the
    /// SEQ `seq`, and the message is sealed with `auth` and a TransMIC of 4 octets (Mesh Profile 1.0.1, section 3.4.4).
    pub fn talk_octets(&mut self, talk: &TalkLine) -> Octets<29>
        requires ranges { IsTalk talk.now }
        ensures value { result ≡ Said.talk_text talk.now }
        ensures kept { self.new ≡ behind_talk self.old talk.now }
    {
        let dst = self.dst_of(&talk.pdu.dst);
        let fields = NetFields {
            iv: talk.pdu.iv,
            ctl: false,
            ttl: talk.pdu.ttl,
            seq: talk.pdu.seq,
            src: talk.pdu.src,
            dst,
            tpdu: tpdu_of(&self.lower_of(dst, talk)),
        };
        self.seal(&talk.net, &fields)
    }
}

/// The octets that are heard of a line `beacon`: the Secure Network beacon of its fields (section 3.9.3).
pub fn beacon_octets(beacon: &BeaconLine) -> [u8; 22]
    ensures value { result ≡ beacon_text beacon.now.net_key beacon.now.flags beacon.now.iv }
{
    net_beacon::write(&beacon.net_key, beacon.flags, beacon.iv)
}
