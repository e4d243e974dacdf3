//! Sealing of a network PDU (Mesh Profile 1.0.1, sections 3.4.4, 3.8.7.2 and 3.8.7.3).
#![tactic(auto)]

ghost use Rattle.std.specs.Prelude.{◌≡◌, ◌+◌, ◌*◌, ◌%◌, ◌<◌, ◌≤◌, ◌⊎◌, ◌^◌, ◌++◌, [], ◌∷◌, length};
ghost use Rattle.cipher_definitions.specs.Ccm.{ccm_text, ccm_mic};
ghost use Rattle.layer_definitions.specs.Network.{HasPdu, net_mic_length, net_text, network_nonce, network_plaintext, sealed_part};

use crate::fields::{header, nonce, plaintext};
use crate::obfuscation::{mask, masked};
use aes_block::Schedule;
use arrayvec::ArrayVec;
use kept_keys::NetSchedules;
use mesh_base::fields::{NetFields, NetMaterial};
use mesh_base::octets::Octets;

// Encrypts the octets of `text` in place, and writes their MIC.
fn seal_in_place(schedule: &Schedule, nonce: &[u8; 13], text: &mut ArrayVec<u8, 18>, mic: &mut [u8])
    requires { (length mic.old ≡ 4) ⊎ (length mic.old ≡ 8) }
    ensures text { text.new.items ≡ ccm_text schedule.now nonce.now text.old.items }
    ensures mic { mic.new ≡ ccm_mic schedule.now nonce.now [] text.old.items (length mic.old) }
{
    aes_ccm::seal(schedule, nonce, &[], text.as_mut_slice(), mic);
}

// EncDST, EncTransportPDU and NetMIC, with room for NetMIC given.
#[tactic(auto, unfolding(layer_definitions::specs::Network::sealed_part))]
fn sealed_with(m: &NetSchedules, f: &NetFields, mic: &mut [u8]) -> Octets<22>
    requires fields { HasPdu f.now }
    requires mic { length mic.old ≡ net_mic_length f.now.ctl }
    requires mic_length { (length mic.old ≡ 4) ⊎ (length mic.old ≡ 8) }
    ensures { result ≡ sealed_part m.now f.now }
{
    let mut text = plaintext(f);
    seal_in_place(m.encryption(), &nonce(&header(f), f.iv), &mut text, mic);
    let mut sealed = Octets::new();
    sealed.extend(text.as_slice());
    sealed.extend(mic);
    sealed
}

// EncDST, EncTransportPDU and NetMIC.
fn sealed(m: &NetSchedules, f: &NetFields) -> Octets<22>
    requires { HasPdu f.now }
    ensures { result ≡ sealed_part m.now f.now }
{
    if f.ctl {
        sealed_with(m, f, &mut [0; 8])
    } else {
        sealed_with(m, f, &mut [0; 4])
    }
}

/// The octets of the network PDU of these fields under this material, by its kept schedules.
///
/// NID is below 128, TTL below 128 and SEQ below 2^24; the transport PDU has 1 to 16 octets, or 1 to 12 in a control message.
#[tactic(auto, unfolding(layer_definitions::specs::Network::net_text))]
pub fn seal_kept(m: &NetSchedules, f: &NetFields) -> Octets<29>
    requires nid { m.now.nid < 2 ^ 7 }
    requires fields { HasPdu f.now }
    ensures value { result ≡ net_text m.now f.now }
{
    let sealed = sealed(m, f);
    let mask = mask(m, f.iv, sealed.as_slice());
    let mut pdu = Octets::new();
    pdu.extend(&[(f.iv % 2) as u8 * 0x80 + m.nid()]);
    pdu.extend(&masked(&header(f), &mask[..6]));
    pdu.extend(sealed.as_slice());
    pdu
}

/// The octets of the network PDU of these fields under this material, whose schedules are made for this PDU alone.
///
/// NID is below 128, TTL below 128 and SEQ below 2^24; the transport PDU has 1 to 16 octets, or 1 to 12 in a control message.
pub fn seal(m: &NetMaterial, f: &NetFields) -> Octets<29>
    requires nid { m.now.nid < 2 ^ 7 }
    requires fields { HasPdu f.now }
    ensures value { result ≡ net_text m.now f.now }
{
    seal_kept(&NetSchedules::new(m), f)
}
