//! Access messages of this node.
#![tactic(auto)]

ghost use Rattle.std.specs.Prelude.{◌≡◌, ℕ, ◌+◌, ◌^◌, ◌<◌, ◌≤◌, [], ◌∷◌, length, nat_le, nat_lt, if◌then◌else◌, true, false, IsFalse, Some, None, IfSome};
ghost use Rattle.std.specs.Option.{option_to_list};
ghost use Rattle.layer_definitions.specs.Network.{net_text};
ghost use Rattle.mesh_types.specs.declared.lines.Outcome.TheVariants as O;
ghost use Rattle.mesh_types.specs.KeyName.{key_name_of};
ghost use Rattle.run_definitions.specs.Lines.{begin_event, kept_events};
ghost use Rattle.run_definitions.specs.Order.{is_outside};
ghost use Rattle.run_definitions.specs.Seals.{access_tpdu, aid_of_key, is_app_key, message_fields, own_upper};
ghost use Rattle.machine_contract.specs.Ranges.{IsEvent, IsUpperKey};
ghost use Rattle.job_sealing.specs.Sealed.{IsAccess, begins, long_outcome, message_text, short_outcome};

use crate::kept::KeptSeals;
use crate::lines::{Line, kept_event};
use lower_transport::Lower;
use mesh_base::address::Address;
use mesh_base::fields::{NetFields, NetMaterial};
use mesh_base::keys::UpperKey;
use mesh_base::octets::Octets;
use mesh_base::pair::{Name, Pair};
use mesh_base::upper::UpperFields;
use mesh_types::answers::KeyName;
use mesh_types::events::{Event, Outgoing};
use mesh_types::lines::Outcome;

/// The most octets of a payload that goes unsegmented, with a TransMIC of 4 octets.
pub const UNSEGMENTED: usize = 11;

/// An access message but for its payload.
#[derive(Clone, Copy)]
pub struct Access {
    /// The index of the network key, 12 bits.
    pub net: u16,
    /// The material that seals the network PDU.
    pub material: NetMaterial,
    /// The key that seals the payload.
    pub key: UpperKey,
    /// The pair drawn for it.
    pub pair: Pair,
    /// TTL, below 128.
    pub ttl: u8,
    /// SRC.
    pub src: Address,
    /// DST.
    pub dst: Address,
}

/// The upper transport PDU.
fn upper_of(kept: &mut KeptSeals, access: &Access, payload: &[u8]) -> Octets<384>
    requires least { 1 ≤ length payload.now }
    requires most { length payload.now ≤ 380 }
    ensures value { result ≡ own_upper access.now.key access.now.pair access.now.src access.now.dst payload.now }
    ensures length { length result ≡ length payload.now + 4 }
{
    let fields = UpperFields {
        pair: access.pair,
        src: access.src,
        dst: access.dst,
        long_mic: false,
        label: None,
    };
    kept.seal_access(&access.key, &fields, payload)
}

/// Whether an application key seals, and its AID, which is 0 for a device key.
fn key_bits(key: &UpperKey) -> (bool, u8)
    requires key { IsUpperKey key.now }
    ensures akf { result.0 ≡ is_app_key key.now }
    ensures aid { result.1 ≡ aid_of_key key.now }
    ensures range { result.1 < 2 ^ 6 }
    ensures device { IsFalse result.0 → result.1 ≡ 0 }
{
    match key {
        UpperKey::Device(_) => (false, 0),
        UpperKey::App { aid, .. } => (true, *aid),
    }
}

/// The transport PDU of an upper transport PDU that goes unsegmented.
fn unsegmented(key: &UpperKey, upper: &[u8]) -> Octets<16>
    requires key { IsUpperKey key.now }
    requires least { 5 ≤ length upper.now }
    requires most { length upper.now ≤ 15 }
    ensures value { result ≡ access_tpdu key.now upper.now }
    ensures length { length result ≡ length upper.now + 1 }
{
    let mut octets = Octets::new();
    octets.extend(upper);
    let (akf, aid) = key_bits(key);
    lower_transport::write(&Lower::Access {
        akf,
        aid,
        upper: octets,
    })
}

/// The line of a message that goes out in one PDU: at most 11 octets of payload.
pub fn short_line(
    kept: &mut KeptSeals,
    access: &Access,
    payload: &[u8],
    keep: &Option<(Address, bool)>,
) -> Line
    requires access { IsAccess access.now }
    requires least { 1 ≤ length payload.now }
    requires most { length payload.now ≤ 11 }
    ensures value { result.outcome ≡ short_outcome access.now payload.now }
    ensures next { option_to_list result.next
        ≡ kept_events keep.now access.now.src access.now.pair (message_text access.now payload.now) }
    ensures own { IfSome result.next (λ e. is_outside e ≡ false) }
    ensures range { (elements : ℕ) → IfSome result.next (IsEvent elements) }
{
    let upper = upper_of(kept, access, payload);
    let fields = NetFields {
        iv: access.pair.iv,
        ctl: false,
        ttl: access.ttl,
        seq: access.pair.seq,
        src: access.src,
        dst: access.dst,
        tpdu: unsegmented(&access.key, upper.as_slice()),
    };
    let pdu = kept.seal(&access.material, &fields);
    let name = Name {
        src: access.src,
        pair: access.pair,
    };
    let mut text = Octets::new();
    text.extend(payload);
    Line {
        next: kept_event(keep, name, &pdu),
        outcome: Outcome::Msg {
            pair: access.pair,
            ttl: access.ttl,
            src: access.src,
            dst: access.dst,
            key: KeyName::of(&access.key),
            payload: text,
            pdu,
        },
    }
}

/// The line of a message whose upper transport PDU is sealed, and whose segments are to be sent then.
pub fn long_line(kept: &mut KeptSeals, access: &Access, payload: &[u8]) -> Line
    requires access { IsAccess access.now }
    requires least { 11 < length payload.now }
    requires most { length payload.now ≤ 380 }
    ensures value { result.outcome ≡ long_outcome access.now payload.now }
    ensures next { option_to_list result.next ≡ begins access.now payload.now ∷ [] }
    ensures own { IfSome result.next (λ e. is_outside e ≡ false) }
    ensures range { (elements : ℕ) → IfSome result.next (IsEvent elements) }
{
    let (akf, aid) = key_bits(&access.key);
    let mut text = Octets::new();
    text.extend(payload);
    Line {
        next: Some(Event::Begin(Outgoing {
            name: Name {
                src: access.src,
                pair: access.pair,
            },
            dst: access.dst,
            ttl: access.ttl,
            net: access.net,
            akf,
            aid,
            upper: upper_of(kept, access, payload),
        })),
        outcome: Outcome::Long {
            pair: access.pair,
            ttl: access.ttl,
            src: access.src,
            dst: access.dst,
            key: KeyName::of(&access.key),
            payload: text,
        },
    }
}
