//! Whether the octets of a line are those of the network PDU that it tells.
#![tactic(auto)]

ghost use Rattle.std.specs.Prelude.{◌≡◌, ◌<◌, ◌^◌, ◌↔◌, IsTrue, ℕ, Some};
ghost use Rattle.std.specs.Bool.{OnTrue, OnFalse};
ghost use Rattle.std.specs.List.{slice_get};
ghost use Rattle.std.specs.Option.{option_map};
ghost use Rattle.audit_definitions.specs.Seals.{AreToldBy, sealed_by};
ghost use Rattle.mesh_base.specs.declared.fields.NetFields.{NetFields as Fields};
ghost use Rattle.mesh_base.specs.declared.fields.NetMaterial.{NetMaterial as Material};
ghost use Rattle.log_audit.specs.Told.{HasHeader, Tells, IsSealedBy, IsSealedUnder};

use kept_keys::NetSchedules;
use mesh_base::address::Address;
use mesh_base::fields::NetFields;
use mesh_base::octets::Octets;
use mesh_base::pair::{Name, Pair};
use mesh_types::lines::Outcome;
use network_layer::read_one;

/// Whether two bits are the same.
fn are_same(a: bool, b: bool) -> bool
    ensures value { IsTrue result ↔ (a ≡ b) }
{
    if a { b } else { !b }
}

/// Whether a network PDU has this header and this destination.
fn has_header(
    fields: &NetFields,
    pair: Pair,
    ctl: bool,
    ttl: u8,
    src: Address,
    dst: Address,
) -> bool
    ensures value { IsTrue result ↔ HasHeader fields.now pair ctl ttl src dst }
{
    fields.iv == pair.iv
        && fields.seq == pair.seq
        && fields.ttl == ttl
        && fields.src.0 == src.0
        && fields.dst.0 == dst.0
        && are_same(fields.ctl, ctl)
}

/// Whether a network PDU has this transport PDU.
fn has_tpdu(fields: &NetFields, tpdu: &Octets<16>) -> bool
    ensures value { IsTrue result ↔ (fields.now.tpdu ≡ tpdu.now) }
{
    fields.tpdu.as_slice() == tpdu.as_slice()
}

/// Whether a result tells these fields.
fn tells(outcome: &Outcome, fields: &NetFields) -> bool
    ensures value { IsTrue result ↔ Tells outcome.now fields.now }
{
    match outcome {
        Outcome::Ctl {
            pair,
            ttl,
            src,
            dst,
            tpdu,
            ..
        } => has_header(fields, *pair, true, *ttl, *src, *dst) && has_tpdu(fields, tpdu),
        Outcome::Msg {
            pair,
            ttl,
            src,
            dst,
            ..
        } => has_header(fields, *pair, false, *ttl, *src, *dst),
        Outcome::Seg {
            pair,
            ttl,
            src,
            dst,
            ..
        } => has_header(fields, *pair, false, *ttl, *src, *dst),
        Outcome::Relay {
            pair,
            ctl,
            ttl,
            src,
            dst,
            tpdu,
            ..
        } => has_header(fields, *pair, *ctl, *ttl, *src, *dst) && has_tpdu(fields, tpdu),
        _ => false,
    }
}

/// What a result shows of a network PDU that went out: its name, and its octets.
pub fn shown(outcome: &Outcome) -> Option<(Name, &Octets<29>)>
    ensures value { option_map (λ s. record { name = s.0; octets = s.1.now }) result ≡ sealed_by outcome.now }
{
    match outcome {
        Outcome::Ctl { pair, src, pdu, .. } => Some((name_of(*src, *pair), pdu)),
        Outcome::Msg { pair, src, pdu, .. } => Some((name_of(*src, *pair), pdu)),
        Outcome::Seg { pair, src, pdu, .. } => Some((name_of(*src, *pair), pdu)),
        Outcome::Relay { pair, src, pdu, .. } => Some((name_of(*src, *pair), pdu)),
        _ => None,
    }
}

/// A name.
pub fn name_of(src: Address, pair: Pair) -> Name
    ensures value { result ≡ record { src = src; pair = pair } }
{
    Name { src, pair }
}

/// Whether the octets are the network PDU of fields that the result tells, under this key.
fn is_sealed_by(key: &NetSchedules, outcome: &Outcome, iv: u32, octets: &[u8]) -> bool
    requires nid { key.now.nid < 2 ^ 7 }
    requires iv { (f : Fields) → AreToldBy outcome.now f → f.iv ≡ iv }
    ensures value { IsTrue result ↔ IsSealedBy key.now outcome.now octets.now }
{
    match read_one(key, iv, octets) {
        Some(fields) => tells(outcome, &fields),
        None => false,
    }
}

/// Whether they are that under one of the keys.
pub fn is_sealed(keys: &[NetSchedules], outcome: &Outcome, iv: u32, octets: &[u8]) -> bool
    requires nids { (k : ℕ) (m : Material) → slice_get keys.now k ≡ Some m → m.nid < 2 ^ 7 }
    requires iv { (f : Fields) → AreToldBy outcome.now f → f.iv ≡ iv }
    ensures some { OnTrue result (IsSealedUnder keys.now outcome.now octets.now) }
    ensures none { OnFalse result (IsSealedUnder keys.now outcome.now octets.now → ⊥) }
{
    for key in keys {
        if is_sealed_by(key, outcome, iv, octets) {
            return true;
        }
    }
    false
}
