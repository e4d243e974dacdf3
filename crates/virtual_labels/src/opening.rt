//! Opening of an access message to a virtual address.
#![tactic(auto)]

ghost use Rattle.std.specs.Prelude.{◌≡◌, ◌≤◌, ◌↔◌, length, IsErr, IsNone, IfOk, IfSome};
ghost use Rattle.cipher_definitions.specs.Kdf.{virtual_address};
ghost use Rattle.layer_definitions.specs.Labels.{IsLabelUnopened, OpensLabel, with_label};
ghost use Rattle.layer_definitions.specs.Upper.{IsUnopened, Opens};

use mesh_base::keys::UpperKey;
use mesh_base::upper::UpperFields;
use node_limits::{HEARD_APPLICATION_KEYS, LABEL_SUBSCRIPTIONS};
use thiserror::Error;
use upper_transport::{Opened, unseal_access};

/// A message to a virtual address that opened.
#[derive(Drop)]
pub struct LabelOpened {
    /// The place, from 0 on, of the label that it was sealed with.
    pub label: u32,
    /// The place of the key that opened it, and its payload.
    pub opened: Opened,
}

/// No label and key open the message.
#[derive(Clone, Copy, Debug, PartialEq, Eq, Error)]
#[error("no label with this address opens the message")]
pub struct NoLabel;

// The fields with this label.
fn with(label: &[u8; 16], f: &UpperFields) -> UpperFields
    ensures { result ≡ with_label label.now f.now }
{
    UpperFields {
        label: Some(*label),
        ..*f
    }
}

// What the octets open to with this label, if DST is its address.
fn opened_with(keys: &[UpperKey], label: &[u8; 16], f: &UpperFields, upper: &[u8]) -> Option<Opened>
    requires keys { length keys.now ≤ HEARD_APPLICATION_KEYS }
    requires upper { length upper.now ≤ 384 }
    ensures address { IfSome result (λ _. virtual_address label.now ≡ f.now.dst.0) }
    ensures some { IfSome result (λ o. Opens keys.now (with_label label.now f.now) upper.now o.at o.payload) }
    ensures none { IsNone result → virtual_address label.now ≡ f.now.dst.0
        → IsUnopened keys.now (with_label label.now f.now) upper.now }
{
    if mesh_kdf::address(label) != f.dst.0 {
        return None;
    }
    match unseal_access(keys, &with(label, f), upper) {
        Ok(opened) => Some(opened),
        Err(_) => None,
    }
}

/// The first of the labels with DST as its address, and with it the first of the keys, that open the octets of an upper transport access
/// PDU. `NoLabel` comes exactly where no label and key do. The label of the fields isn't read.
///
/// There are at most 384 octets, `HEARD_APPLICATION_KEYS` keys and `LABEL_SUBSCRIPTIONS` labels.
pub fn unseal(
    keys: &[UpperKey],
    labels: &[[u8; 16]],
    f: &UpperFields,
    upper: &[u8],
) -> Result<LabelOpened, NoLabel>
    requires keys { length keys.now ≤ HEARD_APPLICATION_KEYS }
    requires labels { length labels.now ≤ LABEL_SUBSCRIPTIONS }
    requires upper { length upper.now ≤ 384 }
    ensures ok { IfOk result
        (λ o. OpensLabel keys.now labels.now f.now upper.now o.label o.opened.at o.opened.payload) }
    ensures no_label { IsErr result ↔ IsLabelUnopened keys.now labels.now f.now upper.now }
{
    for (place, label) in labels.iter().enumerate() {
        if let Some(opened) = opened_with(keys, label, f, upper) {
            return Ok(LabelOpened {
                label: place as u32,
                opened,
            });
        }
    }
    Err(NoLabel)
}
