//! Which models take an access message (Mesh Profile 1.0.1, sections 3.7.4.1 and 3.7.4.2).
#![tactic(auto)]

ghost use Rattle.std.specs.Prelude.{◌≡◌, ◌&&◌, ◌==◌, ◌||◌, ℕ, List, bytes_eq};
ghost use Rattle.std.specs.List.{list_any};
ghost use Rattle.element_models.specs.Messages.{message_in};
ghost use Rattle.mesh_base.specs.Address.{is_group};
ghost use Rattle.mesh_base.specs.declared.address.Address.{Address};
ghost use Rattle.node_layers.specs.Models.{is_bound, is_fixed_group, is_to_element, is_to_group, is_to_label, takes};
ghost use Rattle.node_records.specs.Tables.{config_in};

use crate::message::Message;
use mesh_base::address::Address;
use mesh_base::keys::UpperKey;
use node_records::Persist;

// Whether a subscription is one of this model to this group.
fn is_group_of(s: &(Address, u16, Address), element: u32, model: u16, dst: Address) -> bool
    ensures { result ≡ (s.now.0.0 == element && s.now.1 == model && is_group s.now.2 && s.now.2.0 == dst.0) }
{
    u32::from(s.0.0) == element && s.1 == model && s.2.is_group() && s.2.0 == dst.0
}

// Whether a model subscribes to a group.
fn has_group(rows: &[(Address, u16, Address)], element: u32, model: u16, dst: Address) -> bool
    ensures { result
        ≡ list_any
        (λ (s : Address × ℕ × Address). s.0.0 == element && s.1 == model && is_group s.2 && s.2.0 == dst.0) rows.now }
{
    rows.iter().any(|s| is_group_of(s, element, model, dst))
}

// Whether two labels are the same.
fn is_same_label(a: &[u8; 16], b: &[u8; 16]) -> bool
    ensures { result ≡ bytes_eq a.now b.now }
{
    a.as_slice() == b.as_slice()
}

// Whether a subscription is one of this model to this label.
fn is_label_of(l: &(Address, u16, [u8; 16]), element: u32, model: u16, label: &[u8; 16]) -> bool
    ensures { result ≡ (l.now.0.0 == element && l.now.1 == model && bytes_eq l.now.2 label.now) }
{
    u32::from(l.0.0) == element && l.1 == model && is_same_label(&l.2, label)
}

// Whether a model subscribes to a label.
fn has_label(rows: &[(Address, u16, [u8; 16])], element: u32, model: u16, label: &[u8; 16]) -> bool
    ensures { result
        ≡ list_any (λ (l : Address × ℕ × List ℕ). l.0.0 == element && l.1 == model && bytes_eq l.2 label.now) rows.now }
{
    rows.iter().any(|l| is_label_of(l, element, model, label))
}

// Whether a binding is one of this model to this application key.
fn is_key_of(b: &(Address, u16, u16), element: u32, model: u16, index: u16) -> bool
    ensures { result ≡ (b.now.0.0 == element && b.now.1 == model && b.now.2 == index) }
{
    u32::from(b.0.0) == element && b.1 == model && b.2 == index
}

// Whether an application key is bound to a model.
fn has_key(rows: &[(Address, u16, u16)], element: u32, model: u16, index: u16) -> bool
    ensures { result ≡ list_any (λ (b : Address × ℕ × ℕ). b.0.0 == element && b.1 == model && b.2 == index) rows.now }
{
    rows.iter().any(|b| is_key_of(b, element, model, index))
}

// Whether DST is the address of the element.
fn is_to_element(p: &Persist, element: u8, m: &Message<'_>) -> bool
    ensures { result ≡ is_to_element (config_in p.now) element (message_in m.now) }
{
    p.element_number(element) == u32::from(m.dst.0)
}

// Whether DST is a group that the model subscribes to.
fn is_to_group(p: &Persist, element: u8, model: u16, m: &Message<'_>) -> bool
    ensures { result ≡ is_to_group (config_in p.now) element model (message_in m.now) }
{
    has_group(p.subs.as_slice(), p.element_number(element), model, m.dst)
}

// Whether the model subscribes to the label that opened the message.
fn is_to_label(p: &Persist, element: u8, model: u16, m: &Message<'_>) -> bool
    ensures { result ≡ is_to_label (config_in p.now) element model (message_in m.now) }
{
    match &m.label {
        Some(label) => has_label(p.labels.as_slice(), p.element_number(element), model, label),
        None => false,
    }
}

// Whether an address is that of all nodes, or of all friends or all relays where this node is one.
fn is_fixed_group(p: &Persist, dst: Address) -> bool
    ensures { result ≡ is_fixed_group (config_in p.now) dst }
{
    dst.0 == 0xffff || (dst.0 == 0xfffd && p.is_friend()) || (dst.0 == 0xfffe && p.relays())
}

// Whether the key that opened the message is bound to the model.
fn is_bound(p: &Persist, element: u8, model: u16, key: &UpperKey) -> bool
    ensures { result ≡ is_bound (config_in p.now) element model key.now }
{
    match key {
        UpperKey::Device(_) => false,
        UpperKey::App { index, .. } => {
            has_key(p.binds.as_slice(), p.element_number(element), model, *index)
        }
    }
}

/// Whether the model of an element takes a message: its key is bound to the model, and DST is the address of the element, a group or a label
/// that the model subscribes to, or, of the first element, a fixed group.
pub(crate) fn takes(p: &Persist, element: u8, model: u16, m: &Message<'_>) -> bool
    ensures { result ≡ takes (config_in p.now) element model (message_in m.now) }
{
    is_bound(p, element, model, &m.key)
        && (is_to_element(p, element, m)
            || is_to_group(p, element, model, m)
            || is_to_label(p, element, model, m)
            || (element == 0 && is_fixed_group(p, m.dst)))
}
