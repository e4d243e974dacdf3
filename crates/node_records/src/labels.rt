//! The table of subscriptions to virtual addresses: the labels of each model.
#![tactic(auto)]

ghost use Rattle.std.specs.Prelude.{◌≡◌, ◌≤◌, ◌==◌, ◌&&◌, not, bytes_eq, length, filter};
ghost use Rattle.std.specs.List.{list_any};
ghost use Rattle.store_definitions.specs.Config.{is_label, labels_without, labels_after, labels_after_sub};

use mesh_base::address::Address;
use mesh_base::table::Table;
use node_limits::LABEL_SUBSCRIPTIONS;

/// Element, model and label of a subscription.
type Label = (Address, u16, [u8; 16]);

/// Whether a row is this element's, this model's and this label's.
fn is_row(row: &Label, element: Address, model: u16, label: &[u8; 16]) -> bool
    ensures { result ≡ is_label element model label.now row.now }
{
    row.0.0 == element.0 && row.1 == model && row.2.as_slice() == label.as_slice()
}

/// Whether a label is among these.
pub(crate) fn has_label(labels: &[Label], element: Address, model: u16, label: &[u8; 16]) -> bool
    ensures { result ≡ list_any (is_label element model label.now) labels.now }
{
    labels.iter().any(|row| is_row(row, element, model, label))
}

/// Adds a label, unless it is there.
fn add_label(
    labels: &mut Table<Label, LABEL_SUBSCRIPTIONS>,
    element: Address,
    model: u16,
    label: &[u8; 16],
)
    requires { length (labels_after 1 element model label.now labels.old) ≤ LABEL_SUBSCRIPTIONS }
    ensures { labels.new ≡ labels_after 1 element model label.now labels.old }
{
    if has_label(labels.as_slice(), element, model, label) {
        return;
    }
    let row = (element, model, *label);
    labels.push(row).unwrap();
}

/// The labels without this one.
fn drop_label(
    labels: &mut Table<Label, LABEL_SUBSCRIPTIONS>,
    element: Address,
    model: u16,
    label: &[u8; 16],
)
    ensures { labels.new ≡ filter (λ l. not (is_label element model label.now l)) labels.old }
{
    labels.retain(|row| !is_row(row, element, model, label));
}

/// The labels without those of a model.
fn drop_labels(labels: &mut Table<Label, LABEL_SUBSCRIPTIONS>, element: Address, model: u16)
    ensures { labels.new ≡ labels_without element model labels.old }
{
    labels.retain(|row| !(row.0.0 == element.0 && row.1 == model));
}

/// Puts a label in the place of all of its model.
fn overwrite_labels(
    labels: &mut Table<Label, LABEL_SUBSCRIPTIONS>,
    element: Address,
    model: u16,
    label: &[u8; 16],
)
    requires { length (labels_after 4 element model label.now labels.old) ≤ LABEL_SUBSCRIPTIONS }
    ensures { labels.new ≡ labels_after 4 element model label.now labels.old }
{
    drop_labels(labels, element, model);
    labels.push((element, model, *label)).unwrap();
}

/// The labels after a Label record, for which there is a place.
pub(crate) fn apply_to_labels(
    labels: &mut Table<Label, LABEL_SUBSCRIPTIONS>,
    op: u8,
    element: Address,
    model: u16,
    label: &[u8; 16],
)
    requires { length (labels_after op element model label.now labels.old) ≤ LABEL_SUBSCRIPTIONS }
    ensures { labels.new ≡ labels_after op element model label.now labels.old }
{
    match op {
        1 => add_label(labels, element, model, label),
        2 => drop_label(labels, element, model, label),
        4 => overwrite_labels(labels, element, model, label),
        _ => {}
    }
}

/// The labels after a Subscribe record: with all groups of a model its labels go.
pub(crate) fn apply_sub_to_labels(
    labels: &mut Table<Label, LABEL_SUBSCRIPTIONS>,
    op: u8,
    element: Address,
    model: u16,
)
    ensures { labels.new ≡ labels_after_sub op element model labels.old }
{
    if op == 3 || op == 4 {
        drop_labels(labels, element, model);
    }
}
