//! Tables of rows that stand by a number, at most one row for each.
#![tactic(auto)]

ghost use Rattle.std.specs.Prelude.{◌≡◌, ℕ, ◌+◌, ◌*◌, ◌<◌, ◌≤◌, length, slice_index_or};
ghost use Rattle.std.specs.Bool.{OnTrue, OnFalse};
ghost use Rattle.layer_definitions.specs.Order.{put_by};
ghost use Rattle.layer_definitions.specs.KeyRefresh.{net_index, app_index};
ghost use Rattle.store_definitions.specs.Config.{publication_index};
ghost use Rattle.node_records.specs.Growth.{is_new};

use mesh_base::address::Address;
use mesh_base::keys::{AppKeyRow, NetKeyRow};
use mesh_base::table::Table;
use record_types::records::PublishRow;

/// A row that stands by a number.
pub(crate) trait Keyed: Copy + Default {
    // The number by which it stands.
    ghost key: { Self → ℕ };

    /// The number by which it stands.
    fn number(&self) -> u32
        ensures value { result ≡ key self.now };
}

/// A network key stands by its index.
impl Keyed for NetKeyRow {
    ghost key = { net_index };

    fn number(&self) -> u32 {
        u32::from(self.index)
    }
}

/// An application key stands by its index.
impl Keyed for AppKeyRow {
    ghost key = { app_index };

    fn number(&self) -> u32 {
        u32::from(self.index)
    }
}

/// A publication stands by its element, and then by its model.
impl Keyed for PublishRow {
    ghost key = { publication_index };

    fn number(&self) -> u32 {
        model_number(self.element, self.model)
    }
}

/// The number of an element and a model.
fn model_number(element: Address, model: u16) -> u32
    ensures { result ≡ element.0 * 65536 + model }
{
    u32::from(element.0) * 65536 + u32::from(model)
}

/// The place of the first row that isn't below this number.
fn place_of<R: Keyed>(rows: &[R], number: u32) -> usize
    ensures within { result ≤ length rows.now }
    ensures before { (k : ℕ) (d : R) → k < result → R.key (slice_index_or rows.now k d) < number }
    ensures there { (d : R) → result < length rows.now → number ≤ R.key (slice_index_or rows.now result d) }
{
    for (place, row) in rows.iter().enumerate() {
        if row.number() >= number {
            return place;
        }
    }
    rows.len()
}

/// Whether the row at a place has this number.
fn is_at<R: Keyed>(rows: &[R], place: usize, number: u32) -> bool
    ensures yes { OnTrue result (place < length rows.now) }
    ensures number { OnTrue result ((d : R) → R.key (slice_index_or rows.now place d) ≡ number) }
    ensures no { OnFalse result
        ((d : R) → place < length rows.now → R.key (slice_index_or rows.now place d) ≡ number → ⊥) }
{
    place < rows.len() && rows[place].number() == number
}

/// Puts a row in its place by number, in place of the one with its number.
pub(crate) fn put<R: Keyed, const N: usize>(rows: &mut Table<R, N>, row: R)
    requires { length (put_by R.key row rows.old) ≤ N }
    ensures { rows.new ≡ put_by R.key row rows.old }
{
    let number = row.number();
    let place = place_of(rows.as_slice(), number);
    if is_at(rows.as_slice(), place, number) {
        rows.set(place, row);
        return;
    }
    rows.insert(place, row).unwrap();
}

/// Whether a row of this number would come as a new one: the rows stand by number.
pub(crate) fn adds<R: Keyed>(rows: &[R], number: u32) -> bool
    ensures { result ≡ is_new R.key number rows.now }
{
    for row in rows {
        if row.number() >= number {
            return row.number() != number;
        }
    }
    true
}
