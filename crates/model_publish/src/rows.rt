//! The rows of publications in their order, and which of them are due.
#![tactic(auto)]

ghost use Rattle.std.specs.Prelude.{◌≡◌, ℕ, ◌+◌, ◌*◌, ◌≤◌, ◌<◌, [], ◌∷◌, ◌++◌, length, map, filter, slice_index_or};
ghost use Rattle.std.specs.Bool.{OnFalse, OnTrue};
ghost use Rattle.layer_definitions.specs.Order.{put_by};
ghost use Rattle.model_states.specs.Publication.{accepted_at, has_period_ended, is_row_due, periods_over, publish_period, row_index};
ghost use Rattle.model_states.specs.Timing.{step_ticks};
ghost use Rattle.model_states.specs.declared.publication.Publication.{Publication};

use mesh_base::address::Address;
use mesh_base::table::Table;
use model_states::publication::Publication;
use record_types::records::PublishRow;

/// Rows that are due, by element and then by model.
pub type PublishList = Table<PublishRow, 8>;

/// The rows of a node's models: two models on each of at most 4 elements.
pub type Rows = Table<Publication, 8>;

// By what the rows are ordered: the element, then the model.
#[tactic(auto, unfolding(model_states::specs::Publication::row_index))]
fn row_index(p: &Publication) -> u32
    ensures { result ≡ row_index p.now }
{
    number_of(p.row.element, p.row.model)
}

// The number of an element and a model.
fn number_of(element: Address, model: u16) -> u32
    ensures { result ≡ element.0 * 65536 + model }
{
    u32::from(element.0) * 65536 + u32::from(model)
}

// The place of the first row that isn't before this index.
fn place_of(rows: &[Publication], index: u32) -> usize
    ensures within { result ≤ length rows.now }
    ensures before { (k : ℕ) (d : Publication) → k < result → row_index (slice_index_or rows.now k d) < index }
    ensures there { (d : Publication) → result < length rows.now
        → index ≤ row_index (slice_index_or rows.now result d) }
{
    for (place, row) in rows.iter().enumerate() {
        if row_index(row) >= index {
            return place;
        }
    }
    rows.len()
}

// Whether the row at a place has this index.
fn is_at(rows: &[Publication], place: usize, index: u32) -> bool
    ensures yes { OnTrue result (place < length rows.now) }
    ensures index { OnTrue result ((d : Publication) → row_index (slice_index_or rows.now place d) ≡ index) }
    ensures no { OnFalse result
        ((d : Publication) → place < length rows.now → row_index (slice_index_or rows.now place d) ≡ index → ⊥) }
{
    place < rows.len() && row_index(&rows[place]) == index
}

/// Puts a row in its place, in place of one of the same model. With it there are at most 8.
pub fn put(rows: &mut Rows, row: Publication)
    requires { length (put_by row_index row rows.old) ≤ 8 }
    ensures { rows.new ≡ put_by row_index row rows.old }
{
    let index = row_index(&row);
    let place = place_of(rows.as_slice(), index);
    if is_at(rows.as_slice(), place, index) {
        rows.set(place, row);
        return;
    }
    rows.insert(place, row).unwrap();
}

/// A row that is accepted at this moment.
pub fn accepted_at(now: u64, row: &PublishRow) -> Publication
    ensures { result ≡ accepted_at now row.now }
{
    Publication {
        row: *row,
        accepted: now,
    }
}

/// The ticks of a Publish Period.
pub(crate) fn publish_period(octet: u8) -> u64
    ensures { result ≡ publish_period octet }
{
    let step = match octet / 64 {
        0 => 10,
        1 => 100,
        2 => 1000,
        _ => 60_000,
    };
    u64::from(octet % 64) * step
}

// How many times a period is over from one moment to another; never, where it is 0.
fn periods_over(period: u64, accepted: u64, now: u64) -> u64
    ensures { result ≡ periods_over period accepted now }
{
    now.saturating_sub(accepted)
        .checked_div(period)
        .unwrap_or(0)
}

/// Whether some end of a period is behind the last moment at which was asked, and not behind this one.
pub fn has_period_ended(period: u64, accepted: u64, asked: u64, now: u64) -> bool
    ensures { result ≡ has_period_ended period accepted asked now }
{
    periods_over(period, accepted, asked) < periods_over(period, accepted, now)
}

/// Whether a row is due at this moment, when it was last asked at another.
pub fn is_row_due(asked: u64, now: u64, p: &Publication) -> bool
    ensures { result ≡ is_row_due asked now p.now }
{
    p.row.address.0 != 0 && has_period_ended(publish_period(p.row.period), p.accepted, asked, now)
}

// Puts a row behind the others, if it is due.
fn add_due(list: &mut PublishList, asked: u64, now: u64, held: &Publication)
    requires { length list.old < 8 }
    ensures { list.new ≡ list.old ++ map (λ (p : Publication). p.row) (filter (is_row_due asked now) (held.now ∷ [])) }
{
    if is_row_due(asked, now, held) {
        list.push(held.row).unwrap();
    }
}

/// The rows of these that are due at this moment, in their order.
pub fn rows_due(rows: &Rows, asked: u64, now: u64) -> PublishList
    ensures value { result ≡ map (λ (p : Publication). p.row) (filter (is_row_due asked now) rows.now) }
{
    let mut list = PublishList::new();
    for held in rows.as_slice() {
        add_due(&mut list, asked, now, held);
    }
    list
}
