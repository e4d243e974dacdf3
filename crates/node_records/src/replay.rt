//! The replay list: the greatest pair accepted of each source. Its rows stand by their sources, so that the row of a source is found by
//! halving the list, without any memory beside it.
#![tactic(auto)]

ghost use Rattle.std.specs.Prelude.{◌≡◌, ℕ, ◌+◌, ◌<◌, ◌≤◌, ◌↔◌, ◌==◌, not, false, true, if◌then◌else◌, [], Some, None, IsTrue, IsOk, OnOk, OnErr, length, slice_index_or, IfSome, IfNone};
ghost use Rattle.mesh_base.specs.declared.pair.Name.{Name};
ghost use Rattle.mesh_base.specs.Pairs.{is_newer, is_expired};
ghost use Rattle.store_definitions.specs.Entries.{unexpired};
ghost use Rattle.node_records.specs.Places.{has_row, live_of, live_with, adds_live, LacksPlace};
ghost use Rattle.node_records.specs.Sources.{StandsBySource};
ghost use Rattle.node_records.specs.Steps.{KeepsName, KeepsEntries};
ghost use Rattle.node_records.specs.Tables.{pair_of, IsApart};
ghost use Rattle.record_types.specs.declared.records.StoreRecord.TheVariants as R;

use mesh_base::octets::TooMany;
use mesh_base::pair::{Name, Pair};
use mesh_base::table::Table;
use node_limits::REPLAY_ENTRIES;
use std::marker::Model;

/// The greatest pair accepted of each source, at most [`REPLAY_ENTRIES`] of them. A clause sees the list of its rows, which stand by
/// their sources.
#[derive(Drop)]
pub struct ReplayList {
    rows: Table<Name, REPLAY_ENTRIES>,
}

impl Model for ReplayList {
    ghost use Rattle.std.specs.Prelude.{List};
    ghost use Rattle.mesh_base.specs.declared.pair.Name.{Name};
    ghost use Rattle.node_records.specs.Sources.{StandsBySource};

    ghost Value = { List Name };

    ghost view = { λ r. r.rows };

    ghost invariant = { λ r. StandsBySource r.rows };
}

impl ReplayList {
    ghost use Rattle.std.specs.Prelude.{◌≡◌, ◌≤◌, ◌↔◌, [], length, IfSome, IsTrue};
    ghost use Rattle.store_definitions.specs.Entries.{unexpired};
    ghost use Rattle.node_records.specs.Places.{live_of, live_with, LacksPlace};
    ghost use Rattle.node_records.specs.Sources.{StandsBySource};
    ghost use Rattle.node_records.specs.Steps.{KeepsEntries};
    ghost use Rattle.node_records.specs.Tables.{pair_of, IsApart};
    ghost use Rattle.record_types.specs.declared.records.StoreRecord.TheVariants as R;

    /// No rows.
    pub fn new() -> ReplayList
        ensures value { result ≡ [] }
    {
        ReplayList { rows: Table::new() }
    }

    /// The number of rows, those that are expired too.
    pub fn len(&self) -> usize
        ensures value { result ≡ length self.now }
        ensures length { result ≤ REPLAY_ENTRIES }
    {
        self.rows.len()
    }

    /// Whether there are no rows.
    pub fn is_empty(&self) -> bool
        ensures { IsTrue result ↔ (self.now ≡ []) }
    {
        self.rows.is_empty()
    }

    /// The rows, by their sources.
    pub fn as_slice(&self) -> &[Name]
        ensures value { result.now ≡ self.now }
        ensures length { length result.now ≤ REPLAY_ENTRIES }
        ensures order { StandsBySource result.now }
    {
        self.rows.as_slice()
    }

    /// The pair of a source's row, unless it is expired under the known IV Index `current`.
    pub(crate) fn entry(&self, current: u32, src: u16) -> Option<Pair>
        ensures { result ≡ unexpired current (pair_of self.now src) }
    {
        entry_among(self.rows.as_slice(), current, src)
    }

    /// The list after a Replay record, for whose names there is a place.
    pub(crate) fn apply(&mut self, current: u32, first: &Name, second: &Option<Name>)
        requires first { LacksPlace (live_of current self.old) first.now → ⊥ }
        requires second { IfSome second.now
            (λ name. LacksPlace (live_with current (live_of current self.old) first.now) name → ⊥) }
        ensures { IsApart self.old → KeepsEntries current self.old self.new (R.Replay first.now second.now) }
    {
        apply_to_rows(&mut self.rows, current, first, second);
    }

    /// Whether a name has no place.
    pub(crate) fn lacks_place(&self, current: u32, name: &Name) -> bool
        ensures { IsTrue result ↔ LacksPlace (live_of current self.now) name.now }
    {
        lacks_place(self.rows.as_slice(), current, name)
    }

    /// Whether a second name has no place after a first one.
    pub(crate) fn lacks_place_after(&self, current: u32, first: &Name, name: &Name) -> bool
        ensures { IsTrue result ↔ LacksPlace (live_with current (live_of current self.now) first.now) name.now }
    {
        lacks_place_after(self.rows.as_slice(), current, first, name)
    }
}

/// Whether a pair is above another, by the IV Index first.
fn is_above(pair: &Pair, other: &Pair) -> bool
    ensures { result ≡ is_newer pair.now other.now }
{
    other.iv < pair.iv || (other.iv == pair.iv && other.seq < pair.seq)
}

/// The place of the first row whose source isn't below this one.
fn place_of(rows: &[Name], src: u16) -> usize
    requires order { StandsBySource rows.now }
    ensures within { result ≤ length rows.now }
    ensures before { (k : ℕ) (d : Name) → k < result → (slice_index_or rows.now k d).src.0 < src }
    ensures there { (k : ℕ) (d : Name) → result ≤ k → k < length rows.now → src ≤ (slice_index_or rows.now k d).src.0 }
{
    rows.partition_point(|row| row.src.0 < src)
}

/// Whether the row at a place is that of a source.
fn is_at(rows: &[Name], place: usize, src: u16) -> bool
    ensures within { result ≡ true → place < length rows.now }
    ensures source { result ≡ true → (d : Name) → (slice_index_or rows.now place d).src.0 ≡ src }
    ensures other { result ≡ false → (d : Name) → place < length rows.now
        → (slice_index_or rows.now place d).src.0 ≡ src → ⊥ }
{
    place < rows.len() && rows[place].src.0 == src
}

/// The place of a source's row.
fn row_of(rows: &[Name], src: u16) -> Option<usize>
    requires order { StandsBySource rows.now }
    ensures some { IfSome result
        (λ i. (i < length rows.now) × ((d : Name) → (slice_index_or rows.now i d).src.0 ≡ src)) }
    ensures first { IfSome result (λ i. (k : ℕ) (d : Name) → k < i → (slice_index_or rows.now k d).src.0 ≡ src → ⊥) }
    ensures none { IfNone result
        ((k : ℕ) (d : Name) → k < length rows.now → (slice_index_or rows.now k d).src.0 ≡ src → ⊥) }
{
    let place = place_of(rows, src);
    if is_at(rows, place, src) {
        Some(place)
    } else {
        None
    }
}

/// A pair, unless it is expired.
fn live_pair(current: u32, pair: Pair) -> Option<Pair>
    ensures { result ≡ unexpired current (Some pair) }
{
    if pair.is_expired(current) {
        None
    } else {
        Some(pair)
    }
}

/// The pair of a source's row, unless it is expired.
fn entry_among(rows: &[Name], current: u32, src: u16) -> Option<Pair>
    requires order { StandsBySource rows.now }
    ensures { result ≡ unexpired current (pair_of rows.now src) }
{
    match row_of(rows, src) {
        Some(place) => live_pair(current, rows[place].pair),
        None => None,
    }
}

/// The place of the first row that is expired.
fn first_expired(rows: &[Name], current: u32) -> Option<usize>
    ensures some { IfSome result
        (λ i. (i < length rows.now) × ((d : Name) → is_expired current (slice_index_or rows.now i d).pair ≡ true)) }
    ensures none { IfNone result
        ((k : ℕ) (d : Name) → k < length rows.now → is_expired current (slice_index_or rows.now k d).pair ≡ false) }
{
    for (place, row) in rows.iter().enumerate() {
        if row.pair.is_expired(current) {
            return Some(place);
        }
    }
    None
}

/// Puts a name into its source's row where it is above what stands there.
fn raise(rows: &mut Table<Name, REPLAY_ENTRIES>, current: u32, place: usize, name: &Name)
    requires order { StandsBySource rows.old }
    requires within { place < length rows.old }
    requires source { (d : Name) → (slice_index_or rows.old place d).src.0 ≡ name.now.src.0 }
    ensures order { StandsBySource rows.new }
    ensures keeps { KeepsName current rows.old rows.new name.now }
{
    if is_above(&name.pair, &rows.as_slice()[place].pair) {
        rows.set(place, *name);
    }
}

/// Puts the name of a source without a row into its place; `TooMany` exactly where all places are taken.
fn put_row(rows: &mut Table<Name, REPLAY_ENTRIES>, name: &Name) -> Result<(), TooMany>
    requires order { StandsBySource rows.old }
    requires none { pair_of rows.old name.now.src.0 ≡ None }
    ensures variant { IsOk result ↔ (length rows.old < REPLAY_ENTRIES) }
    ensures order { StandsBySource rows.new }
    ensures ok { OnOk result ((src : ℕ) → pair_of rows.new src
        ≡ (if name.now.src.0 == src then Some name.now.pair else pair_of rows.old src)) }
    ensures unchanged { OnErr result (rows.new ≡ rows.old) }
{
    let place = place_of(rows.as_slice(), name.src.0);
    rows.insert(place, *name)
}

/// Takes the row at a place away, and puts the name of a source without a row into its own place.
fn replace(rows: &mut Table<Name, REPLAY_ENTRIES>, place: usize, name: &Name)
    requires order { StandsBySource rows.old }
    requires within { place < length rows.old }
    requires none { pair_of rows.old name.now.src.0 ≡ None }
    ensures order { StandsBySource rows.new }
    ensures value { (src : ℕ) (d : Name) → pair_of rows.new src
        ≡ (if name.now.src.0 == src then Some name.now.pair
        else if (slice_index_or rows.old place d).src.0 == src then None else pair_of rows.old src) }
{
    let _held = rows.len();
    rows.remove(place);
    put_row(rows, name).unwrap();
}

/// Puts the name of a source without a row in, in the place of the first that is expired where all places are taken.
fn add_row(rows: &mut Table<Name, REPLAY_ENTRIES>, current: u32, name: &Name)
    requires order { StandsBySource rows.old }
    requires none { pair_of rows.old name.now.src.0 ≡ None }
    ensures order { StandsBySource rows.new }
    ensures keeps { (LacksPlace (live_of current rows.old) name.now → ⊥)
        → KeepsName current rows.old rows.new name.now }
{
    match put_row(rows, name) {
        Ok(()) => {}
        Err(_) => {
            match first_expired(rows.as_slice(), current) {
                Some(place) => replace(rows, place, name),
                None => {}
            }
        }
    }
}

/// The replay list with one name more, if there is a place for it.
fn apply_name(rows: &mut Table<Name, REPLAY_ENTRIES>, current: u32, name: &Name)
    requires order { StandsBySource rows.old }
    ensures order { StandsBySource rows.new }
    ensures keeps { (LacksPlace (live_of current rows.old) name.now → ⊥)
        → KeepsName current rows.old rows.new name.now }
{
    match row_of(rows.as_slice(), name.src.0) {
        Some(place) => raise(rows, current, place, name),
        None => add_row(rows, current, name),
    }
}

/// The rows after a Replay record, for whose names there is a place.
fn apply_to_rows(
    rows: &mut Table<Name, REPLAY_ENTRIES>,
    current: u32,
    first: &Name,
    second: &Option<Name>,
)
    requires order { StandsBySource rows.old }
    requires first { LacksPlace (live_of current rows.old) first.now → ⊥ }
    requires second { IfSome second.now
        (λ name. LacksPlace (live_with current (live_of current rows.old) first.now) name → ⊥) }
    ensures order { StandsBySource rows.new }
    ensures keeps { KeepsEntries current rows.old rows.new (R.Replay first.now second.now) }
{
    apply_name(rows, current, first);
    match second {
        Some(name) => apply_name(rows, current, name),
        None => {}
    }
}

/// The number of rows that aren't expired.
fn count_live(rows: &[Name], current: u32) -> usize
    ensures value { result ≡ length (live_of current rows.now) }
    ensures most { result ≤ length rows.now }
{
    rows.iter()
        .filter(|row| !row.pair.is_expired(current))
        .count()
}

/// Whether the rows that aren't expired take all places, with so many more. They are counted where all rows would do so alone.
fn takes_all(rows: &[Name], current: u32, more: usize) -> bool
    requires few { length rows.now ≤ REPLAY_ENTRIES }
    requires more { more ≤ 1 }
    ensures { IsTrue result ↔ (REPLAY_ENTRIES ≤ length (live_of current rows.now) + more) }
{
    rows.len() + more >= REPLAY_ENTRIES && count_live(rows, current) + more >= REPLAY_ENTRIES
}

/// Whether a source has a row among those that aren't expired.
fn has_live(rows: &[Name], current: u32, src: u16) -> bool
    requires order { StandsBySource rows.now }
    ensures { result ≡ has_row (live_of current rows.now) src }
{
    entry_among(rows, current, src).is_some()
}

/// Whether a name has no place.
fn lacks_place(rows: &[Name], current: u32, name: &Name) -> bool
    requires order { StandsBySource rows.now }
    requires few { length rows.now ≤ REPLAY_ENTRIES }
    ensures { IsTrue result ↔ LacksPlace (live_of current rows.now) name.now }
{
    !has_live(rows, current, name.src.0) && takes_all(rows, current, 0)
}

/// Whether a name brings an unexpired row more.
fn is_added(rows: &[Name], current: u32, name: &Name) -> bool
    requires order { StandsBySource rows.now }
    ensures { result ≡ adds_live current (live_of current rows.now) name.now }
{
    !has_live(rows, current, name.src.0) && !name.pair.is_expired(current)
}

/// Whether a second name has no place after a first one.
fn lacks_place_after(rows: &[Name], current: u32, first: &Name, name: &Name) -> bool
    requires order { StandsBySource rows.now }
    requires few { length rows.now ≤ REPLAY_ENTRIES }
    ensures { IsTrue result ↔ LacksPlace (live_with current (live_of current rows.now) first.now) name.now }
{
    let more = is_added(rows, current, first);
    let there = has_live(rows, current, name.src.0) || (more && first.src.0 == name.src.0);
    !there && takes_all(rows, current, usize::from(more))
}
