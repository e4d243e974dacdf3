//! Lists of a bounded number of items, that take no memory.
#![tactic(auto)]

ghost use Rattle.std.specs.Prelude.{◌≡◌, ◌<◌, ◌≤◌, ◌↔◌, [], ◌∷◌, ◌++◌, length, slice_set, insert, remove, IsTrue, IsOk, IfOk, OnOk, OnErr};
ghost use Rattle.std.specs.List.Retain.{RetainsInTurn};
ghost use Rattle.std.specs.Fn.{CalledAtMut};

use crate::fields::Heard;
use crate::keys::UpperKey;
use crate::octets::TooMany;
use arrayvec::ArrayVec;
use std::marker::Model;

/// At most N items, which lie in the value itself. A clause sees it as the list of its items.
#[derive(Drop, PartialEq, Eq)]
pub struct Table<T, const N: usize> {
    places: ArrayVec<T, N>,
}

/// Network material under which a PDU may be heard, in the order in which it is tried: that of at most 4 network keys with two
/// values each, and of 2 friendships.
pub type HeardList = Table<Heard, 10>;

/// Keys that may open an access message, in the order in which they are tried: at most 8 application keys with two values each.
pub type UpperKeys = Table<UpperKey, 16>;

impl<T, const N: usize> Model for Table<T, N> {
    ghost use Rattle.std.specs.Prelude.{List};

    ghost Value = { List T };

    ghost view = { λ t. t.places.items };

    ghost inverse = { λ xs. record { places = record { items = xs } } };
}

impl<T: Default, const N: usize> Default for Table<T, N> {
    ghost is_default = { λ t. t ≡ [] };

    fn default() -> Table<T, N> {
        Table::new()
    }
}

impl<T: Default, const N: usize> Table<T, N> {
    /// No items.
    pub fn new() -> Table<T, N>
        ensures value { result ≡ [] }
    {
        Table {
            places: ArrayVec::new(),
        }
    }
}

impl<T: Copy, const N: usize> Table<T, N> {
    /// Puts an item behind the others; `TooMany` exactly where there are N already.
    pub fn push(&mut self, item: T) -> Result<(), TooMany>
        ensures variant { IsOk result ↔ (length self.old < N) }
        ensures ok { OnOk result (self.new ≡ self.old ++ item ∷ []) }
        ensures unchanged { OnErr result (self.new ≡ self.old) }
    {
        match self.places.try_push(item) {
            Ok(()) => Ok(()),
            Err(_) => Err(TooMany),
        }
    }

    /// Puts an item in the place of another one.
    pub fn set(&mut self, place: usize, item: T)
        requires { place < length self.old }
        ensures value { self.new ≡ slice_set self.old place item }
    {
        let items = self.places.as_mut_slice();
        items[place] = item;
    }

    /// Puts an item at a place, before those that stand there and behind it; `TooMany` exactly where there are N already.
    pub fn insert(&mut self, place: usize, item: T) -> Result<(), TooMany>
        requires { place ≤ length self.old }
        ensures variant { IsOk result ↔ (length self.old < N) }
        ensures ok { OnOk result (self.new ≡ insert self.old place item) }
        ensures unchanged { OnErr result (self.new ≡ self.old) }
    {
        match self.places.try_insert(place, item) {
            Ok(()) => Ok(()),
            Err(_) => Err(TooMany),
        }
    }

    /// The number of items.
    pub fn len(&self) -> usize
        ensures value { result ≡ length self.now }
        ensures length { result ≤ N }
    {
        self.places.len()
    }

    /// Whether there are no items.
    pub fn is_empty(&self) -> bool
        ensures { IsTrue result ↔ (self.now ≡ []) }
    {
        self.places.is_empty()
    }

    /// The items, in their order.
    pub fn as_slice(&self) -> &[T]
        ensures value { result.now ≡ self.now }
        ensures length { length result.now ≤ N }
    {
        self.places.as_slice()
    }
}

impl<T: Copy + Default, const N: usize> Table<T, N> {
    /// These items; `TooMany` exactly where there are more than N.
    pub fn of(items: &[T]) -> Result<Table<T, N>, TooMany>
        ensures variant { IsOk result ↔ (length items.now ≤ N) }
        ensures ok { IfOk result (λ t. t ≡ items.now) }
    {
        let mut places = ArrayVec::new();
        match places.try_extend_from_slice(items) {
            Ok(()) => Ok(Table { places }),
            Err(_) => Err(TooMany),
        }
    }

    /// Takes the item at a place away; those behind it move up.
    pub fn remove(&mut self, place: usize)
        requires { place < length self.old }
        ensures value { self.new ≡ remove self.old place }
    {
        self.places.remove(place);
    }

    /// The same items once more. It takes no memory.
    pub fn copied(&self) -> Table<T, N>
        ensures value { result ≡ self.now }
    {
        let mut places = ArrayVec::new();
        let _ = places.try_extend_from_slice(self.places.as_slice());
        Table { places }
    }

    /// Keeps the items at which `keep` answers true, in their order.
    pub fn retain<F: FnMut(&mut T) -> bool>(&mut self, keep: F)
        requires { F.IsAlwaysCallable keep }
        ensures filtered { RetainsInTurn (CalledAtMut F.FnMut) keep self.old self.new }
    {
        self.places.retain(keep);
    }
}
