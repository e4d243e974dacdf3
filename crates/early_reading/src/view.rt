//! What the reading of octets depends on.
#![tactic(auto)]

ghost use Rattle.std.specs.Prelude.{◌≡◌, ◌≤◌, ◌↔◌, ◌++◌, length, IsTrue};
ghost use Rattle.early_reading.specs.Views.{view_of};
ghost use Rattle.layer_definitions.specs.KeyRefresh.{heard_keys};

use kept_keys::{HeardSchedules, is_same_material};
use mesh_base::fields::Heard;
use mesh_base::table::Table;
use net_keys::NetKeys;
use node_limits::{FRIENDSHIPS, HEARD_NETWORK_KEYS};

/// All that the reading of a network PDU depends on. It holds keys, so it isn't printed.
#[derive(Drop)]
pub struct KeyView {
    /// The network keys that are heard, in the order in which they are tried: the old key of each before the new one.
    pub nets: Table<Heard, HEARD_NETWORK_KEYS>,
    /// The credentials of friendships and offers, which are tried behind them.
    pub friends: Table<Heard, FRIENDSHIPS>,
    /// The known IV Index.
    pub current: u32,
}

// Whether two keys are the same.
fn is_same_key(a: &Heard, b: &Heard) -> bool
    ensures { IsTrue result ↔ (a.now ≡ b.now) }
{
    a.index == b.index
        && a.lpn == b.lpn
        && a.fresh == b.fresh
        && is_same_material(&a.material, &b.material)
}

// Whether two lists of keys are the same.
fn are_same(a: &[Heard], b: &[Heard]) -> bool
    ensures same { IsTrue result ↔ (a.now ≡ b.now) }
{
    if a.len() != b.len() {
        return false;
    }
    for i in 0..a.len() {
        if !is_same_key(&a[i], &b[i]) {
            return false;
        }
    }
    true
}

// Whether these are the keys that are kept.
fn are_kept(a: &[Heard], b: &[HeardSchedules]) -> bool
    ensures same { IsTrue result ↔ (a.now ≡ b.now) }
{
    if a.len() != b.len() {
        return false;
    }
    for i in 0..a.len() {
        if !is_same_key(&a[i], &b[i].heard()) {
            return false;
        }
    }
    true
}

// The keys that are kept.
fn keys_of(kept: &[HeardSchedules]) -> Table<Heard, HEARD_NETWORK_KEYS>
    requires { length kept.now ≤ HEARD_NETWORK_KEYS }
    ensures value { result ≡ kept.now }
{
    let mut list = Table::new();
    for key in kept {
        let _ = list.push(key.heard());
    }
    list
}

// The credentials of friendships.
fn credentials(keys: &[Heard]) -> Table<Heard, FRIENDSHIPS>
    requires { length keys.now ≤ FRIENDSHIPS }
    ensures value { result ≡ keys.now }
{
    let mut list = Table::new();
    for key in keys {
        let _ = list.push(*key);
    }
    list
}

impl KeyView {
    /// By what a node reads that has these network keys and these credentials of friendships, at most `FRIENDSHIPS`, where `current` is the known IV
    /// Index.
    pub fn of(nets: &NetKeys, friends: &[Heard], current: u32) -> KeyView
        requires few { length friends.now ≤ FRIENDSHIPS }
        ensures value { result ≡ view_of nets.now friends.now current }
    {
        KeyView {
            nets: keys_of(nets.heard()),
            friends: credentials(friends),
            current,
        }
    }

    /// Whether this is the view of such a node: exactly where it reads by the same keys in the same order under the same IV Index.
    pub fn is_of(&self, nets: &NetKeys, friends: &[Heard], current: u32) -> bool
        ensures value { IsTrue result ↔ (self.now ≡ view_of nets.now friends.now current) }
    {
        self.current == current
            && are_kept(self.nets.as_slice(), nets.heard())
            && are_same(self.friends.as_slice(), friends)
    }

    /// The same once more.
    pub fn copied(&self) -> KeyView
        ensures value { result ≡ self.now }
    {
        KeyView {
            nets: self.nets.copied(),
            friends: self.friends.copied(),
            current: self.current,
        }
    }
}
