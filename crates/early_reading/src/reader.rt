//! Reads octets by a view, and keeps the key schedules.
#![tactic(auto)]

ghost use Rattle.std.specs.Prelude.{◌≡◌, ◌≤◌, ◌++◌, ℕ, length, true, Some, None, IfSome};
ghost use Rattle.std.specs.Option.{option_map};
ghost use Rattle.early_reading.specs.Known.{early_of};
ghost use Rattle.early_reading.specs.Views.{EarlyReading, IsRead, IsReadBy, read_before, view_of};

use crate::early::Early;
use crate::reading::Reading;
use crate::view::KeyView;
use arrayvec::ArrayVec;
use kept_keys::HeardSchedules;
use mesh_base::fields::Heard;
use mesh_base::octets::Octets;
use mesh_base::table::Table;
use net_keys::NetKeys;
use network_layer::{NetReading, read_kept_behind};
use node_limits::{FRIENDSHIPS, HEARD_NETWORK_KEYS};
use std::marker::Model;

/// Reads octets by the view that it took last. The key schedules of a view are made at its first reading, and not when it is taken. What was read
/// stands in a [`Reading`] for each of the octets, which takes a thirtieth of the memory. A clause sees a reader as its view, if it took one. It
/// holds keys, so it isn't printed.
#[derive(Drop)]
pub struct Reader {
    view: KeyView,
    nets: ArrayVec<HeardSchedules, HEARD_NETWORK_KEYS>,
    friends: ArrayVec<HeardSchedules, FRIENDSHIPS>,
    // Whether a view was taken, and whether the schedules are those of the view.
    is_taken: bool,
    is_made: bool,
}

impl Model for Reader {
    ghost use Rattle.std.specs.Prelude.{◌≡◌, Option, Some, None, true, cond};
    ghost use Rattle.early_reading.specs.declared.view.KeyView.{KeyView};

    ghost Value = { Option KeyView };

    ghost view = { λ r. cond r.is_taken (Some r.view) None };

    ghost invariant = { λ r. r.is_made ≡ true → (r.nets.items ≡ r.view.nets) × (r.friends.items ≡ r.view.friends) };
}

// Keys with their schedules.
fn kept_nets(keys: &[Heard]) -> ArrayVec<HeardSchedules, HEARD_NETWORK_KEYS>
    requires { length keys.now ≤ HEARD_NETWORK_KEYS }
    ensures value { result.items ≡ keys.now }
{
    let mut kept = ArrayVec::new();
    for key in keys {
        kept.push(HeardSchedules::new(key));
    }
    kept
}

// Credentials of friendships with their schedules.
fn kept_friends(keys: &[Heard]) -> ArrayVec<HeardSchedules, FRIENDSHIPS>
    requires { length keys.now ≤ FRIENDSHIPS }
    ensures value { result.items ≡ keys.now }
{
    let mut kept = ArrayVec::new();
    for key in keys {
        kept.push(HeardSchedules::new(key));
    }
    kept
}

// What octets read as under keys and behind them others.
fn read_by(
    nets: &[HeardSchedules],
    friends: &[HeardSchedules],
    current: u32,
    octets: &[u8],
) -> Option<NetReading>
    ensures value { IsReadBy (record { nets = nets.now; friends = friends.now; current = current }) octets.now result }
{
    match read_kept_behind(nets, friends, current, octets) {
        Ok(reading) => Some(reading),
        Err(_) => None,
    }
}

// Makes the key schedules of a view: a function of its own, since the compiler clears what it makes where a function begins, and few readings
// make any.
fn make_schedules(
    view: &KeyView,
    nets: &mut ArrayVec<HeardSchedules, HEARD_NETWORK_KEYS>,
    friends: &mut ArrayVec<HeardSchedules, FRIENDSHIPS>,
)
    ensures nets { nets.new.items ≡ view.now.nets }
    ensures friends { friends.new.items ≡ view.now.friends }
{
    *nets = kept_nets(view.nets.as_slice());
    *friends = kept_friends(view.friends.as_slice());
}

// Takes the view of such a node: a function of its own, since few readers take another one.
fn take_view(view: &mut KeyView, nets: &NetKeys, friends: &[Heard], current: u32)
    requires few { length friends.now ≤ FRIENDSHIPS }
    ensures value { view.new ≡ view_of nets.now friends.now current }
{
    *view = KeyView::of(nets, friends, current);
}

impl Reader {
    /// One that took no view yet.
    pub fn new() -> Reader
        ensures value { result ≡ None }
    {
        Reader {
            view: KeyView {
                nets: Table::new(),
                friends: Table::new(),
                current: 0,
            },
            nets: ArrayVec::new(),
            friends: ArrayVec::new(),
            is_taken: false,
            is_made: false,
        }
    }

    /// Takes the view of a node that has these network keys and these credentials of friendships, at most `FRIENDSHIPS`, where `current` is the known
    /// IV Index. Of a view that it has already nothing is made. What was read before isn't the reading by another view: [`read`](Reader::read) lends
    /// it all the same, beside the new one, so have it forget, or read again.
    pub fn renew(&mut self, nets: &NetKeys, friends: &[Heard], current: u32)
        requires few { length friends.now ≤ FRIENDSHIPS }
        ensures view { self.new ≡ Some (view_of nets.now friends.now current) }
    {
        if !self.view.is_of(nets, friends, current) {
            take_view(&mut self.view, nets, friends, current);
            self.is_made = false;
        }
        self.is_taken = true;
    }

    /// Reads octets by the view that it took last; nothing before it took one. The first reading by a view makes the key schedules.
    pub fn early(&mut self, reading: &mut Reading, octets: &Octets<40>)
        ensures view { option_map (λ (e : EarlyReading). e.view) (read_before self.new reading.new) ≡ self.old }
        ensures octets { IfSome (read_before self.new reading.new) (λ e. e.octets ≡ octets.now) }
        ensures read { IfSome (read_before self.new reading.new) IsRead }
        ensures same { self.new ≡ self.old }
    {
        if !self.is_taken {
            return reading.forget();
        }
        if !self.is_made {
            make_schedules(&self.view, &mut self.nets, &mut self.friends);
            self.is_made = true;
        }
        let read = read_by(
            self.nets.as_slice(),
            self.friends.as_slice(),
            self.view.current,
            octets.as_slice(),
        );
        reading.keep(octets, read);
    }

    /// What a reading of this reader has, if anything was read, beside the view of now.
    pub fn read<'a>(&'a self, reading: &'a Reading) -> Option<Early<'a>>
        ensures value { option_map early_of result ≡ read_before self.now reading.now }
    {
        if !self.is_taken {
            return None;
        }
        reading.with(&self.view)
    }
}
