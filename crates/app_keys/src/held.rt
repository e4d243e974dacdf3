//! The values of application keys, with their AIDs and schedules, in the order in which they are tried.
#![tactic(auto)]

ghost use Rattle.std.specs.Prelude.{◌≡◌, ℕ, ◌+◌, ◌*◌, ◌≤◌, ◌<◌, ◌==◌, ◌&&◌, [], ◌∷◌, ◌++◌, length, All, IfSome};
ghost use Rattle.std.specs.List.{find};
ghost use Rattle.std.specs.Option.{option_copied, option_map};
ghost use Rattle.arrayvec.specs.ArrayVec.{array_vec_len};
ghost use Rattle.cipher_definitions.specs.Kdf.{aid};
ghost use Rattle.mesh_base.specs.declared.keys.UpperKey.{UpperKey};
ghost use Rattle.layer_definitions.specs.KeyRefresh.{app_key, app_row, keys_of, net_row, transmit_app};
ghost use Rattle.kept_keys.specs.Bound.{bound_key, bound_keys, fitting_keys};
ghost use Rattle.kept_keys.specs.declared.upper.BoundSchedule.{BoundSchedule as Bound};
ghost use Rattle.app_keys.specs.AppRows.{HasOwnAid};
ghost use Rattle.app_keys.specs.Held.{pair_of, sends_new};

use arrayvec::ArrayVec;
use kept_keys::{BoundSchedule, UpperSchedule};
use mesh_base::keys::{AppKeyRow, NetKeyRow, UpperKey, app_row, net_row};
use mesh_base::table::UpperKeys;
use mesh_kdf::k4;
use node_limits::{APPLICATION_KEYS, HEARD_APPLICATION_KEYS};

// The AID of a key that is derived (section 3.8.6.2).
#[tactic(auto, unfolding(cipher_definitions::specs::Kdf::aid))]
fn derived(key: &[u8; 16]) -> u8
    ensures { result ≡ aid key.now }
{
    k4(key)
}

// Whether this is a key of these octets; with its AID, if so.
fn aid_if(value: &UpperKey, key: &[u8; 16]) -> Option<u8>
    ensures { HasOwnAid value.now → IfSome result (λ id. id ≡ aid key.now) }
{
    match value {
        UpperKey::App { aid, key: kept, .. } if kept.as_slice() == key.as_slice() => Some(*aid),
        _ => None,
    }
}

// The AID of a key: that of the value that has these octets, if there is one, and else it is derived.
fn aid_of(before: &[BoundSchedule], key: &[u8; 16]) -> u8
    requires { All (λ (b : Bound). HasOwnAid b.key) before.now }
    ensures { result ≡ aid key.now }
{
    for value in before {
        if let Some(aid) = aid_if(&value.key.key(), key) {
            return aid;
        }
    }
    derived(key)
}

// An application key with its AID.
fn app(before: &[BoundSchedule], index: u16, key: &[u8; 16]) -> UpperKey
    requires { All (λ (b : Bound). HasOwnAid b.key) before.now }
    ensures { result ≡ app_key index key.now }
{
    UpperKey::App {
        index,
        aid: aid_of(before, key),
        key: *key,
    }
}

// A value of a row, with its schedule.
fn kept(before: &[BoundSchedule], row: &AppKeyRow, fresh: bool, key: &[u8; 16]) -> BoundSchedule
    requires { All (λ (b : Bound). HasOwnAid b.key) before.now }
    ensures value { result ≡ bound_key row.now.net row.now.index fresh key.now }
{
    BoundSchedule {
        net: row.net,
        index: row.index,
        fresh,
        key: UpperSchedule::new(&app(before, row.index, key)),
    }
}

// Puts the values of a row behind the others, the old one before the new.
fn add_values(
    bound: &mut ArrayVec<BoundSchedule, HEARD_APPLICATION_KEYS>,
    before: &[BoundSchedule],
    row: &AppKeyRow,
)
    requires before { All (λ (b : Bound). HasOwnAid b.key) before.now }
    requires room { array_vec_len bound.old + 2 ≤ HEARD_APPLICATION_KEYS }
    ensures value { bound.new.items
        ≡ bound.old.items ++ keys_of (bound_key row.now.net row.now.index) row.now.key row.now.next }
    ensures length { array_vec_len bound.new ≤ array_vec_len bound.old + 2 }
{
    bound.push(kept(before, row, false, &row.key));
    if let Some(next) = &row.next {
        bound.push(kept(before, row, true, next));
    }
}

/// The values of these rows. No AID is derived of a key that is among those of before.
pub(crate) fn keep(
    rows: &[AppKeyRow],
    before: &[BoundSchedule],
) -> ArrayVec<BoundSchedule, HEARD_APPLICATION_KEYS>
    requires room { length rows.now ≤ APPLICATION_KEYS }
    requires before { All (λ (b : Bound). HasOwnAid b.key) before.now }
    ensures value { result.items ≡ bound_keys rows.now }
{
    let mut bound = ArrayVec::new();
    for row in rows {
        add_values(&mut bound, before, row);
    }
    bound
}

/// Puts a value behind the others, if it is bound to this network key and has this AID.
pub(crate) fn add(list: &mut UpperKeys, net: u16, aid: u8, value: &BoundSchedule)
    requires room { length list.old < HEARD_APPLICATION_KEYS }
    ensures value { list.new ≡ list.old ++ fitting_keys net aid (value.now ∷ []) }
    ensures length { length list.new ≤ length list.old + 1 }
{
    if value.fits(net, aid) {
        let _ = list.push(value.key.key());
    }
}

// Whether what is sent goes under the new value: where the network key is in phase 2.
fn sends_new(row: &AppKeyRow, net: &NetKeyRow) -> bool
    ensures { result ≡ sends_new row.now net.now }
{
    net.phase == 2 && row.next.is_some()
}

// The first value of this index.
fn old_at(bound: &[BoundSchedule], index: u16) -> Option<&BoundSchedule>
    ensures { option_copied result ≡ find (λ (b : Bound). b.index == index) bound.now }
{
    bound.iter().find(|value| value.index == index)
}

// The first new value of this index.
fn new_at(bound: &[BoundSchedule], index: u16) -> Option<&BoundSchedule>
    ensures { option_copied result ≡ find (λ (b : Bound). (b.index == index) && b.fresh) bound.now }
{
    bound
        .iter()
        .find(|value| value.index == index && value.fresh)
}

/// The value that an application key index is sent with: that of its row, the new one where its network key is in phase 2.
pub(crate) fn sent_under<'a>(
    rows: &[AppKeyRow],
    nets: &[NetKeyRow],
    bound: &'a [BoundSchedule],
    index: u16,
) -> Option<&'a BoundSchedule>
    requires { bound.now ≡ bound_keys rows.now }
    ensures value { option_map pair_of (option_copied result) ≡ transmit_app rows.now nets.now index }
{
    let row = app_row(rows, index)?;
    let net = net_row(nets, row.net)?;
    if sends_new(row, net) {
        new_at(bound, index)
    } else {
        old_at(bound, index)
    }
}
