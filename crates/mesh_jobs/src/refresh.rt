//! Which phases of Key Refresh an event changed.
#![tactic(auto)]

ghost use Rattle.std.specs.Prelude.{◌≡◌, ◌+◌, ◌<◌, ◌≤◌, ◌==◌, [], ◌∷◌, ◌++◌, List, length};
ghost use Rattle.std.specs.List.{find, list_any};
ghost use Rattle.std.specs.Option.{option_copied};
ghost use Rattle.mesh_jobs.specs.Phases.{is_changed as is_changed_in, phases_of};
ghost use Rattle.mesh_jobs.specs.declared.refresh.KeyPhase.{KeyPhase};
ghost use Rattle.node_records.specs.Tables.{config_in};
ghost use Rattle.event_definitions.specs.Jobs.{refresh_jobs};
ghost use Rattle.store_definitions.specs.Config.{Config};

use crate::beacons::push_beacons;
use mesh_base::keys::NetKeyRow;
use mesh_base::table::Table;
use mesh_types::jobs::JobDraft;
use node_limits::JOBS;
use node_records::Persist;

/// The phase of the Key Refresh of a network key.
#[derive(Clone, Copy, Default)]
pub struct KeyPhase {
    /// The index of the key, 12 bits.
    pub index: u16,
    /// The phase, 0 to 2.
    pub phase: u8,
}

/// The phases of all network keys, by index.
pub type Phases = Table<KeyPhase, 4>;

// Puts the phase of a network key behind the others.
fn push_phase(list: &mut Phases, row: &NetKeyRow)
    requires { length list.old < 4 }
    ensures { list.new ≡ list.old ++ phases_of (row.now ∷ []) }
{
    let _ = list.push(KeyPhase {
        index: row.index,
        phase: row.phase,
    });
}

/// The phases as the records say them. They are taken before the records of an event are put.
pub fn held_phases(p: &Persist) -> Phases
    ensures value { result ≡ phases_of p.now.nets }
{
    let mut list = Phases::new();
    for row in p.nets.as_slice() {
        push_phase(&mut list, row);
    }
    list
}

// The phase of the network key of this index.
fn phase_at(before: &[KeyPhase], index: u16) -> Option<&KeyPhase>
    ensures { option_copied result ≡ find (λ (b : KeyPhase). b.index == index) before.now }
{
    before.iter().find(|b| b.index == index)
}

// Whether the phase of a network key isn't what it was.
fn is_changed(before: &[KeyPhase], row: &NetKeyRow) -> bool
    ensures { result ≡ is_changed_in before.now row.now }
{
    match phase_at(before, row.index) {
        Some(b) => b.phase != row.phase,
        None => false,
    }
}

// Whether the phase of some network key isn't what it was.
fn any_changed(before: &[KeyPhase], rows: &[NetKeyRow]) -> bool
    ensures { result ≡ list_any (is_changed_in before.now) rows.now }
{
    rows.iter().any(|row| is_changed(before, row))
}

/// Puts the node's beacons behind the others where the phase of a network key that is held isn't what it was before the event.
pub fn push_refresh(jobs: &mut JobDraft, p: &Persist, before: &Phases)
    requires room { length jobs.old + 4 ≤ JOBS }
    ensures value { (c : Config) → before.now ≡ phases_of c.nets
        → jobs.new ≡ jobs.old ++ refresh_jobs c (config_in p.now) }
    ensures few { length jobs.new ≤ length jobs.old + 4 }
{
    if any_changed(before.as_slice(), p.nets.as_slice()) {
        push_beacons(jobs, p);
    }
}
