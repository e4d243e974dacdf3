//! The node's own Secure Network beacons (Mesh Profile 1.0.1, section 3.9.3).
#![tactic(auto)]

ghost use Rattle.std.specs.Prelude.{◌≡◌, ◌+◌, ◌≤◌, ◌++◌, length};
ghost use Rattle.layer_definitions.specs.KeyRefresh.{own_beacon as own_beacon_in, transmit_key as transmit_key_in};
ghost use Rattle.node_records.specs.Tables.{config_in};
ghost use Rattle.event_definitions.specs.Jobs.{beacon_jobs};

use mesh_base::iv_state::IvState;
use mesh_base::keys::NetKeyRow;
use mesh_types::jobs::{Job, JobDraft};
use net_beacon::write;
use node_limits::JOBS;
use node_records::Persist;

// The key that is sent under: in phase 2 the new one.
fn transmit_key(row: &NetKeyRow) -> &[u8; 16]
    ensures { result.now ≡ transmit_key_in row.now }
{
    match &row.next {
        Some(next) if row.phase == 2 => next,
        _ => &row.key,
    }
}

// The beacon of a network key: under the new key with Key Refresh flag 1 in phase 2, else under the old one with flag 0.
fn own_beacon(s: &IvState, row: &NetKeyRow) -> [u8; 22]
    ensures { result ≡ own_beacon_in s.now row.now }
{
    let refresh = if row.phase == 2 { 1 } else { 0 };
    let update = if s.progress { 2 } else { 0 };
    write(transmit_key(row), refresh + update, s.current)
}

/// Puts the node's beacons behind the others, one for each network key by index, where the Beacon feature is on.
pub fn push_beacons(jobs: &mut JobDraft, p: &Persist)
    requires room { length jobs.old + 4 ≤ JOBS }
    ensures value { jobs.new ≡ jobs.old ++ beacon_jobs (config_in p.now) }
    ensures few { length jobs.new ≤ length jobs.old + 4 }
{
    if !p.sends_beacons() {
        return;
    }
    for row in p.nets.as_slice() {
        jobs.push(Job::Beacon(own_beacon(&p.iv, row)));
    }
}
