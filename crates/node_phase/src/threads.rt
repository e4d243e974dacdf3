//! All bearers of a phase, each on a thread.
#![tactic(auto)]

ghost use Rattle.std.specs.Prelude.{◌≡◌, ℕ, ◌<◌, ◌≤◌, length, All, slice_index_or};
ghost use Rattle.node_bearer.specs.Did.{AreEvents, IsRider};
ghost use Rattle.node_phase.specs.Worked.{IsFresh, Worked};

use crate::bearers::{Seated, work_phase};
use flash_model::Flash;
use locked_node::Node;
use machine_contract::Machine;
use mesh_types::events::Event;
use node_bearer::{Gate, Workplace};
use node_limits::BEARERS;
use seq_word::Numbers;
use std::sync::Wait;
use std::thread;
use std::thread::Threads;
use turn_lock::Turn;

/// All bearers at once: bearer `k` at the events of place `k`.
pub fn work_all<M: Machine, F: Flash + Send + Drop, G: Gate, R: Threads + Wait + Sync>(
    rt: &R,
    n: &Numbers,
    turn: &Turn<Node<M, F>>,
    gate: &G,
    plan: &[Vec<Event>],
    bearers: &mut [Seated<M, F>],
)
    requires few { length bearers.old ≤ BEARERS }
    requires plan { length plan.now ≡ length bearers.old }
    requires riders { All (IsRider 1 n.now turn.now) bearers.old }
    requires fresh { All IsFresh bearers.old }
    requires events { All (λ v. AreEvents turn.now.first.machine.elements v.items) plan.now }
    ensures riders { All (IsRider 1 n.now turn.now) bearers.new }
    ensures count { length bearers.new ≡ length bearers.old }
    ensures worked { (k : ℕ) (p : _) (b : _) → k < length bearers.old
        → Worked k (slice_index_or plan.now k p).items (slice_index_or bearers.old k b)
        (slice_index_or bearers.new k b) }
{
    thread::for_each_mut(
        rt,
        bearers,
        BEARERS,
        &|i, b: &mut Seated<M, F>|
            requires at { i < length plan.now }
            requires few { length plan.now ≤ BEARERS }
            requires rider { IsRider 1 n.now turn.now b.now }
            requires fresh { IsFresh b.now }
            requires events { All (λ v. AreEvents turn.now.first.machine.elements v.items) plan.now }
            ensures rider { IsRider 1 n.entry.now turn.entry.now b.exit.now }
            ensures worked { (p : _) → Worked i (slice_index_or plan.entry.now i p).items b.entry.now b.exit.now }
        {
            let place = Workplace {
                sharing: rt,
                numbers: n,
                turn,
                bearer: i as u8,
            };
            work_phase(&place, gate, b, &plan[i]);
        },
    );
}
