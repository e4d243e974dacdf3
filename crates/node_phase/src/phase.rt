//! A whole phase.
#![tactic(auto)]

ghost use Rattle.std.specs.Prelude.{◌≡◌, ◌≤◌, length, map, All, IfOk};
ghost use Rattle.locked_node.specs.Node.{origin_of};
ghost use Rattle.node_bearer.specs.Did.{AreEvents};
ghost use Rattle.node_phase.specs.Worked.{WasPhase};

use crate::alone::run_alone;
use crate::bearers::{Done, Shared, join_all, split_all};
use crate::host::PhaseHost;
use crate::kept::KeptByBearers;
use crate::threads::work_all;
use flash_model::Flash;
use locked_node::Node;
use machine_contract::Machine;
use mesh_types::events::Event;
use node_bearer::{Alone, Gate};
use node_limits::BEARERS;
use seq_word::Drawer;
use std::alloc::AllocError;
use std::sync::Wait;
use std::thread::Threads;
use turn_lock::Turn;

/// The phase of a lone bearer, in the thread that calls.
fn run_lone<M: Machine, F: Flash + Send + Drop, G: Gate, R>(
    host: &PhaseHost<'_, R, G>,
    drawer: &mut Drawer,
    node: Node<M, F>,
    plan: &[Vec<Event>],
    counts: &[u32],
    kept: &mut KeptByBearers<M>,
) -> Result<(Node<M, F>, Vec<Done>), AllocError>
    requires made { node.machine.which ≡ host.now.numbers.now.which }
    requires draws { drawer.old.which ≡ host.now.numbers.now.which }
    requires lone { length plan.now ≡ 1 }
    requires plan { length plan.now ≡ length counts.now }
    requires events { All (λ v. AreEvents node.machine.elements v.items) plan.now }
    ensures which { drawer.new.which ≡ drawer.old.which }
    ensures origin { IfOk result (λ r. origin_of F.chip r.0 ≡ origin_of F.chip node) }
    ensures was { IfOk result
        (λ r. WasPhase node r.0 drawer.old drawer.new (map (λ v. v.items) plan.now) counts.now r.1.items) }
{
    let mut dones = Vec::with_capacity(host.alloc, 1)?;
    // It reads before its turn, as bearers do that share the lock.
    let alone = Alone { reads_early: true };
    let host = PhaseHost {
        rt: &alone,
        alloc: host.alloc,
        gate: host.gate,
        numbers: host.numbers,
    };
    let events = plan[0].as_slice();
    let (node, done) = run_alone(&host, drawer, node, events, counts[0], kept)?;
    dones.push(done)?;
    Ok((node, dones))
}

/// Has a bearer for each list of events do all that it has, all of them at once; and returns the node behind them, with what is left of
/// each. `counts` has for each the number of its last entry so far.
///
/// At most `BEARERS` bearers. A lone bearer runs in the thread that calls. What bearers keep of keys is taken from `kept`, and put there again.
pub fn run_phase<M: Machine, F: Flash + Send + Drop, G: Gate, R: Threads + Wait + Sync>(
    host: &PhaseHost<'_, R, G>,
    drawer: &mut Drawer,
    node: Node<M, F>,
    plan: &[Vec<Event>],
    counts: &[u32],
    kept: &mut KeptByBearers<M>,
) -> Result<(Node<M, F>, Vec<Done>), AllocError>
    requires made { node.machine.which ≡ host.now.numbers.now.which }
    requires draws { drawer.old.which ≡ host.now.numbers.now.which }
    requires few { length counts.now ≤ BEARERS }
    requires plan { length plan.now ≡ length counts.now }
    requires events { All (λ v. AreEvents node.machine.elements v.items) plan.now }
    ensures which { drawer.new.which ≡ drawer.old.which }
    ensures origin { IfOk result (λ r. origin_of F.chip r.0 ≡ origin_of F.chip node) }
    ensures was { IfOk result
        (λ r. WasPhase node r.0 drawer.old drawer.new (map (λ v. v.items) plan.now) counts.now r.1.items) }
{
    if plan.len() == 1 {
        return run_lone(host, drawer, node, plan, counts, kept);
    }
    // It does nothing when it runs: the proof uses what it says.
    node.known();
    let (turn, mut pass) = Turn::start(host.alloc, node)?;
    let shared = Shared {
        alloc: host.alloc,
        numbers: host.numbers,
        turn: &turn,
    };
    let mut bearers = split_all(&shared, drawer, &mut pass, counts, plan, kept)?;
    work_all(
        host.rt,
        host.numbers,
        &turn,
        host.gate,
        plan,
        bearers.as_mut_slice(),
    );
    let dones = join_all(&shared, drawer, &mut pass, bearers, kept)?;
    let node = turn.enter(host.rt, &mut pass);
    turn.close(pass);
    Ok((node, dones))
}
