//! A phase of one bearer, in the thread that calls.
#![tactic(auto)]

ghost use Rattle.std.specs.Prelude.{◌≡◌, [], ◌∷◌, IfOk};
ghost use Rattle.locked_node.specs.Node.{origin_of};
ghost use Rattle.node_bearer.specs.Did.{AreEvents};
ghost use Rattle.node_phase.specs.Worked.{WasPhase};

use crate::bearers::{Done, Seated, work_phase};
use crate::host::PhaseHost;
use crate::kept::KeptByBearers;
use flash_model::Flash;
use locked_node::Node;
use machine_contract::Machine;
use mesh_types::events::Event;
use node_bearer::{Alone, Bearer, Gate, Workplace};
use seq_word::Drawer;
use std::alloc::AllocError;
use turn_lock::Turn;

/// Has the one bearer of a phase do all these events; and returns the node behind them, with what is left of the bearer. `number` is that of
/// its last entry so far. What the bearer keeps of keys, and what it reads octets by before its turn, where `host` says so, is taken
/// from `kept`, and put there again.
///
/// It is the phase that `run_phase` is for one list of events. It starts no thread and waits for none, so it asks for no handle.
pub fn run_alone<M: Machine, F: Flash + Send + Drop, G: Gate>(
    host: &PhaseHost<'_, Alone, G>,
    drawer: &mut Drawer,
    node: Node<M, F>,
    events: &[Event],
    number: u32,
    kept: &mut KeptByBearers<M>,
) -> Result<(Node<M, F>, Done), AllocError>
    requires made { node.machine.which ≡ host.now.numbers.now.which }
    requires draws { drawer.old.which ≡ host.now.numbers.now.which }
    requires events { AreEvents node.machine.elements events.now }
    ensures which { drawer.new.which ≡ drawer.old.which }
    ensures origin { IfOk result (λ r. origin_of F.chip r.0 ≡ origin_of F.chip node) }
    ensures was { IfOk result
        (λ r. WasPhase node r.0 drawer.old drawer.new (events.now ∷ []) (number ∷ []) (r.1 ∷ [])) }
{
    // It does nothing when it runs: the proof uses what it says.
    node.known();
    let lines = Vec::with_capacity(host.alloc, events.len())?;
    let seals = kept.take(host.alloc)?;
    let ahead = kept.take_ahead(host.alloc, 1)?;
    let (turn, pass) = Turn::start(host.alloc, node)?;
    let bearer = Bearer {
        drawer: host.numbers.split(drawer),
        pass,
        lines,
        number,
        kept: seals,
        stop: None,
    };
    let mut seated = Seated { bearer, ahead };
    let place = Workplace {
        sharing: host.rt,
        numbers: host.numbers,
        turn: &turn,
        bearer: 0,
    };
    work_phase(&place, host.gate, &mut seated, events);
    let (bearer, ahead) = seated.into_parts();
    let Bearer {
        drawer: seat,
        mut pass,
        lines,
        number,
        kept: seals,
        stop,
    } = bearer;
    host.numbers.join(drawer, seat);
    kept.put(seals);
    kept.put_ahead(ahead);
    let node = turn.enter_alone(&mut pass);
    turn.close(pass);
    let done = Done {
        lines,
        number,
        stop,
    };
    Ok((node, done))
}
