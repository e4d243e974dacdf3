//! Laws of lives that processes led.
#![tactic(auto)]

ghost use Rattle.std.specs.Prelude.{ℕ, List};
ghost use Rattle.event_definitions.specs.Layers.{Layers};
ghost use Rattle.event_definitions.specs.Role.{node_role};
ghost use Rattle.event_definitions.specs.Safe.{AreSafe};
ghost use Rattle.flash_model.specs.Chip.{IsFresh};
ghost use Rattle.machine_contract.specs.Refused.{IsUntouched, WasReset};
ghost use Rattle.machine_contract.specs.Standing.{IsSameFlash};
ghost use Rattle.mesh_node.specs.Lived.{IsLifeTold};
ghost use Rattle.mesh_types.specs.declared.events.Event.{Event};
ghost use Rattle.node_layers.specs.BuiltLayers.{built_layers};
ghost use Rattle.node_layers.specs.NodeLayers.{node_layers};
ghost use Rattle.process_laws.specs.Laws.{AreRuns, DeliverOnce, ReuseNothing};
ghost use Rattle.process_laws.specs.Processes.{IsLed, cut_at_start, led_life, was_reset};
ghost use Rattle.record_types.specs.declared.records.StoreRecord.{StoreRecord};
ghost use Rattle.report_definitions.specs.Record.{Life};
ghost use Rattle.run_safety.specs.SafeRole.{IsSafeRole};
ghost use Rattle.seq_word.specs.Seen.{ClosedView};
ghost use Rattle.store_definitions.specs.Recovered.{IsRecovered};

use flash_model::Flash;
use machine_contract::Machine;
use store_definitions::recovery::one_list_is_recovered;

/// Lives of a machine's role that processes led over a flash, from provisioning on, are a run of their plans (`run`). If that kind of node is
/// safe, no nonce of the node's own addresses seals two different plaintexts under one key over all of them (`no_reuse`), and no message is
/// delivered twice (`at_most_once`).
pub fn processes_law<M: Machine, F: Flash>()
    ensures run { AreRuns M.role F.chip }
    ensures no_reuse { IsSafeRole M.role → ReuseNothing M.role F.chip }
    ensures at_most_once { IsSafeRole M.role → DeliverOnce M.role F.chip }
{}

/// The same of all safe layers, whatever machine they have, and so of the layers of the node (`node_..`), and of those below the access layer
/// (`built_..`).
pub fn layers_processes_law<F: Flash>()
    ensures run { (layers : Layers) → AreRuns (node_role layers) F.chip }
    ensures no_reuse { (layers : Layers) → AreSafe layers → ReuseNothing (node_role layers) F.chip }
    ensures at_most_once { (layers : Layers) → AreSafe layers → DeliverOnce (node_role layers) F.chip }
    ensures node_no_reuse { ReuseNothing (node_role node_layers) F.chip }
    ensures node_at_most_once { DeliverOnce (node_role node_layers) F.chip }
    ensures built_no_reuse { ReuseNothing (node_role built_layers) F.chip }
    ensures built_at_most_once { DeliverOnce (node_role built_layers) F.chip }
{}

/// A life that `live_on` of `mesh_node` led, from the flash that its process found to the flash as it left it, is one of those lives.
pub fn led_law<M: Machine, F: Flash>()
    ensures led { (phases : List (List (List Event))) (over : List StoreRecord) (life : Life) (words : ClosedView)
        (found left : F) → IsRecovered (F.chip found).now over
        → IsLifeTold M.role phases over life (F.chip left) words
        → IsLed M.role F.chip (led_life phases over life found left) }
{}

/// A process may return and have led no life: memory ran out before its first phase, its flash failed, the sink of its report did, or there was a
/// Node Reset. Where its flash recovers then what it did (`IsUntouched`), or is as it was (`IsSameFlash`), as `run_node` of `live_node` says, it led
/// a life all the same: one that was cut as it was opened, whatever its phases were to be (`unled`, `same`), or, of a Node Reset, one that wasn't run
/// (`reset`).
pub fn unled_law<M: Machine, F: Flash>()
    ensures unled { (phases : List (List (List Event))) (calls : ℕ) (found left : F)
        → (u : IsUntouched M.image (F.chip found) (F.chip left))
        → IsLed M.role F.chip (led_life phases u.over (cut_at_start calls) found left) }
    ensures same { (phases : List (List (List Event))) (calls : ℕ) (over : List StoreRecord) (found left : F)
        → IsFresh (F.chip found) → IsRecovered (F.chip found).now over → IsSameFlash (F.chip found) (F.chip left)
        → IsLed M.role F.chip (led_life phases over (cut_at_start calls) found left) }
    ensures reset { (phases : List (List (List Event))) (found left : F)
        → WasReset (F.chip found) → (u : IsUntouched M.image (F.chip found) (F.chip left))
        → IsLed M.role F.chip (led_life phases u.over was_reset found left) }
{
    // It does nothing when it runs: the proof uses what it says.
    one_list_is_recovered();
}
