//! What holds of the runs of a kind of node.
#![tactic(auto)]

ghost use Rattle.std.specs.Prelude.{List};
ghost use Rattle.record_types.specs.declared.records.StoreRecord.{StoreRecord};
ghost use Rattle.report_definitions.specs.Record.{Life, Run};
ghost use Rattle.run_definitions.specs.Order.{Step};
ghost use Rattle.run_definitions.specs.RunOf.{LifeOf, RunOf, Script};
ghost use Rattle.run_definitions.specs.Uses.{AtMostOnce, NoReuse, delivered, uses};
ghost use Rattle.run_safety.specs.SafeRole.{IsSafeRole};
ghost use Rattle.run_safety.specs.Safety.{Keeps};
ghost use Rattle.store_definitions.specs.Config.{config_of};
ghost use Rattle.mesh_run.specs.Kind.{IsSafeKind, low_power_kind, node_kind};

use layer_laws::laws::node_law;
use low_power_role::low_power_runs_law;
use machine_contract::Machine;
use run_safety::laws::safety_law;

/// With a safe kind of node no run reuses a nonce or delivers a message twice, and from a life to the next one the node keeps its elements.
pub(crate) fn role_law<M: Machine>()
    requires safe { IsSafeRole M.role }
    ensures no_reuse { (s : Script) (r : Run) → RunOf M.role s r → NoReuse (uses r) }
    ensures at_most_once { (s : Script) (r : Run) → RunOf M.role s r → AtMostOnce (delivered r) }
    ensures keeps { (plan : List Step) (over : List StoreRecord) (l : Life) (next : List StoreRecord)
        → LifeOf M.role plan over l next → Keeps (config_of over) (config_of next) }
{}

/// A node with all its layers is a safe kind.
pub(crate) fn node_kind_law()
    ensures safe { IsSafeKind node_kind }
{
    // They do nothing when they run: the proof uses what they say.
    node_law();
    safety_law();
}

/// A Low Power node is one too.
pub(crate) fn low_power_kind_law()
    ensures safe { IsSafeKind low_power_kind }
{
    // It does nothing when it runs: the proof uses what it says.
    low_power_runs_law();
}
