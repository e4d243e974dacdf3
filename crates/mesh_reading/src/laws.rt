//! Why a node's records have keys that may be held.
#![tactic(auto)]

ghost use Rattle.std.specs.Prelude.{List};
ghost use Rattle.mesh_reading.specs.Held.{AreHeldKeys};
ghost use Rattle.record_types.specs.declared.records.StoreRecord.{StoreRecord};
ghost use Rattle.store_definitions.specs.Config.{config_of};
ghost use Rattle.store_definitions.specs.Node.{IsWhole};

/// The law of the keys held, for proofs: it does nothing. The records of a node that can be run have keys that may be held.
pub fn held_keys_law()
    ensures whole { (records : List StoreRecord) → IsWhole (config_of records) → AreHeldKeys (config_of records) }
{
    node_records::laws::order_law();
}
