//! Laws about the records of a node that can be run. Each is the contract of a function that does nothing.
#![tactic(auto)]

ghost use Rattle.record_types.specs.declared.records.StoreRecord.{StoreRecord};
ghost use Rattle.store_definitions.specs.Config.{Config, changed};
ghost use Rattle.store_definitions.specs.Node.{IsWhole, KeepsWhole};
ghost use Rattle.store_definitions.specs.Ranges.{IsInRange};

/// A node that is whole stays so with each record that keeps it whole.
pub fn node_law()
    ensures kept { (c : Config) (item : StoreRecord) → IsInRange item → KeepsWhole c item → IsWhole c
        → IsWhole (changed c item) }
{}
