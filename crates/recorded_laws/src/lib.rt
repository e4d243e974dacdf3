//! That a message which was accepted from segments stays recorded through a life, as `hear` of `mesh_hearing` asks it of a past. There is no code
//! here: the law is the contract of a function that does nothing.
#![tactic(auto)]

ghost use Rattle.std.specs.Prelude.{List, [], ◌++◌};
ghost use Rattle.event_definitions.specs.History.{Past, Told};
ghost use Rattle.event_definitions.specs.Readings.{Sees};
ghost use Rattle.event_definitions.specs.Stores.{stores};
ghost use Rattle.mesh_hearing.specs.Again.{AreRecorded};
ghost use Rattle.node_layers.specs.NodeLayers.{node_layers};
ghost use Rattle.node_layers.specs.Steps.{with_entry};
ghost use Rattle.record_types.specs.declared.records.StoreRecord.{StoreRecord};

/// At the beginning of a life no message was accepted in it (`none`). More records leave what is recorded (`more`), as refills do. Behind an event
/// that was read by the definitions, with the records that they give it, each message that was accepted from segments is recorded (`entry`).
pub fn recorded_law()
    ensures none { (records : List StoreRecord) → AreRecorded (record { told = []; records = records }) }
    ensures more { (past : Past) (more : List StoreRecord) → AreRecorded past
        → AreRecorded (record past { records = past.records ++ more }) }
    ensures entry { (past : Past) (t : Told) → Sees node_layers past t.entry.event t.insight → AreRecorded past
        → AreRecorded
        (with_entry past.told t
        (past.records ++ stores node_layers past t.entry.event t.insight t.entry.answer)) }
{}
