//! What is known of the index of a network key, and of the changes that a message asks for.
#![tactic(auto)]

ghost use Rattle.std.specs.Prelude.{◌≡◌, ℕ, ◌≤◌, List, All};
ghost use Rattle.event_records.specs.Indexes.{HasIndexWidth};
ghost use Rattle.event_records.specs.Putting.{AreMoves, ArePuttable};
ghost use Rattle.layer_definitions.specs.Beacon.{ReadsBeacon};
ghost use Rattle.layer_definitions.specs.KeyRefresh.{beacon_keys};
ghost use Rattle.mesh_base.specs.declared.beacon.Beacon.{Beacon};
ghost use Rattle.node_records.specs.Meaning.{IsSaid};
ghost use Rattle.node_records.specs.Tables.{config_in};
ghost use Rattle.node_records.specs.declared.persist.Persist.{Persist};
ghost use Rattle.record_types.specs.declared.records.StoreRecord.{StoreRecord};
ghost use Rattle.event_definitions.specs.Fit.{AreStorable};
ghost use Rattle.event_definitions.specs.Safe.{IsChange};
ghost use Rattle.store_definitions.specs.Config.{Config, config_of};

/// The law of indexes, for proofs: it does nothing. The index of each network key that records in range say has 12 bits, and so has that of
/// each beacon that is read under these keys.
pub fn index_law()
    ensures nets { (p : Persist) → IsSaid p → All HasIndexWidth p.nets }
    ensures read { (p : Persist) (octets : List ℕ) (b : Beacon) → IsSaid p → ReadsBeacon (beacon_keys p.nets) octets b
        → b.index ≤ 0xfff }
{}

/// The law of changes, for proofs: it does nothing. Changes that may be stored behind some records may be put over each value that says the
/// same as these but for the replay list; and they are moves, as none is a Numbers record. That what a message asks for are such is the layers'
/// part: of a whole node within the limits of the store `layer_laws` says it (`safe`, `storable`).
pub fn changes_law()
    ensures may { (before changes : List StoreRecord) (p : Persist) → config_in p ≡ config_of before
        → All IsChange changes
        → AreStorable before changes → ArePuttable p changes }
    ensures moves { (c : Config) (changes : List StoreRecord) → All IsChange changes → AreMoves c changes }
{}
