//! What the tables stand for.
#![tactic(auto)]

ghost use Rattle.mesh_hearing.specs.Tables.{BeginWith, GoOn};

/// The law of the tables, for proofs: it does nothing. Empty tables stand for no entries, and where tables stand for entries, what an entry
/// more leaves of them stands for these with it. An entry that has no network PDU and no time leaves them as they are, which `tables_after`
/// computes.
pub fn tables_law()
    ensures begin { BeginWith }
    ensures more { GoOn }
{}
