//! Laws about the rules of a run. Each is the contract of a function that does nothing.
#![tactic(auto)]

ghost use Rattle.needed_rules.specs.Needed.{AreNeeded, IsRunByAll};
ghost use Rattle.needed_rules.specs.WrittenRun.{IsWritten};

/// The rules don't exclude each other: a record with a delivery, a PDU that goes on, a refill, a long message and a
/// power cut is one of a run of its script.
pub fn a_run_exists()
    ensures written { IsWritten }
{}

/// The rules are needed: without the bound on SEQ, the mark that a life opens with, the mark that it leaves, the rule
/// that no two lines draw one pair, the order of a bearer's work, the lines or the entries that it is told of, the
/// idleness of a life that isn't run, that its entries are told, the jobs of an entry, what its octets are read as, the
/// table of the IV Index, the records or the entries before an entry, the rule on what outlasts a cut, the ranges of a
/// record's fields, the mark, the IV state, the address, the number of elements or the replay list in what the next life
/// opens over, or safe layers, some record that keeps all other rules seals two plaintexts under one key and nonce, or
/// delivers a message twice.
pub fn rules_are_needed()
    ensures needed { AreNeeded }
    ensures by_all { IsRunByAll }
{}
