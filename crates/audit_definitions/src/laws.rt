//! Laws about the definitions. Each is the contract of a function that does nothing.
#![tactic(auto)]

ghost use Rattle.audit_definitions.specs.Verdicts.{HaveOneReading, HaveOneVerdict};

/// A text says one list of keys and one list of report lines at most.
pub fn one_input_law()
    ensures one_reading { HaveOneReading }
{}

/// No input has two verdicts.
pub fn one_verdict_law()
    ensures one_verdict { HaveOneVerdict }
{}
