//! Laws about the definitions. Each is the contract of a function that does nothing.
#![tactic(auto)]

ghost use Rattle.report_definitions.specs.WorkedReports.{AreWorkedReports};

/// Two records, one of them of a life that power cut, have the reports that were written out for them by hand.
pub fn worked_reports()
    ensures reports { AreWorkedReports }
{}
