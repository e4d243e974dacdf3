//! Laws about the definitions. Each is the contract of a function that does nothing.
#![tactic(auto)]

ghost use Rattle.report_reader.specs.ReportLine.{HaveOneLine};

/// No text is that of two report lines.
pub fn one_line_law()
    ensures one_line { HaveOneLine }
{}
