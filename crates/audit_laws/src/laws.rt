//! Laws about the definitions. Each is the contract of a function that does nothing.
#![tactic(auto)]

ghost use Rattle.audit_laws.specs.Covered.{AreReportsSound, AreReportsSoundOf, ReportsAreSound};
ghost use Rattle.audit_laws.specs.Laws.{AreReportsSafe, AreReportsSafeOf, AreVerdictsSafe, AreVerdictsSafeOf, BuiltSendOwn, NodeSendOwn, ReportsAreSafe, VerdictsAreSafe};
ghost use Rattle.audit_laws.specs.Reading.{LivesNameElements, ReportsAreRead};
ghost use Rattle.low_power_role.specs.Role.{low_power_role};
ghost use Rattle.node_layers.specs.BuiltLayers.{built_layers};
ghost use Rattle.node_layers.specs.NodeLayers.{node_layers};

/// The law of the audit. Take any script whose `send` lines name elements of the node, any run of it, over all lives, bearers, refills and
/// power cuts, its report, with the octets of network PDUs or without, and any lines of keys in front. Of the lines that this text is read as
/// no two use a nonce twice, and no two accept one message. It holds of all safe layers that send from an element alone, and so of the layers
/// of the node, and of those below the access layer.
pub fn audit_law()
    ensures safe { ReportsAreSafe }
    ensures node { AreReportsSafe node_layers }
    ensures built { AreReportsSafe built_layers }
{}

/// So no verdict of an audit on this text is that a nonce was used twice, or that a message was accepted twice.
pub fn verdict_law()
    ensures safe { VerdictsAreSafe }
    ensures node { AreVerdictsSafe node_layers }
    ensures built { AreVerdictsSafe built_layers }
{}

/// The audit of an honest report. Where the lines of such a run are within the widths of a report, and the keys in front are those that sealed
/// its network PDUs, an audit of its report with octets finds it sound, and tells how many lines it has.
pub fn sound_law()
    ensures sound { ReportsAreSound }
    ensures node { AreReportsSound node_layers }
    ensures built { AreReportsSound built_layers }
{}

/// All three laws, of the runs of a Low Power node: of the lines of its report no two use a nonce twice, and no two accept one message; no
/// verdict tells of either; and under the keys that sealed its PDUs an audit finds it sound.
pub fn low_power_audit_law()
    ensures safe { AreReportsSafeOf low_power_role }
    ensures verdicts { AreVerdictsSafeOf low_power_role }
    ensures sound { AreReportsSoundOf low_power_role }
{}

/// The report of a run with the octets of network PDUs, behind any lines of keys, is an input of an audit wherever its lines are within the
/// widths of a report: so an audit has a verdict on it, and doesn't refuse it.
pub fn reading_law()
    ensures read { ReportsAreRead }
{}

/// The lines of a script that are in their ranges name elements of its node: so what the law of the audit asks of a script is what its
/// grammar has.
pub fn script_law()
    ensures named { LivesNameElements }
{}

/// What the layers of the node send comes from an element of the node; so does what those below the access layer send.
pub fn sources_law()
    ensures node { NodeSendOwn }
    ensures built { BuiltSendOwn }
{}
