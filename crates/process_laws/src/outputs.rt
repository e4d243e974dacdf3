//! Laws of what was told of lives.
#![tactic(auto)]

ghost use Rattle.audit_laws.specs.Laws.{SendOwn};
ghost use Rattle.event_definitions.specs.Layers.{Layers};
ghost use Rattle.event_definitions.specs.Safe.{AreSafe};
ghost use Rattle.node_layers.specs.BuiltLayers.{built_layers};
ghost use Rattle.node_layers.specs.NodeLayers.{node_layers};
ghost use Rattle.process_laws.specs.Laws.{AreOutputVerdictsSafe, AreOutputsSafe, AreProcessesSafe, BrokenOffAreSome, EventsNameElements, OutputVerdictsAreSafe, OutputsAreSafe, PhasesAreReordered};

use flash_model::Flash;

/// The law of an audit over outputs. Take any script whose `send` lines name elements of the node, any run of it, and of each life some lines of
/// its report, in whatever order, with the octets of network PDUs or without. Of the lines that the text of these is read as, behind any lines
/// of keys, no two use a nonce twice, and no two accept one message. So neither the order of the lines of a life, nor that some of them are
/// missing, nor the number that a life is told with makes an audit find the one or the other.
pub fn outputs_law()
    ensures safe { OutputsAreSafe }
    ensures node { AreOutputsSafe node_layers }
    ensures built { AreOutputsSafe built_layers }
{}

/// So no verdict of an audit on this text is that a nonce was used twice, or that a message was accepted twice.
pub fn output_verdicts_law()
    ensures safe { OutputVerdictsAreSafe }
    ensures node { AreOutputVerdictsSafe node_layers }
    ensures built { AreOutputVerdictsSafe built_layers }
{}

/// Nor is one on what processes told of their lives, put behind one another.
pub fn process_verdicts_law<F: Flash>()
    ensures safe { (layers : Layers) → AreSafe layers → SendOwn layers → AreProcessesSafe layers F.chip }
    ensures node { AreProcessesSafe node_layers F.chip }
    ensures built { AreProcessesSafe built_layers F.chip }
{}

/// A life that goes on is told phase by phase, where a report has all its entries first and then the lines of each bearer. The lines are the
/// same, each as often, in another order (`reordered`). So wherever its text is broken off, since a sink failed or the process was killed, the
/// lines that stand in it whole are some of its report's (`broken`). A piece of a line that is left behind them is no line: it is to be taken out
/// before an audit.
pub fn phases_law()
    ensures reordered { PhasesAreReordered }
    ensures broken { BrokenOffAreSome }
{}

/// The phases that a source gives, by the clause `events` of `next` of `PhaseSource` in `mesh_node`, name elements of the node: that is what the
/// laws above ask of the plans of lives.
pub fn named_law()
    ensures named { EventsNameElements }
{}
