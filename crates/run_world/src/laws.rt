//! A law about the definitions of a run. It is the contract of a function that does nothing.
#![tactic(auto)]

ghost use Rattle.run_world.specs.Steps.{RunsGoBySteps};
ghost use Rattle.run_world.specs.Whole.{LowPowerRunsGoByAllSteps, RunsGoByAllSteps};

/// The law of steps: for all layers with the properties that `AreSafe` names, every script, and every record of a run of it, there are
/// steps of the world for each life, each allowed where it stands, from the node as it was provisioned to a good world. Each step has power on:
/// numbers are reserved, published, drawn or moved on to another IV Index, and each seal is that of a line. What is sealed in the worlds is
/// what the lines of the lives seal with an own address as SRC, in their order, and nothing else; each pair that a line draws is drawn
/// since power came on; and the worlds have the marks and the known IV Indexes of the records that the lives leave.
///
/// There are such steps, too, among which each message that a life accepts is accepted and then delivered, in their order, and no other
/// message is delivered (`whole`): the IV Index of each is the known one or the one before it, and it is above the entry of its source. What
/// is delivered in the worlds is what the run delivers, and the entries are those of the records, where these aren't expired. The same holds
/// of a Low Power node's runs (`low_power`).
pub fn run_world_law()
    ensures steps { RunsGoBySteps }
    ensures whole { RunsGoByAllSteps }
    ensures low_power { LowPowerRunsGoByAllSteps }
{}
