//! What a phase is in the terms of a run. Each law is the contract of a function that does nothing.
#![tactic(auto)]

ghost use Rattle.std.specs.Prelude.{ℕ, ◌≤◌, List, length};
ghost use Rattle.mesh_types.specs.declared.events.Event.{Event};
ghost use Rattle.seq_word.specs.Seen.{DrawerView};
ghost use Rattle.locked_node.specs.Node.{NodeView};
ghost use Rattle.node_phase.specs.declared.bearers.Done.{Done};
ghost use Rattle.node_phase.specs.Part.{DoesPart, HadMemory, NumbersPart, part_of};
ghost use Rattle.node_phase.specs.Worked.{WasPhase};

/// The entries behind those of before, and the bearers' lines, are a part of a life: each bearer does what it has, all of it where none
/// stopped, and else as far as it comes without the machine; and its entries are numbered on. No bearer stopped for want of memory.
pub fn part_law<F>()
    ensures does { (old new : NodeView F) (d e : DrawerView) (events : List (List Event)) (counts : List ℕ)
        (dones : List Done)
        → WasPhase old new d e events counts dones → HadMemory dones → length events ≤ length counts
        → (k : ℕ) → DoesPart events (part_of old new dones) dones k }
    ensures numbers { (old new : NodeView F) (d e : DrawerView) (events : List (List Event)) (counts : List ℕ)
        (dones : List Done)
        → WasPhase old new d e events counts dones → HadMemory dones → length events ≤ length counts
        → (k : ℕ) → NumbersPart counts (part_of old new dones) dones k }
{}
