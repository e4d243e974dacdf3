//! What a bearer that stopped says of the node.
#![tactic(auto)]

ghost use Rattle.std.specs.Prelude.{◌≡◌, ℕ, ◌<◌, List};
ghost use Rattle.mesh_types.specs.declared.events.Event.{Event};
ghost use Rattle.seq_word.specs.Seen.{DrawerView};
ghost use Rattle.locked_node.specs.Node.{NodeView};
ghost use Rattle.node_phase.specs.declared.bearers.Done.{Done};
ghost use Rattle.node_phase.specs.Part.{AreThrough};
ghost use Rattle.node_phase.specs.Worked.{WasPhase};
ghost use Rattle.life_laws.specs.Stopped.{HasStopped};

/// Where no bearer stopped in a phase, the node has no stop mark; and where one did since the flash failed, it has one.
pub fn stops_law<F>()
    ensures none { (old new : NodeView F) (d e : DrawerView) (events : List (List Event)) (counts : List ℕ)
        (dones : List Done)
        → WasPhase old new d e events counts dones → old.stops ≡ 0 → AreThrough dones → new.stops ≡ 0 }
    ensures some { (old new : NodeView F) (d e : DrawerView) (events : List (List Event)) (counts : List ℕ)
        (dones : List Done)
        → WasPhase old new d e events counts dones → old.stops ≡ 0 → HasStopped dones → 0 < new.stops }
{}
