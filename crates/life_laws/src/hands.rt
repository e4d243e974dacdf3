//! What bearers handled of the events that they have, and the event that a failed call had in hand.
#![tactic(auto)]

ghost use Rattle.std.specs.Prelude.{◌≡◌, ℕ, ◌<◌, ◌≤◌, true, List, [], ◌∷◌, ◌++◌, length, map, Some};
ghost use Rattle.mesh_types.specs.declared.events.Event.{Event};
ghost use Rattle.mesh_types.specs.declared.history.Sent.{Sent};
ghost use Rattle.run_definitions.specs.Order.{is_outside};
ghost use Rattle.seq_word.specs.Seen.{DrawerView};
ghost use Rattle.locked_node.specs.Node.{NodeView, event_in};
ghost use Rattle.node_phase.specs.declared.bearers.Done.{Done};
ghost use Rattle.node_phase.specs.Part.{AreThrough, HadMemory, lines_of};
ghost use Rattle.node_phase.specs.Worked.{WasPhase};
ghost use Rattle.life_laws.specs.Hands.{AreHandledAll, IsInHand, IsNextIn};
ghost use Rattle.life_laws.specs.Phases.{AreDone, both_of};

/// Behind phases that are through, each bearer has handled all its events; and where a bearer was broken off in the phase behind them, the
/// event in hand of the node, if it is one from outside, is the next of some bearer, which has written the lines of all its events before.
pub fn hands_law<F>()
    ensures more { (phases : List (List (List Event))) (old new : NodeView F) (d e : DrawerView)
        (events : List (List Event)) (counts : List ℕ) (dones : List Done)
        → AreHandledAll phases old.machine.entries → WasPhase old new d e events counts dones → HadMemory dones
        → length events ≤ length counts → old.stops ≡ 0
        → AreThrough dones → AreHandledAll (phases ++ events ∷ []) new.machine.entries }
    ensures next { (phases rest : List (List (List Event))) (old new : NodeView F) (d e : DrawerView)
        (events : List (List Event)) (counts : List ℕ) (dones : List Done)
        → AreHandledAll phases old.machine.entries → WasPhase old new d e events counts dones → HadMemory dones
        → length events ≤ length counts → old.stops ≡ 0
        → 0 < new.stops → (event : Event) → event_in new.machine.hand ≡ Some event → is_outside event ≡ true
        → IsNextIn (phases ++ events ∷ rest) new.machine.entries event }
    // what that bearer left begins with it, so it left no line of an event before
    ensures hand { (phases rest : List (List (List Event))) (old new : NodeView F) (d e : DrawerView)
        (events : List (List Event)) (counts ends : List ℕ) (dones : List Done) (sends : List (List Sent))
        → AreDone phases old.machine.entries sends counts ends → WasPhase old new d e events counts dones → HadMemory dones
        → length events ≤ length counts → old.stops ≡ 0
        → 0 < new.stops → (event : Event) → event_in new.machine.hand ≡ Some event → is_outside event ≡ true
        → IsInHand (phases ++ events ∷ rest) new.machine.entries (both_of sends (map lines_of dones)) event }
{}
