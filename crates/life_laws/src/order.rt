//! The order of the entries and the lines of several phases.
#![tactic(auto)]

ghost use Rattle.std.specs.Prelude.{◌≡◌, ℕ, ◌≤◌, Bool, true, List, [], ◌∷◌, ◌++◌, length, map};
ghost use Rattle.mesh_types.specs.declared.events.Event.{Event};
ghost use Rattle.mesh_types.specs.declared.history.Sent.{Sent};
ghost use Rattle.report_definitions.specs.Record.{list_at};
ghost use Rattle.seq_word.specs.Seen.{DrawerView};
ghost use Rattle.locked_node.specs.Node.{NodeView};
ghost use Rattle.node_phase.specs.declared.bearers.Done.{Done};
ghost use Rattle.node_phase.specs.Part.{AreThrough, HadMemory, lines_of, number_at};
ghost use Rattle.node_phase.specs.Worked.{WasPhase};
ghost use Rattle.life_laws.specs.Phases.{AreDone, AreNumbered, AreOrdered, both_of};

/// Before any phase there are no entries.
pub fn no_phases()
    ensures done { (sends : List (List Sent)) (counts : List ℕ) → ((k : ℕ) → list_at sends k ≡ [])
        → ((k : ℕ) → number_at counts k ≡ 0) → AreDone [] [] sends counts [] }
{}

/// One phase more, where none of its bearers stopped for want of memory. It ends behind all entries that there are then.
pub fn one_phase_more<F>()
    // where no bearer stopped, it is through too
    ensures done { (phases : List (List (List Event))) (old new : NodeView F) (d e : DrawerView)
        (events : List (List Event)) (counts ends : List ℕ) (dones : List Done) (sends : List (List Sent))
        → AreDone phases old.machine.entries sends counts ends → WasPhase old new d e events counts dones → HadMemory dones
        → length events ≤ length counts → old.stops ≡ 0
        → AreThrough dones
        → AreDone (phases ++ events ∷ []) new.machine.entries (both_of sends (map lines_of dones))
        (map (λ x. x.number) dones) (ends ++ length new.machine.entries ∷ []) }
    // else the life is broken off in it, each bearer where it needs the machine, whatever phases it has behind it
    ensures broken { (phases rest : List (List (List Event))) (old new : NodeView F) (d e : DrawerView)
        (events : List (List Event)) (counts ends : List ℕ) (dones : List Done) (sends : List (List Sent))
        → AreDone phases old.machine.entries sends counts ends → WasPhase old new d e events counts dones → HadMemory dones
        → length events ≤ length counts → old.stops ≡ 0
        → AreOrdered true (phases ++ events ∷ rest) new.machine.entries (both_of sends (map lines_of dones))
        (ends ++ length new.machine.entries ∷ []) }
    ensures numbered { (phases : List (List (List Event))) (old new : NodeView F) (d e : DrawerView)
        (events : List (List Event)) (counts ends : List ℕ) (dones : List Done) (sends : List (List Sent))
        → AreDone phases old.machine.entries sends counts ends → WasPhase old new d e events counts dones → HadMemory dones
        → length events ≤ length counts → old.stops ≡ 0
        → (k : ℕ) → AreNumbered new.machine.entries (map (λ x. x.number) dones) k }
{}

/// A life all of whose phases are through is ordered, cut or not.
pub fn all_phases()
    ensures ordered { (is_cut : Bool) (phases : List (List (List Event))) (entries : _) (sends : List (List Sent))
        (counts ends : List ℕ) → AreDone phases entries sends counts ends → AreOrdered is_cut phases entries sends ends }
{}
