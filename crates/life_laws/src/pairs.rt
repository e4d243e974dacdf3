//! The pairs that the lines of several phases draw.
#![tactic(auto)]

ghost use Rattle.std.specs.Prelude.{◌≡◌, ℕ, ◌<◌, ◌≤◌, List, [], ◌∷◌, ◌++◌, All, length, map, replicate};
ghost use Rattle.std.specs.List.{Contains};
ghost use Rattle.mesh_types.specs.declared.events.Event.{Event};
ghost use Rattle.mesh_types.specs.declared.history.Entry.{Entry};
ghost use Rattle.mesh_types.specs.declared.history.Sent.{Sent};
ghost use Rattle.record_types.specs.declared.records.StoreRecord.{StoreRecord};
ghost use Rattle.report_definitions.specs.Record.{Life, shown};
ghost use Rattle.run_definitions.specs.RunOf.{IsDrawn, IsSpentRight};
ghost use Rattle.seq_word.specs.Rule.{IsEndOf, times};
ghost use Rattle.seq_word.specs.Seen.{DrawerView};
ghost use Rattle.seq_word.specs.declared.looks.Look.TheVariants as saw;
ghost use Rattle.store_definitions.specs.Config.{config_of};
ghost use Rattle.locked_node.specs.Node.{NodeView};
ghost use Rattle.node_phase.specs.declared.bearers.Done.{Done};
ghost use Rattle.node_phase.specs.Part.{HadMemory, lines_of};
ghost use Rattle.node_phase.specs.Worked.{WasPhase};
ghost use Rattle.life_laws.specs.Pairs.{AreTimed, IsFromMove, PairsSo};
ghost use Rattle.life_laws.specs.Phases.{both_of};

/// The lines of a life draw the words that were drawn at its seats: before any phase, and with one phase more.
pub fn pairs_law<F>()
    ensures none { (bearers : ℕ) (moves : List ℕ) (d : DrawerView) → d.drawn ≡ []
        → PairsSo [] moves (replicate bearers []) d }
    ensures more { (old new : NodeView F) (d e : DrawerView) (events : List (List Event)) (counts : List ℕ)
        (dones : List Done) (sends : List (List Sent))
        → PairsSo old.machine.entries old.machine.moves sends d → WasPhase old new d e events counts dones → HadMemory dones
        → old.stops ≡ 0 → length sends ≡ length counts → length new.machine.moves ≡ length new.machine.entries
        → PairsSo new.machine.entries new.machine.moves (both_of sends (map lines_of dones)) e }
{}

/// And they are timed: each phase more ends behind all entries that there are then.
pub fn times_law<F>()
    ensures none { (bearers : ℕ) → AreTimed [] [] [] (replicate bearers []) }
    ensures more { (old new : NodeView F) (d e : DrawerView) (events : List (List Event)) (counts ends : List ℕ)
        (dones : List Done) (sends : List (List Sent))
        → AreTimed old.machine.entries old.counters ends sends
        → PairsSo old.machine.entries old.machine.moves sends d → WasPhase old new d e events counts dones → HadMemory dones
        → old.stops ≡ 0 → length sends ≡ length counts → length new.machine.moves ≡ length new.machine.entries
        → length new.counters ≡ length new.machine.entries
        → AreTimed new.machine.entries new.counters (ends ++ length new.machine.entries ∷ [])
        (both_of sends (map lines_of dones)) }
{}

/// So they are the pairs of a life that opened over the one list of records and leaves the other, where each drawn word lies between the
/// marks of these, and was drawn once; and where no look found more in the counter than the mark that is left, or the end of an IV Index there
/// whose last number wasn't drawn, unless the life opened there.
pub fn drawn_law()
    ensures drawn { (over next : List StoreRecord) (l : Life) (moves : List ℕ) (d : DrawerView)
        → PairsSo l.entries moves l.sends d
        → All (λ x. (config_of over).mark ≤ x) d.drawn → All (λ x. x < (config_of next).mark) d.drawn
        → ((x : ℕ) → times x d.drawn ≤ 1) → IsDrawn over next l }
    ensures spent { (over next : List StoreRecord) (l : Life) (moves : List ℕ) (d : DrawerView)
        → PairsSo l.entries moves l.sends d
        → ((word : ℕ) → Contains d.looks (saw.Counter word) → word ≤ (config_of next).mark)
        → All (IsEndOf (config_of over).mark d.drawn) d.looks
        → All (λ s. IsSpentRight over next l s.outcome) (shown l) }
{}

/// None of these lines tells a word below where the counter had been moved to behind its entry.
pub fn from_law()
    ensures from { (entries : List Entry) (moves : List ℕ) (sends : List (List Sent)) (d : DrawerView)
        → PairsSo entries moves sends d → All (All (IsFromMove entries moves)) sends }
{}
