//! A caller of any number of passes, which shows what the clauses of the lock say together.
ghost use Rattle.std.specs.Prelude.{◌≡◌, ◌+◌, ℕ, Bool, List, ◌∷◌, false, All, map, sum_by};
ghost use Rattle.std.specs.List.{filter};
ghost use Rattle.turn_lock.specs.Entries.{IsPrefix, StandFrom, KeptOf, Holds, added, merged};
ghost use Rattle.turn_lock.specs.Views.{IsPassOf};

use crate::laws::kept_law;
use crate::logged::Logged;
use crate::turn::{Pass, Turn};
use std::sync::Wait;

/// Joins the passes, which have all parts of the lock between them, ends the lock, and returns its value.
pub fn gather<T: Logged + Drop>(
    rt: &impl Wait,
    turn: Turn<T>,
    first: Pass<T>,
    others: Vec<Pass<T>>,
) -> T
    requires first { IsPassOf turn first × (first.inside ≡ false) }
    requires others { All (λ p. IsPassOf turn p × (p.inside ≡ false)) others.items }
    requires all { first.parts + sum_by (λ p. p.parts) others.items ≡ 1024 }
    ensures origin { T.origin result ≡ T.origin turn.first }
    // The value has the entries that it began with, and behind them those of the passes, in the order of their places.
    ensures begins { IsPrefix (T.entries turn.first) (T.entries result) }
    ensures history { added (T.entries turn.first) (T.entries result)
        ≡ merged first.own (map (λ p. p.own) others.items) }
    ensures holds_first { Holds first.own (added (T.entries turn.first) (T.entries result)) }
    ensures holds { All (λ p. Holds p.own (added (T.entries turn.first) (T.entries result))) others.items }
    // A test that keeps entries of one pass alone finds them behind the first ones, each at its place, and in their order.
    ensures kept { (keep : ℕ × T.Entry → Bool) (ys : List (ℕ × T.Entry))
        → KeptOf keep (first.own ∷ map (λ p. p.own) others.items) ys
        → filter keep (added (T.entries turn.first) (T.entries result)) ≡ ys }
{
    let mut all = first;
    join_all(&turn, &mut all, others);
    let value = turn.enter(rt, &mut all);
    turn.close(all);
    value
}

// Joins passes to one.
fn join_all<T: Logged + Drop>(turn: &Turn<T>, all: &mut Pass<T>, others: Vec<Pass<T>>)
    requires pass { IsPassOf turn.now all.old × (all.old.inside ≡ false) }
    requires others { All (λ p. IsPassOf turn.now p × (p.inside ≡ false)) others.items }
    ensures pass { IsPassOf turn.now all.new × (all.new.inside ≡ false) }
    ensures parts { all.new.parts ≡ all.old.parts + sum_by (λ p. p.parts) others.items }
    ensures own { all.new.own ≡ merged all.old.own (map (λ p. p.own) others.items) }
    ensures holds_first { Holds all.old.own all.new.own }
    ensures holds { All (λ p. Holds p.own all.new.own) others.items }
    ensures kept { (keep : ℕ × T.Entry → Bool) (ys : List (ℕ × T.Entry))
        → KeptOf keep (all.old.own ∷ map (λ p. p.own) others.items) ys
        → filter keep all.new.own ≡ ys }
{
    // It does nothing when it runs: the proof uses what it says.
    kept_law::<T::Entry>();
    for other in others {
        turn.join(all, other);
    }
}
