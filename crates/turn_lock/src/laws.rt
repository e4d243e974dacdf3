//! What follows from the definitions of own entries and of their merge. Each law is the contract of a function that does
//! nothing.
ghost use Rattle.std.specs.Prelude.{◌≡◌, ◌≢◌, ◌⊎◌, ℕ, ◌<◌, Bool, List, [], ◌∷◌, length, slice_index_or};
ghost use Rattle.std.specs.List.{Contains, filter};
ghost use Rattle.turn_lock.specs.Entries.{StandFrom, KeptOf, merge};

/// What a test, as one that tells which thread wrote an entry, keeps of the own entries of passes that are joined. Own
/// entries stand in a list by the clause `stands` of each call that hands a pass back.
pub fn kept_law<E>()
    // If it keeps nothing of the entries of one pass, it keeps of the merge what it keeps of the other's, in its order.
    ensures first { (keep : ℕ × E → Bool) (n : ℕ) (log : List E) (xs ys : List (ℕ × E)) → StandFrom n log xs
        → filter keep ys ≡ [] → filter keep (merge xs ys) ≡ filter keep xs }
    ensures second { (keep : ℕ × E → Bool) (xs ys : List (ℕ × E))
        → filter keep xs ≡ [] → filter keep (merge xs ys) ≡ filter keep ys }
    // For any number of passes: a join puts the merge in the place of two lists, and at the end one list is left.
    ensures start { (keep : ℕ × E → Bool) (k : ℕ) (lists : List (List (ℕ × E))) (d ys : List (ℕ × E)) → k < length lists
        → filter keep (slice_index_or lists k d) ≡ ys
        → ((j : ℕ) → j < length lists → j ≢ k → filter keep (slice_index_or lists j d) ≡ [])
        → KeptOf keep lists ys }
    ensures join { (keep : ℕ × E → Bool) (n : ℕ) (log : List E) (xs ys zs : List (ℕ × E)) (rest : List (List (ℕ × E)))
        → StandFrom n log xs → KeptOf keep (xs ∷ ys ∷ rest) zs → KeptOf keep (merge xs ys ∷ rest) zs }
    ensures end { (keep : ℕ × E → Bool) (xs ys : List (ℕ × E)) → KeptOf keep (xs ∷ []) ys → filter keep xs ≡ ys }
{}

/// A merge holds the entries of both passes, each at its place, and no others.
pub fn merge_law<E>()
    ensures first { (xs ys : List (ℕ × E)) (x : ℕ × E) → Contains xs x → Contains (merge xs ys) x }
    ensures second { (xs ys : List (ℕ × E)) (x : ℕ × E) → Contains ys x → Contains (merge xs ys) x }
    ensures only { (xs ys : List (ℕ × E)) (x : ℕ × E) → Contains (merge xs ys) x → Contains xs x ⊎ Contains ys x }
{}
