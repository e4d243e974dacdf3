//! What follows from the rule of the two words. That words stand in the order of their pairs is mesh_base's `order_law`.
#![tactic(auto)]

ghost use Rattle.std.specs.Prelude.{◌≢◌, ℕ, ◌≤◌, AllPairs, List};
ghost use Rattle.atomic_table.specs.Table.{State};
ghost use Rattle.seq_word.specs.declared.rule.View.{View};
ghost use Rattle.seq_word.specs.Rule.{times, Ruled, DrawnOnce, MarkIsKept, MarkIsNear};

/// Whatever the words and the seats are between two atomic steps, no two places of the drawn lists, of one seat or of two, hold
/// one word.
pub fn drawn_once()
    ensures { (opened : ℕ) (s : State ℕ View) → Ruled opened s → DrawnOnce s.views }
{}

/// Whatever the words and the seats are between two atomic steps, the second word is the mark in the view of the keeper's seat,
/// and no other seat is the keeper's.
pub fn mark_is_kept()
    ensures { (opened : ℕ) (s : State ℕ View) → Ruled opened s → MarkIsKept s }
{}

/// Whatever the words and the seats are between two atomic steps, the second word is at most 256 above the first, and a seat owes a draw where
/// it is 256 above; but between the two steps by which the keeper's seat moves both to a new IV Index.
pub fn mark_is_near()
    ensures { (opened : ℕ) (s : State ℕ View) → Ruled opened s → MarkIsNear s }
{}

/// Where each word stands in a list at most once, by counting, the words at any two of its places differ. Counting doesn't see
/// the order: so lists of drawn words may be put together in any order.
pub fn distinct()
    ensures value { (words : List ℕ) → ((x : ℕ) → times x words ≤ 1) → AllPairs (λ x y. x ≢ y) words }
    ensures any_order { (drawn words : List ℕ) → ((x : ℕ) → times x words ≤ times x drawn)
        → ((x : ℕ) → times x drawn ≤ 1)
        → AllPairs (λ x y. x ≢ y) words }
{}
