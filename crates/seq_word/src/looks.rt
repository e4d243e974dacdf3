//! What a seat notes of what it saw.
#![tactic(auto)]

/// A look at one of the two words, with the word that was found. No value of it is made: it stands in proofs alone.
pub enum Look {
    /// A look at the mark.
    Mark(u64),
    /// A look at the counter: a load, or an exchange that was lost.
    Counter(u64),
}
