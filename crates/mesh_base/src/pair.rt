//! What a nonce is made of: an IV Index with a SEQ; and the name of a message.
#![tactic(auto)]

ghost use Rattle.std.specs.Prelude.{◌≡◌, ◌<◌, ◌≤◌, ◌↔◌, ◌⊎◌, true, false};
ghost use Rattle.mesh_base.specs.declared.pair.Pair.{Pair};
ghost use Rattle.mesh_base.specs.Pairs.{is_expired, is_name, is_newer, word_of, IsPair};

use crate::address::Address;

/// An IV Index and a sequence number (Mesh Profile 1.0.1, section 3.8.3). Pairs are ordered by the IV Index first.
#[derive(Clone, Copy, Debug, Default, PartialEq, Eq, PartialOrd, Hash)]
pub struct Pair {
    /// The IV Index.
    pub iv: u32,
    /// SEQ, below 2^24.
    pub seq: u32,
}

/// The name of a message: who sent it, and under which pair. Of a segmented message the pair is its SeqAuth
/// (section 3.5.3.1).
#[derive(Clone, Copy, Debug, Default, PartialEq, Eq, Hash)]
pub struct Name {
    /// SRC, the unicast address of the sender.
    pub src: Address,
    /// The pair, or SeqAuth.
    pub pair: Pair,
}

impl Pair {
    /// Whether no PDU of its IV Index is read any more under the known IV Index `current` (section 3.10.5).
    pub fn is_expired(&self, current: u32) -> bool
        ensures value { result ≡ is_expired current self.now }
    {
        u64::from(self.iv) + 1 < u64::from(current)
    }
}

impl Name {
    /// Whether this is the name of the same message: one SRC, IV Index and SEQ.
    pub fn is_same(&self, other: &Name) -> bool
        ensures value { result ≡ is_name self.now other.now }
    {
        self.src.0 == other.src.0
            && self.pair.iv == other.pair.iv
            && self.pair.seq == other.pair.seq
    }
}

/// The order of pairs is that of their words, as long as both are within their widths; what isn't newer is that pair or below it; and
/// order passes on from pair to pair.
pub fn order_law()
    ensures words { (p q : Pair) → IsPair p → IsPair q → (is_newer p q ≡ true) ↔ (word_of q < word_of p) }
    ensures one_word { (p q : Pair) → IsPair p → IsPair q → word_of p ≡ word_of q → p ≡ q }
    ensures up_to { (p q : Pair) → (is_newer p q ≡ false) ↔ ((p.iv < q.iv) ⊎ ((p.iv ≡ q.iv) × (p.seq ≤ q.seq))) }
    ensures newer { (p q r : Pair) → is_newer p q ≡ true → is_newer q r ≡ true → is_newer p r ≡ true }
    ensures not_newer { (p q r : Pair) → is_newer p q ≡ false → is_newer q r ≡ false → is_newer p r ≡ false }
{}
