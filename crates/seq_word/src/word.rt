//! Words. A word is an IV Index above 25 bits of SEQ, so that the order of words is the order in which pairs are drawn.
//! SEQ is at most 2^24. The word whose SEQ is 2^24 says that its IV Index has no number left.
#![tactic(auto)]

ghost use Rattle.std.specs.Prelude.{◌≡◌};
ghost use Rattle.mesh_base.specs.Pairs.{word_of};
ghost use Rattle.seq_word.specs.Word.{iv_of, seq_of, IsWord};

use mesh_base::pair::Pair;

/// From a word to the word of the same SEQ under the next IV Index.
pub const WORDS_PER_IV: u64 = 0x200_0000;

/// The SEQ at which an IV Index has no number left.
pub const SPENT_SEQ: u32 = 0x100_0000;

/// How many numbers a refill reserves: the mark goes up by so many.
pub const BLOCK: u64 = 256;

/// The IV Index and the SEQ of a word.
pub fn pair_of(word: u64) -> Pair
    requires { IsWord word }
    ensures iv { result.iv ≡ iv_of word }
    ensures seq { result.seq ≡ seq_of word }
    ensures value { word_of result ≡ word }
{
    Pair {
        iv: (word / WORDS_PER_IV) as u32,
        seq: (word % WORDS_PER_IV) as u32,
    }
}
