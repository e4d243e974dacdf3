//! SeqAuth: the number under which a segmented message was sealed.
#![tactic(auto)]

ghost use Rattle.std.specs.Prelude.{◌≡◌, ℕ, ◌%◌, ◌^◌, ◌≤◌, IfNone, IfSome};
ghost use Rattle.layer_definitions.specs.Lower.{seq_auth as seq_auth_of};
ghost use Rattle.lower_transport.specs.SeqAuth.{IsSeqAuth};

use mesh_base::pair::Pair;

/// How many numbers SeqZero counts: it has 13 bits.
const COUNT: u32 = 0x2000;

/// The pair of SeqAuth (section 3.5.3.1): the IV Index, and the greatest number at most SEQ whose low 13 bits are
/// `seq_zero`. None exactly where there is no such number.
#[tactic(auto, unfolding(layer_definitions::specs::Lower::seq_auth))]
pub fn seq_auth(pair: Pair, seq_zero: u16) -> Option<Pair>
    ensures value { result ≡ seq_auth_of pair seq_zero }
    ensures some { IfSome result (λ p. (p.iv ≡ pair.iv) × IsSeqAuth pair.seq seq_zero p.seq) }
    ensures none { IfNone result ((n : ℕ) → n ≤ pair.seq → n % 2 ^ 13 ≡ seq_zero → ⊥) }
{
    let seq_zero = u32::from(seq_zero);
    if seq_zero >= COUNT {
        return None;
    }
    let below = (pair.seq % COUNT + COUNT - seq_zero) % COUNT;
    let seq = pair.seq.checked_sub(below)?;
    Some(Pair { iv: pair.iv, seq })
}
