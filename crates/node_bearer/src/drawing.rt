//! What a bearer draws, without the lock.
#![tactic(auto)]

ghost use Rattle.std.specs.Prelude.{◌≡◌, ℕ, ◌<◌, ◌≤◌, ◌^◌, List, [], ◌∷◌, ◌++◌, None, Ok, IfOk, OnOk, IfErr, IfSome, OnErr};
ghost use Rattle.mesh_base.specs.Pairs.{word_of};
ghost use Rattle.run_definitions.specs.Order.{Task};
ghost use Rattle.seq_word.specs.Seen.{AfterLost, Finds, HasCause, IsAbove, IsEndAbove, IsFoundBy, IsPrefix, SameDrawn, miss_of};
ghost use Rattle.seq_word.specs.Word.{seq_of};
ghost use Rattle.locked_node.specs.Asked.{WasAsked};
ghost use Rattle.locked_node.specs.Node.{OnStop};
ghost use Rattle.node_bearer.specs.Did.{DidBy, DrewBy, GoesOn, IsRider, IsUnspent, LeftOff, SawDry, freed};
ghost use Rattle.node_bearer.specs.Tries.{DrawsUntil, IsRaised};

use crate::acting::refill;
use crate::bearer::{Bearer, Drawn};
use crate::sharing::Sharing;
use crate::workplace::Workplace;
use flash_model::Flash;
use locked_node::{Node, Raised};
use machine_contract::{Machine, Stop};
use mesh_base::pair::Pair;
use seq_word::{DrawStop, Drawer, Dry, Miss, Numbers};

/// The SEQ at which an IV Index has no number left.
const SPENT_SEQ: u64 = 0x100_0000;

/// From a word to the word of the same SEQ under the next IV Index.
const WORDS_PER_IV: u64 = 0x200_0000;

/// How often a draw is tried, and for how many refills it asks. A try is lost where another seat came between, and a mark is reached again
/// where others drew all numbers below it: so no run comes to so many.
const MOST_TRIES: u32 = u32::MAX;

/// Has a mark raised that the counter has reached, where SEQ of the mark is below 2^24 (`raised`); else it does nothing (`last`).
fn raise<M: Machine, F: Flash + Send + Drop, S: Sharing>(
    place: &Workplace<'_, Node<M, F>, S>,
    b: &mut Bearer<Node<M, F>>,
    dry: Dry,
) -> Result<Option<Raised>, Stop>
    requires rider { IsRider S.parts place.now.numbers.now place.now.turn.now b.old }
    requires found { IsFoundBy dry b.old.drawer }
    requires asked { WasAsked place.now.turn.now.first.machine.taken b.old.pass.seen }
    ensures rider { IsRider S.parts place.now.numbers.now place.now.turn.now b.new }
    ensures on { GoesOn b.old (freed b.new) }
    ensures frame { (b.new.lines ≡ b.old.lines)
        × (b.new.drawer ≡ record b.old.drawer { owes = b.new.drawer.owes }) }
    ensures failed { OnErr result (b.new.drawer ≡ b.old.drawer) }
    ensures raised { seq_of dry.mark < 2 ^ 24 → IfOk result (IsRaised dry.mark) }
    ensures last { 2 ^ 24 ≤ seq_of dry.mark → (result ≡ Ok None) × (b.new ≡ b.old) }
    ensures did { (k first : ℕ) (tasks rest : List Task) → DidBy k first tasks rest b.old
        → OnOk result (DidBy k first tasks rest b.new) }
    ensures stopped { (k first : ℕ) (tasks rest : List Task) → DidBy k first tasks rest b.old
        → IfErr result (λ e. OnStop e (LeftOff k first tasks rest b.new)) }
{
    // Else the mark is at the end of its IV Index, and the counter under the next one: its mark was published since.
    if dry.mark() % WORDS_PER_IV < SPENT_SEQ {
        Ok(Some(refill(place, b, dry)?))
    } else {
        Ok(None)
    }
}

/// Draws a pair below the mark. It tries again where another seat came between, and for no other cause. Where each try was lost, it tells no
/// cause.
fn draw_below(n: &Numbers, d: &mut Drawer) -> Result<Pair, Option<DrawStop>>
    requires made { d.old.which ≡ n.now.which }
    ensures looks { IsPrefix d.old.looks d.new.looks }
    ensures frame { (d.new.which ≡ d.old.which) × (d.new.noted ≡ d.old.noted) × (d.new.known ≡ d.old.known)
        × (d.new.informed ≡ d.old.informed) × (d.new.parts ≡ d.old.parts) }
    ensures drawn { IfOk result (λ p. d.new.drawn ≡ d.old.drawn ++ word_of p ∷ []) }
    ensures above { IfOk result (λ p. IsAbove d.old (word_of p)) }
    ensures unspent { IfOk result (λ p. p.seq < 2 ^ 24) }
    ensures found { IfOk result (λ p. AfterLost (Finds p) d.old d.new) }
    ensures err { OnErr result (SameDrawn d.old d.new) }
    ensures cause { IfErr result (λ e. IfSome e (λ s. AfterLost (HasCause (miss_of s)) d.old d.new)) }
    ensures end { IfErr result (λ e. IfSome e (λ s. IsEndAbove d.old (miss_of s))) }
    ensures owes { d.new.owes ≡ 0 }
{
    for _ in 0..MOST_TRIES {
        match n.try_draw(d) {
            Ok(pair) => return Ok(pair),
            Err(Miss::Spent { iv }) => return Err(Some(DrawStop::Spent { iv })),
            Err(Miss::Dry(dry)) => return Err(Some(DrawStop::Dry(dry))),
            Err(Miss::Lost { .. }) => {}
        }
    }
    Err(None)
}

/// Draws a pair. Where the counter has reached the mark, it has a refill stored and draws again, and for no other cause. It waits for
/// nobody but for its turn to have a refill stored; after 2^32 - 1 tries it gives up, as for want of memory.
///
/// It draws only once an entry that the bearer has seen at the lock, and that wasn't taken before, has a job that draws (`asked`).
pub fn draw<M: Machine, F: Flash + Send + Drop, S: Sharing>(
    place: &Workplace<'_, Node<M, F>, S>,
    b: &mut Bearer<Node<M, F>>,
) -> Result<Drawn, Stop>
    requires rider { IsRider S.parts place.now.numbers.now place.now.turn.now b.old }
    requires asked { WasAsked place.now.turn.now.first.machine.taken b.old.pass.seen }
    ensures rider { IsRider S.parts place.now.numbers.now place.now.turn.now b.new }
    ensures on { GoesOn b.old b.new }
    ensures frame { b.new.lines ≡ b.old.lines }
    ensures seq { IfOk result IsUnspent }
    ensures tries { IfOk result (λ r. DrawsUntil r b.old.drawer b.new.drawer) }
    ensures did { (k first : ℕ) (tasks rest : List Task) → DidBy k first tasks rest b.old
        → IfOk result (λ r. DrewBy r k first tasks rest b.new) }
    ensures stopped { (k first : ℕ) (tasks rest : List Task) → DidBy k first tasks rest b.old
        → IfErr result (λ e. OnStop e (LeftOff k first tasks rest b.new)) }
    ensures dry { IfErr result (λ e. OnStop e (SawDry b.new.drawer)) }
{
    for _ in 0..MOST_TRIES {
        match draw_below(place.numbers, &mut b.drawer) {
            Ok(pair) => return Ok(Drawn::Pair(pair)),
            Err(Some(DrawStop::Spent { iv })) => return Ok(Drawn::Spent(iv)),
            Err(Some(DrawStop::Dry(dry))) => {
                raise(place, b, dry)?;
            }
            Err(None) => return Err(Stop::Memory),
        }
    }
    // The mark that was raised last is drawn behind too.
    match draw_below(place.numbers, &mut b.drawer) {
        Ok(pair) => Ok(Drawn::Pair(pair)),
        Err(Some(DrawStop::Spent { iv })) => Ok(Drawn::Spent(iv)),
        Err(_) => Err(Stop::Memory),
    }
}
