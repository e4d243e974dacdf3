//! Why the node is safe, apart from all code: a world of numbers, seals and messages, the nine steps that change it,
//! and the law that each step keeps a good world. In a good world no key and nonce seal two plaintexts, and no
//! message is delivered twice.
//!
//! The crate has definitions (in `specs/`) and laws about them: the functions below do nothing, and their contracts
//! are the laws.
//!
//! - **Numbers.** A pair of IV Index and SEQ is counted as one word, and `next` is the word of the next pair. Pairs
//!   are drawn one by one below the `mark`, and the mark is never above the durable mark `kept`. A power cut forgets
//!   `next`, and the node goes on at the durable mark, which is above all that was drawn. So no pair is ever drawn
//!   twice.
//! - **Seals.** A pair serves for one seal of the network layer and one of the upper transport layer. Their nonces
//!   differ in their first octet, and nonces of different pairs differ in IV Index or SEQ. So no nonce is used twice.
//! - **Messages.** A message is delivered only after its pair is the durable entry of its source, and it is accepted
//!   only above that entry. An entry goes only when its IV Index is too old to be read. So what was delivered, or was
//!   accepted and lost in a power cut, is never accepted again.
#![tactic(auto)]

ghost use Rattle.std.specs.Prelude.{◌≡◌, ℕ, ◌*◌, ◌+◌, ◌^◌, ◌<◌, ◌≤◌, ◌≢◌, [], All, Contains, List, None};
ghost use Rattle.mesh_base.specs.declared.pair.Name.{Name};
ghost use Rattle.mesh_base.specs.Pairs.{word_of};
ghost use Rattle.mesh_base.specs.Safety.{AtMostOnce, NoReuse};
ghost use Rattle.mesh_world.specs.Examples.{all_kinds, Breaks, draw_one, forget_one, hear_one, message, new_node, source};
ghost use Rattle.mesh_world.specs.Good.{IsGood};
ghost use Rattle.mesh_world.specs.World.{after, after_all, AreAllowed, HasNonce, IsAllowed, IsUnused, provisioned, Sealing, uses, World, WorldStep};
ghost use Rattle.mesh_world.specs.World.WorldStep.{Accept, Advance, Cut, Deliver, Draw, Expire, Publish, Reserve, Seal};

/// The law of the world: over every list of steps that are allowed where they stand, a good world stays good; and a
/// good world has no key and nonce with two plaintexts, and no message that was delivered twice.
pub fn world_law()
    ensures good { (w : World) (steps : List WorldStep)
        → IsGood w → AreAllowed w steps → IsGood (after_all w steps) }
    ensures no_reuse { (w : World) → IsGood w → NoReuse (uses w) }
    ensures at_most_once { (w : World) → IsGood w → AtMostOnce w.delivered }
{}

/// A node starts in a good world, and from there steps of every kind can be taken: so there are good worlds.
pub fn provisioned_law()
    ensures good { (current transmit : ℕ) → IsGood (provisioned current transmit) }
    ensures steps { AreAllowed new_node all_kinds }
{}

/// A power cut is allowed in every world. It leaves the next pair at the durable mark, and nothing held or pending;
/// what was drawn, sealed, accepted and delivered before stays so.
pub fn cut_law()
    ensures allowed { (w : World) → IsAllowed w (Cut w.kept) }
    ensures next { (w : World) → (after w (Cut w.kept)).next ≡ w.kept }
    ensures forgotten { (w : World) (mark : ℕ)
        → ((after w (Cut mark)).held ≡ []) × ((after w (Cut mark)).pending ≡ None) }
    ensures frame { (w : World) (mark : ℕ)
        → after w (Cut mark) ≡ record w { next = mark; mark = mark; kept = mark; held = []; pending = None } }
{}

/// The conditions of the steps are needed. The first clauses hold of every world: where the end of the step is good,
/// the condition held. The others are single worlds in which the step lacks nothing but the condition, and its end
/// isn't good.
pub fn conditions_law()
    // a pair is drawn only below the mark, and only within the widths of a pair
    ensures draw { (w : World) → IsGood (after w Draw) → IsAllowed w Draw }
    // a seal has a drawn pair that no other seal of its layer has, and a nonce with that pair
    ensures seal_drawn { (w : World) (s : Sealing) → IsGood (after w (Seal s)) → Contains w.drawn s.pair }
    ensures seal_unused { (w : World) (s : Sealing) → IsGood (after w (Seal s)) → IsUnused s.layer s.pair w.seals }
    ensures seal_nonce { (w : World) (s : Sealing) → IsGood (after w (Seal s)) → HasNonce s.layer s.pair s.made.nonce }
    // the durable mark doesn't fall below the mark, and the mark doesn't rise above the durable one
    ensures reserve_mark { (w : World) (current mark : ℕ) → IsGood (after w (Reserve current mark)) → w.mark ≤ mark }
    ensures publish { (w : World) (mark : ℕ) → IsGood (after w (Publish mark)) → mark ≤ w.kept }
    ensures advance { (w : World) (iv : ℕ) → IsGood (after w (Advance iv)) → IsAllowed w (Advance iv) }
    // what was delivered isn't accepted again, and what was drawn stays below the next pair
    ensures accept { (w : World) (name : Name) → IsGood (after w (Accept name)) → All (λ n. n ≢ name) w.delivered }
    ensures cut { (w : World) (mark : ℕ) → IsGood (after w (Cut mark)) → All (λ p. word_of p < mark) w.drawn }
    // a message whose pair is the entry of its source, and not above it
    ensures accept_above { Breaks hear_one (Accept message) }
    // a message two IV Indexes below the known one, whose source has no entry any more
    ensures accept_read { Breaks forget_one (Accept message) }
    // an entry that isn't expired
    ensures expire { Breaks hear_one (Expire source) }
    // a message that isn't pending, since it was delivered before
    ensures deliver { Breaks hear_one (Deliver message) }
    // a known IV Index that falls, so that a message is read again whose source has no entry any more
    ensures reserve_current { Breaks forget_one (Reserve 4 (5 * 2 ^ 25)) }
    // a cut that goes back below the durable mark, to a pair that was drawn
    ensures cut_kept { Breaks draw_one (Cut (4 * 2 ^ 25)) }
{}
