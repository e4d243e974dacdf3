//! What a store says of a node, as a world of numbers and messages (`mesh_world`), and the steps of the world that the node's records
//! take. A record that is durable is a step of the world; what is in no store, as the published mark, goes by steps of its own.
//!
//! The crate has definitions (in `specs/`) and laws about them: the functions below do nothing, and their contracts are the laws. The calls
//! of the crates above that put records say their steps in these words.
#![tactic(auto)]

ghost use Rattle.std.specs.Prelude.{◌≡◌, ◌⊎◌, ℕ, ◌+◌, ◌*◌, ◌^◌, ◌≤◌, Bool, List, [], ◌∷◌, ◌++◌, None};
ghost use Rattle.mesh_base.specs.IvState.{transmit_of};
ghost use Rattle.mesh_base.specs.declared.address.Address.{Address};
ghost use Rattle.mesh_base.specs.declared.pair.Name.{Name};
ghost use Rattle.mesh_world.specs.World.{after, provisioned, IsAllowed, Sealing, World, WorldStep};
ghost use Rattle.mesh_world.specs.World.WorldStep.{Accept, Advance, Cut, Deliver, Draw, Expire, Publish, Reserve, Seal};
ghost use Rattle.node_records.specs.declared.persist.Persist.{Persist};
ghost use Rattle.node_records.specs.Meaning.{IsMeaningOf};
ghost use Rattle.node_records.specs.Tables.{entry_in};
ghost use Rattle.record_types.specs.declared.records.StoreRecord.{StoreRecord};
ghost use Rattle.record_types.specs.declared.records.StoreRecord.TheVariants as R;
ghost use Rattle.store_definitions.specs.Provisioning as node;
ghost use Rattle.store_world.specs.Standing.{entry_with, GoesBy, IsAboveKept, IsWorldOf};

/// A Numbers record whose IV Index and mark aren't below the stored ones is a Reserve. A mark from the published to the stored one is
/// published by a Publish, and the counter moves to an IV Index whose first word is published by an Advance.
pub fn numbers_law()
    ensures reserve { (w : World) (p q : Persist) (published : ℕ) (records : List StoreRecord) (current : ℕ)
        (progress : Bool) (mark hours since : ℕ)
        → IsWorldOf w p published → IsMeaningOf records p
        → IsMeaningOf (records ++ R.Numbers current progress mark hours since ∷ []) q
        → p.iv.current ≤ current → p.mark ≤ mark → GoesBy (Reserve current mark ∷ []) w q published }
    ensures publish { (w : World) (p : Persist) (published mark : ℕ)
        → IsWorldOf w p published → published ≤ mark → mark ≤ p.mark → GoesBy (Publish mark ∷ []) w p mark }
    ensures advance { (w : World) (p : Persist) (published iv : ℕ)
        → IsWorldOf w p published → iv * 2 ^ 25 ≤ published → GoesBy (Advance iv ∷ []) w p published }
{}

/// A Replay record with one name is an Accept, where the name is read, and newer than the entry of its source in the store; whichever
/// expired row the table of the store gives up for it. Its pair is the entry of its source then, and the other entries stay.
pub fn accept_law()
    ensures accept { (w : World) (p q : Persist) (published : ℕ) (records : List StoreRecord) (name : Name)
        → IsWorldOf w p published → IsMeaningOf records p → IsMeaningOf (records ++ R.Replay name None ∷ []) q
        → (name.pair.iv ≡ p.iv.current) ⊎ (name.pair.iv + 1 ≡ p.iv.current)
        → IsAboveKept (entry_in p name.src.0) name.pair
        → GoesBy (Accept name ∷ []) w q published }
    ensures entry { (p q : Persist) (records : List StoreRecord) (name : Name)
        → IsMeaningOf records p → IsMeaningOf (records ++ R.Replay name None ∷ []) q
        → (name.pair.iv ≡ p.iv.current) ⊎ (name.pair.iv + 1 ≡ p.iv.current)
        → IsAboveKept (entry_in p name.src.0) name.pair
        → (src : ℕ) → entry_in q src ≡ entry_with name (entry_in p) src }
{}

/// What a node is provisioned with is such a world. A power cycle is a Cut, after which the stored mark is published. The steps that write
/// no record and publish no mark leave the world one of the same store.
pub fn standing_law()
    ensures provisioned { (made : node.Provisioning) (p : Persist) → IsMeaningOf (node.provisioned made) p
        → IsWorldOf (provisioned p.iv.current (transmit_of p.iv)) p p.mark }
    ensures cut { (w : World) (p : Persist) (published : ℕ) → IsWorldOf w p published
        → GoesBy (Cut p.mark ∷ []) w p p.mark }
    ensures draw { (w : World) (p : Persist) (published : ℕ) → IsWorldOf w p published
        → IsWorldOf (after w Draw) p published }
    ensures seal { (w : World) (p : Persist) (published : ℕ) (sealing : Sealing) → IsWorldOf w p published
        → IsWorldOf (after w (Seal sealing)) p published }
    ensures deliver { (w : World) (p : Persist) (published : ℕ) (name : Name) → IsWorldOf w p published
        → IsWorldOf (after w (Deliver name)) p published }
    ensures expire { (w : World) (p : Persist) (published : ℕ) (src : Address) → IsWorldOf w p published
        → IsAllowed w (Expire src)
        → IsWorldOf (after w (Expire src)) p published }
{}
