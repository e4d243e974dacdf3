//! Laws about what a flash is mounted as, and about the tie of a store and its flash. Each is the contract of a function that does nothing.
#![tactic(auto)]

ghost use Rattle.std.specs.Prelude.{◌≡◌, ℕ, ◌≤◌, List, [], ◌∷◌, ◌++◌, length, take, true, false};
ghost use Rattle.flash_model.specs.Chip.{LeavesOnly, Stays};
ghost use Rattle.record_types.specs.declared.records.StoreRecord.{StoreRecord};
ghost use Rattle.node_records.specs.Meaning.{IsMeaningOf};
ghost use Rattle.store_definitions.specs.Alike.{IsAlike};
ghost use Rattle.store_definitions.specs.Config.{config_of};
ghost use Rattle.store_definitions.specs.Node.{IsNodeOrReset};
ghost use Rattle.node_store.specs.declared.mounting.StoreFault.{StoreFault};
ghost use Rattle.node_store.specs.Causes.{IsFoundAs};
ghost use Rattle.node_store.specs.Mounted.{IsRead};
ghost use Rattle.node_store.specs.Tie.{Holds, IsExactly, IsFront, IsHeld, IsNode, IsPut, IsStoreOf};
ghost use Rattle.node_store.specs.View.{StoreView};

use flash_model::Flash;

/// An image that recovers records each of which may follow those before it, as every image that a put leaves, and each that a provisioning
/// leaves with a bank that counts, is mounted: no refusal has a cause, but that of a Node Reset where a Reset record is among them.
pub fn what_is_read_is_mounted()
    ensures stands { (content : List ℕ) (records : List StoreRecord) → IsRead content records
        → (config_of records).reset ≡ false → (fault : StoreFault) → IsFoundAs content fault → ⊥ }
    ensures was_reset { (content : List ℕ) (records : List StoreRecord) → IsRead content records
        → (config_of records).reset ≡ true → (fault : StoreFault) → IsFoundAs content fault
        → fault ≡ StoreFault.WasReset }
{}

/// The tie of a store and its flash. It holds of each list that says the same, each image of the flash holds the records, and the store
/// knows what they say. What leaves the content of the flash keeps it, as the order to tear a later call does, and each read.
pub fn tie_law<F: Flash>()
    ensures stays { (old new : F) (store : StoreView) (records : List StoreRecord)
        → (F.chip new).honest ≡ (F.chip old).honest → Stays (F.chip old) (F.chip new)
        → IsStoreOf (F.chip old) store records → IsStoreOf (F.chip new) store records }
    ensures images { (flash : F) (store : StoreView) (records : List StoreRecord)
        → IsStoreOf (F.chip flash) store records → (c : List ℕ) → (F.chip flash).images c → IsHeld records c }
    ensures unchanged { (flash : F) (store : StoreView) (records : List StoreRecord)
        → IsStoreOf (F.chip flash) store records → LeavesOnly (F.chip flash) (F.chip flash) (IsHeld records) }
    ensures meaning { (flash : F) (store : StoreView) (records : List StoreRecord)
        → IsStoreOf (F.chip flash) store records → IsMeaningOf records store.persist }
    ensures alike { (flash : F) (store : StoreView) (a b : List StoreRecord) → IsAlike a b
        → IsStoreOf (F.chip flash) store a → IsStoreOf (F.chip flash) store b }
    ensures exactly { (flash : F) (store : StoreView) (records : List StoreRecord)
        → IsExactly (F.chip flash) store records → IsStoreOf (F.chip flash) store records }
{}

/// What an image holds: each list that says the same, and lists that one image holds say the same. It is mounted as the list that it
/// recovers: no refusal has a cause, but that of a Node Reset where a Reset record is among the records.
pub fn held_law()
    ensures alike { (content : List ℕ) (a b : List StoreRecord) → IsAlike a b → Holds content a → Holds content b }
    ensures once { (content : List ℕ) (a b : List StoreRecord) → Holds content a → Holds content b → IsAlike a b }
    ensures stands { (content : List ℕ) (records : List StoreRecord) → Holds content records
        → (config_of records).reset ≡ false → (fault : StoreFault) → IsFoundAs content fault → ⊥ }
    ensures was_reset { (content : List ℕ) (records : List StoreRecord) → Holds content records
        → (config_of records).reset ≡ true → (fault : StoreFault) → IsFoundAs content fault
        → fault ≡ StoreFault.WasReset }
{}

/// An image that holds the records of a node that can be run, or of one that was reset, is such a node. So is what a put or several leave,
/// where the records stay so with each new one.
pub fn image_law()
    ensures held { (content : List ℕ) (records : List StoreRecord) → IsHeld records content → IsNodeOrReset records
        → IsNode content }
    ensures put { (content : List ℕ) (records : List StoreRecord) (item : StoreRecord) → IsPut records item content
        → IsNodeOrReset records → IsNodeOrReset (records ++ item ∷ []) → IsNode content }
    ensures front { (content : List ℕ) (records items : List StoreRecord) → IsFront records items content
        → ((n : ℕ) → n ≤ length items → IsNodeOrReset (records ++ take n items)) → IsNode content }
{}
