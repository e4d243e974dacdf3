//! Laws about what an image of the flash recovers. Each is the contract of a function that does nothing.
#![tactic(auto)]

ghost use Rattle.std.specs.Prelude.{◌≡◌, ℕ, List};
ghost use Rattle.record_types.specs.declared.records.StoreRecord.{StoreRecord};
ghost use Rattle.store_definitions.specs.Ranges.{IsInRange};
ghost use Rattle.store_definitions.specs.Recovered.{record_text, IsRecovered};

/// Records with their fields in range have different texts, so an image recovers at most one list of records.
pub fn one_list_is_recovered()
    ensures one_text { (r s : StoreRecord) → IsInRange r → IsInRange s → record_text r ≡ record_text s → r ≡ s }
    ensures one_list { (image : List ℕ) (rs ss : List StoreRecord) → IsRecovered image rs → IsRecovered image ss
        → rs ≡ ss }
{}
