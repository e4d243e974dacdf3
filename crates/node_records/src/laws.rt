//! What is true of every value of records in range. Each law is the contract of a function that does nothing.
#![tactic(auto)]

ghost use Rattle.std.specs.Prelude.{◌≡◌, ◌<◌, ◌^◌, List, [], ◌∷◌, ◌++◌, All};
ghost use Rattle.layer_definitions.specs.KeyRefresh.{net_index, app_index};
ghost use Rattle.layer_definitions.specs.Order.{IsByIndex};
ghost use Rattle.mesh_base.specs.IvState.{HasTransmit};
ghost use Rattle.record_types.specs.declared.records.StoreRecord.{StoreRecord};
ghost use Rattle.store_definitions.specs.Alike.{IsAlike};
ghost use Rattle.store_definitions.specs.Config.{config_of, publication_index};
ghost use Rattle.store_definitions.specs.Following.{DoesNotLower};
ghost use Rattle.store_definitions.specs.Ranges.{IsInRange, IsMark};
ghost use Rattle.node_records.specs.declared.persist.Persist.{Persist};
ghost use Rattle.node_records.specs.Meaning.{IsMeaningOf, IsSaid};

/// The IV state and the mark that records in range say are in range: the IV Index has 32 bits and there is one to send with, the mark is a
/// word under it, and the hours have 16 bits.
pub fn numbers_law()
    ensures current { (records : List StoreRecord) → All IsInRange records → (config_of records).iv.current < 2 ^ 32 }
    ensures transmit { (records : List StoreRecord) → All IsInRange records → HasTransmit (config_of records).iv }
    ensures mark { (records : List StoreRecord) → All IsInRange records
        → IsMark (config_of records).iv (config_of records).mark }
    ensures hours { (records : List StoreRecord) → All IsInRange records → (config_of records).iv.hours < 2 ^ 16 }
    ensures since { (records : List StoreRecord) → All IsInRange records → (config_of records).iv.since < 2 ^ 16 }
{}

/// The same of a value that records in range stand for.
pub fn value_law()
    ensures current { (p : Persist) → IsSaid p → p.iv.current < 2 ^ 32 }
    ensures transmit { (p : Persist) → IsSaid p → HasTransmit p.iv }
    ensures mark { (p : Persist) → IsSaid p → IsMark p.iv p.mark }
    ensures hours { (p : Persist) → IsSaid p → p.iv.hours < 2 ^ 16 }
    ensures since { (p : Persist) → IsSaid p → p.iv.since < 2 ^ 16 }
{}

/// The tables of keys and of publications stand by index, whatever the records are.
pub fn order_law()
    ensures nets { (records : List StoreRecord) → IsByIndex net_index (config_of records).nets }
    ensures apps { (records : List StoreRecord) → IsByIndex app_index (config_of records).apps }
    ensures publications { (records : List StoreRecord) → IsByIndex publication_index (config_of records).publications }
{}

/// Two lists of which one value is the meaning say the same, what says the same has the same meaning, and one record more at both ends leaves
/// it so.
pub fn alike_law()
    ensures one_value { (a b : List StoreRecord) (p : Persist) → IsMeaningOf a p → IsMeaningOf b p → IsAlike a b }
    ensures one_meaning { (a b : List StoreRecord) (p : Persist) → IsAlike a b → IsMeaningOf a p → IsMeaningOf b p }
    ensures push { (a b : List StoreRecord) (item : StoreRecord) → DoesNotLower a item → IsAlike a b
        → IsAlike (a ++ item ∷ []) (b ++ item ∷ []) }
{}
