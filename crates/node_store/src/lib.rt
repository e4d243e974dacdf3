//! The store of a node: its records on flash, and what they say. In every image that a power cut leaves stand records that say what the old
//! ones said, or these with the new one.
//!
//! What is written where: a record is one slot of a journal. Provisioning writes the identity, the numbers and the first network key, and
//! then the header, with which the bank counts. Each later record is one slot more. Where all 1,023 slots of the bank are used, and where a
//! bank of format 01 is mounted, the records that say the same anew are written into the other bank, in format 02, and then its header with
//! the next generation, with which that bank counts.
//!
//! Hence what a cut leaves: no bank that counts, while a node is provisioned; while a record is added the slots of before, or these with the
//! new one last; while a bank is written anew the old bank, or the new one, which says the same. So what is recovered says what the old list
//! of records says, or it with the new record, and the mark doesn't fall.
//!
//! Hence what mounting accepts: gated slots each of which is the text of a record that may follow those before it. A gated slot that is no
//! record, that would make a table grow past its size, or that lowers the known IV Index can't come from a cut: it is damage, and is refused
//! with its number. A slot whose gate isn't 00 is passed over. A node that was reset isn't mounted again.
//!
//! - `store`: the store, and a record that is put
//! - `room`: a bank that is full is compacted
//! - `several`: records that are put one after another
//! - `provision`: the first records
//! - `mounting`: a store is found again, and migrated
//! - `laws`: what is true of the tie of a store and its flash, and of what an image holds
//!
//! A caller to begin with: `accepted` in `crates/worked_parts/src/tests/stores.rt`.
//!
//! # Invariants
//!
//! An image is the octets that may be read of the flash after a cut now (`images`). It recovers the records whose texts the gated slots of the
//! bank that counts are (`IsRecovered`), is read as them where each may follow those before it (`IsRead`), and holds a list of records where
//! it is read as one that says the same (`Holds`, `IsAlike`).
//!
//! Of every store, whatever its flash:
//!
//! 1. It is of format 02, and what it says some records in range say (`IsSaid`: `said` of `persist` and `put`; `format` of `mount`); so its
//!    numbers are in range (`HasNumbers`: `numbers` of `persist`).
//! 2. At most 1,023 slots are used (`few` of `used`).
//! 3. A store that is closed takes no record, and a record that isn't taken changes nothing that the store says (`closed`, `refused`).
//! 4. Ok leaves the count of faults, and `Flash` comes only where it rose (`leaves.no_fault` and `fails.cause` of `put`).
//!
//! Of a store and its flash, where that is honest:
//!
//! 5. What is read is the one image of the flash, it is read as some records, and the store says what they say (`IsExactly`). A caller's list
//!    is one that says the same (`IsStoreOf`): `provision` and `mount` give that, and each Ok keeps it (`puts.kept` of `put`).
//! 6. Every image at every moment is tidy (`IsTidy`), so that a header which doesn't count can't come to count by an erase that is cut; and
//!    but for `provision` it holds the records of before, or those with a front of the new ones (`cut.any_moment` of `put`; `IsHeld`,
//!    `IsPut`, `IsFront`).
//! 7. In each such image each record may follow those before it (`IsRead`, `AreInOrder`): no table outgrows its size, and the known IV Index
//!    doesn't fall. So it is mounted again, unless there was a Node Reset (`stands`, `was_reset` of `held_law`).
//! 8. The mark that is recovered doesn't fall (`cut.mark` of `put`; `HasMarkFrom`), and only a Numbers record moves it (`same_mark`;
//!    `HasMark`).
//! 9. After Ok every image holds the new record (`puts.durable` of `put`).
//!
//! # What a cut leaves, case by case
//!
//! For each what is on the flash then, what `mount` answers after power came, the clause, and the scripts or the tests that show it (these in
//! `worked_parts`).
//!
//! 1. While a node is provisioned, in the first seven of eight calls: slots of bank 0, and no header that is sound. `NoNode`. The eighth is
//!    the header's gate: `NoNode`, or the node (`any_moment` of `provision`, `IsMade`). Where an octet isn't ff by then, the flash has to be
//!    erased before it is provisioned again (`erased` of `provision`).
//! 2. In the first call of a put, the 31 octets of a slot: its gate is ff, so it holds nothing. It is used where an octet isn't ff, and the
//!    next record goes behind it. The records of before (`cut.any_moment` of `put`, `IsPut`; `worked/made.py`, a cut at each call of a message).
//! 3. In the second call, its gate: other than 00, as in case 2; or 00, and these records with the new one, though `put` answered `Flash`
//!    (the same clause and scripts).
//! 4. Among several records: those of before with the first few of the new ones behind them (`cut.any_moment` of `put_all`, `IsFront`;
//!    the same scripts).
//! 5. In an erase of a compaction: of the bank that doesn't count each bit is the old one or 1, and its header doesn't come to count by that
//!    (`IsTidy`). The records of before, from the other bank (`cut.any_moment` of `put`, `IsPut`; `worked/stored.py`, a cut at each call of a
//!    compaction).
//! 6. In a slot of a compaction: that bank's header is blank. As case 5.
//! 7. In the header of a compaction: its gate isn't 00, as case 5; or it is, and the new bank counts, whose records say the same (`Holds`).
//!    The new record isn't there in either. Behind it cases 2 and 3, in the new bank (the same clause and scripts).
//! 8. In a migration, which a mount makes of a bank of format 01: as cases 5 to 7. The records of before, in the one format or in the other,
//!    and the same mark (`any_moment`, `same_mark` of `mount`, `IsHeld`; `worked/stored.py`, a cut at each call of a migration). The next
//!    mount begins anew, but for one behind the whole header, which writes nothing (`stays`).
//! 9. A second cut, of what is done anew behind a first: what a cut leaves is tidy and holds records, so all of this is said of it again
//!    (`kept` of `mount`; the scripts of cases 5 and 8, each of which is cut twice).
//! 10. Between two calls, the last of which was Ok: its records, the new one last (`puts.durable` of `put`; `the_octets_of_a_node`).
//!
//! What no cut leaves is damage, `Damaged` with the first slot that is so (`cause`, `exact` of `mount`; `IsDamaged`): a gated slot that is no
//! record of the bank's format, that makes a table grow past its size, or that lowers the known IV Index (`what_is_mounted`,
//! `what_is_a_record`, `the_size_of_each_table`).
#![tactic(auto)]

mod images;
pub mod laws;
mod mounting;
mod provision;
mod room;
mod several;
mod store;

pub use images::{ImageFault, read_image};
pub use mounting::StoreFault;
pub use node_records::Persist;
pub use provision::Provision;
pub use slot_journal::FormatFault;
pub use store::{PutFault, Store};
