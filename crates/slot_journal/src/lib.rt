//! A journal on flash: in every image that a power cut leaves stand the old slots, or these with the new one.
//!
//! What is written where: a bank has 1,024 slots of 32 octets, a kind, 30 octets and a gate. Slot 0 is its header, with the
//! format of its records, a generation and its complement. A slot is written in two program calls, all but its gate, and then
//! the gate, from ff to 00. A compaction erases the bank that doesn't count, sector by sector, writes its items there, and last
//! the header, with the next generation.
//!
//! Hence what a cut leaves: a slot that is blank, one with some of its bits cleared and a gate other than 00, or a whole one; of
//! a bank that was being erased any mixture, but for its header, which counts only as it did before. A bank's header is written
//! last, so that a bank counts only when all is there.
//!
//! Hence what mounting accepts: the bank whose header is sound, of two the one whose generation follows the other's, and of
//! that bank the slots with gate 00. A slot with any octet other than ff is used, and isn't written again before its erase.
//!
//! A caller to begin with: `make`, `append`, `kind_at` and `few` in `crates/worked_parts/src/tests/journals.rt`.
//!
//! # Octets
//!
//! Slot m of bank b, 0 to 1,023, lies from octet 32,768 b + 32 m of the flash on: it is number 1,024 b + m of the slots (`text_at`).
//!
//! | Octets of a slot | Hold |
//! |---|---|
//! | 0 | the kind |
//! | 1 to 30 | the body |
//! | 31 | the gate: 00, or the slot holds nothing (`gated`); ff until it is written |
//!
//! | Octets of slot 0, a header | Hold |
//! |---|---|
//! | 0 | f0, which isn't asked |
//! | 1 | the format of the slots, 01 or 02 (`format_of`) |
//! | 2 to 5 | the generation, its high octet first (`generation_of`) |
//! | 6 to 9 | ffffffff less the generation |
//! | 10 to 30 | 00 |
//! | 31 | the gate, 00 |
//!
//! A header is sound if and only if its gate is 00, its format 01 or 02, and the numbers in its octets 2 to 5 and 6 to 9 have the sum ffffffff
//! (`is_sound`). A bank counts if and only if its header is sound, and the other's isn't, or is the older of two: of two generations the one
//! is newer that is the other plus one, modulo 2^32; where neither is, the greater, and that of bank 0 where they are equal (`newer`,
//! `counting_by`). An image recovers what the gated slots of the bank that counts hold, in order, with its format (`recovered`).
//!
//! # Writes
//!
//! An append, where bank b has u used slots, with s = 32,768 b + 32 (u + 1), is two program calls (`calls` of `append`):
//!
//! 1. octets s to s + 30: the kind and the body;
//! 2. octet s + 31, the gate: 00. From here on the slot counts (`durable`).
//!
//! A cut in 1 leaves the gate ff, and one in 2 leaves any gate: so the slot is whole, or its gate isn't 00 (`IsSlotWrite`), and every image
//! recovers what was held, or this with the slot last (`IsAppended`).
//!
//! A compaction of k items, at most as many as a bank has room for, from bank b into bank c = 1 - b (`calls` of `compact`):
//!
//! | Call | Writes |
//! |---|---|
//! | 1 to 8 | erases the sectors 8 c to 8 c + 7, in ascending order (test `a_journal_of_few_slots_and_of_many`) |
//! | 9 to 8 + 2 k | the two calls of each item, in order, in the slots 1 to k of bank c |
//! | 9 + 2 k | octets 0 to 30 of the header of c, with format 02 and the next generation, modulo 2^32 |
//! | 10 + 2 k | the gate of that header: 00. From here on bank c counts (`durable`) |
//!
//! A cut in an erase can't let a header of c count that didn't, nor as another than it was (`IsErasing`, `IsSteady`); while items are written
//! that header is blank (`IsBankBare`), and while it is written it is whole, or its gate isn't 00 (`IsSlotWrite`). So every image recovers
//! what was held, or the items in format 02 (`IsCompacted`).
//!
//! A journal that is made has the same calls for its items and its header, in bank 0 with generation 1, and no erase (`calls` of `format`). A
//! mount and the reading of a slot write nothing (`stays`, `calls`), and an append and a compaction read nothing (`reads`).
#![tactic(auto)]

mod compacting;
mod filling;
mod formatting;
mod header;
mod items;
mod journal;
mod mounting;
mod text;
mod tidying;

pub use compacting::CompactFault;
pub use formatting::FormatFault;
pub use items::Items;
pub use journal::{AppendFault, Journal};
pub use mounting::NoMount;
pub use tidying::{Untidy, check_tidy};
