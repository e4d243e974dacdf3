//! Sequence numbers that are durable before they are drawn: the mark of the two words (`seq_word`) is never above the one that every image
//! of the flash recovers.
//!
//! What is written where: a refill and a new IV state are one Numbers record each, with the mark that is reserved by it.
//!
//! Hence what a cut leaves: the mark of before, or the new one. The new one is published only when its record is durable. So no number at
//! or above the mark that is recovered was drawn, and the words of the next life open at that mark. What is below it and was not drawn is
//! lost, never drawn twice.
//!
//! - `reserve`: [`Reserve`] with its calls
//! - `records`: the Numbers records
//! - `putting`: a Numbers record is put
//! - `keep_fault`: why numbers weren't stored
//!
//! A caller to begin with: `reserved` in `crates/worked_parts/src/tests/stores.rt`.
//!
//! # Invariants
//!
//! The stored mark is that which the store says; the published mark is the keeper's, below which numbers are drawn; the counter is the next
//! number, as a word.
//!
//! 1. The published mark is the stored one (`IsPublished`): `start` gives it, and `refill` and `move_iv` keep it, whatever they answer
//!    (`published`). Whoever puts other records into `store` keeps it, if they say no mark.
//! 2. The keeper is that of the words that `start` gave with it (`made`).
//! 3. The counter begins at the stored mark (`opened`), and between any two steps of threads it is at most the mark (`in_order` of `Stands` in
//!    `seq_word`; `order` of `close`), and the mark at most 256 above it, and less where no seat owes a draw, but while both move to a new IV Index
//!    (`mark_is_near`; `near`, `paid` of `close`).
//! 4. After each call every image of the flash recovers the published mark or a higher one (`IsDurable`: `durable`), and at no moment of it a
//!    lower one than the stored mark of before (`cut.mark` of `refill`).
//! 5. A refill leaves the IV state, and its mark is 256 higher (`fill_of`: `filled`, `puts.kept` of `refill`). A mark is a word under the transmit IV Index
//!    whose SEQ is a multiple of 256, and at most 2^24 (`IsMark`: `numbers` of `persist` in `node_store`).
//! 6. Where the transmit IV Index rises, its first word is the mark, and the counter goes there if it isn't above; else the mark stays
//!    (`moved`: `advanced`, `stays`).
//! 7. A refusal leaves the keeper, and what the store says (`refused`); and where the store was closed, all (`closed`).
//!
//! 1 to 3, 5 to 7 hold of every flash, 4 of a store of this flash (`IsStoreOf`), where that is honest.
//!
//! # The states of a sequence number
//!
//! For each, which numbers are in it, who brings them there, and the clause:
//!
//! 1. **Reserved**: from the published mark on, and below the mark of a Numbers record that is being put. `refill` and `move_iv` begin that; a
//!    cut leaves the mark of before, or this one (`cut.any_moment` of `refill`, `IsPut`).
//! 2. **Durable**: each image of the flash recovers a mark above it. The same calls, when their record is put (`durable`, `IsDurable`).
//! 3. **Published**: below the keeper's mark, and not below the counter. The same calls, and only then: `refill` by `publish` of `seq_word`,
//!    `move_iv` by `advance` (`filled`, `advanced`; `value` of `publish`, `mark` of `advance`).
//! 4. **Drawn**: it was the counter, below the mark that was published, and stands once in the list of one seat. A bearer by its seat, with
//!    `draw` of `seq_word` and without the lock (`found`, `drawn`, `above` of `draw`; `drawn_once`, a law there).
//! 5. **Sealed**: a line has it, and shows the octets of its PDU. The same bearer, by `drawn_line` of `job_sealing` (`drawn`, `shows`). In a
//!    run no key and own nonce seals two plaintexts (`no_reuse` of `safety_law` in `run_safety`).
//! 6. **Passed over**: below the counter and not drawn, since the counter went on to a new IV Index. `move_iv`, by `advance` of `seq_word`
//!    (`advanced`; `noted` of `advance`, `all` of `close`).
//! 7. **Lost**: below the mark that the next life opens at, and not sealed. A power cut: the counter then begins there (`opened`), and what is
//!    drawn from then on is at or above it (`since` of `close`). So what was drawn before the cut isn't drawn again either. Those below the
//!    published mark that hadn't been drawn are fewer than 256, of words that are closed and owed no draw (`paid` of `close`); where the cut fell
//!    in a Numbers record, those that it reserves may be lost too (1).
//!
//! SEQ 2^24 is no number: a mark may have it, and from a counter that stands there nothing is drawn (`unspent` of `draw`).
#![tactic(auto)]

mod keep_fault;
mod putting;
mod records;
mod reserve;

pub use keep_fault::KeepFault;
pub use reserve::Reserve;
