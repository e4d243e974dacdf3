//! The records of an event are put in their order. The event is over when all are durable.
//!
//! What is written where: each record is one slot more of the store's journal, behind the others. The record of a new IV state goes through
//! the reserve of sequence numbers, which publishes its mark and moves the counter once it is durable; every other record has no mark.
//!
//! Hence what a cut leaves: the records of before with the first few of the new ones behind them, at whatever moment it comes. So what is
//! recovered never has the second record of an event without the first, and no number at or above the mark that is recovered was drawn.
//!
//! - `several`: [`store_records`]
//! - `one`: a record alone
#![tactic(auto)]

mod one;
mod several;

pub use several::store_records;
