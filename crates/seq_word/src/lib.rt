//! The two words that all bearers of a node share: a counter, from which each draws its sequence numbers without a lock, and a
//! mark, below which the numbers lie that may be drawn.
//!
//! - `word`: an IV Index and a SEQ in one number
//! - `rule`: what the words and the seats at them keep between any two atomic steps
//! - `looks`: what a seat notes of what it saw
//! - `miss`: why a draw gave no number
//! - `dry`: that the counter had reached the mark, for which one refill may be asked
//! - `drawer`, `keeper`, `watcher`, `closed`: a seat that draws, the one seat that moves the mark, one that looks at the counter, and what the words
//!   held at the end
//! - `numbers`: the two words, with all calls
//! - `laws`: what follows from the rule
//!
//! The seats that draw have 1,024 parts between them, which contracts alone see. Where one seat has them all at the end,
//! each word from the opening on and below the counter was drawn there or passed over: so `close` tells exactly which word
//! the counter was.
//!
//! Not promised: that a draw succeeds in the end, that bearers draw in turn, that two threads run.
//!
//! A caller to begin with: `another`, `work` and `drawn` in `crates/worked_parts/src/tests/bearers.rt`.
#![tactic(auto)]

mod closed;
mod drawer;
mod dry;
mod keeper;
pub mod laws;
mod looks;
mod miss;
mod numbers;
mod rule;
mod watcher;
pub mod word;

pub use closed::Closed;
pub use drawer::Drawer;
pub use dry::Dry;
pub use keeper::Keeper;
pub use looks::Look;
pub use miss::{DrawStop, Miss};
pub use numbers::Numbers;
pub use watcher::Watcher;
