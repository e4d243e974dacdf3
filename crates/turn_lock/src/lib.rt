//! A lock that hands its value out in the order of tickets, and whose value keeps the history of all that was done under it.
//!
//! A value that is `Logged` keeps a list of entries, and an origin that is set when it is made. `Turn::start` makes a lock
//! for it, and a `Pass` that has all 1,024 parts of the lock. A thread takes turns by a pass of its own, which `split`
//! makes: `enter` waits and hands the value out, and `leave` takes it back with entries added behind those that it had.
//! A pass with all parts has no other beside it: `enter_alone` hands the value out to it at once, and waits for nobody.
//! Nothing is kept of the list but its length. What was done is known by the passes, and for contracts alone: each knows
//! the entries that it has seen, and those that it added, its own, with their places. `join` puts two passes together.
//!
//! - The own entries of a pass stand in every value that it is handed later, each once, at their places and in its order.
//! - A value that a pass is handed begins with all entries that the pass has seen.
//! - A pass with all parts finds the entries that the value began with, then its own, and no others.
//! - Each value that is handed out has the origin of the one that was given to `start`.
//!
//! So a fact about one thread's calls on the value becomes a fact about all threads' calls: `laws` says what a test keeps of
//! the entries of passes that were joined, and `gather` shows how.
//!
//! Not promised: that a turn comes, that threads take turns fairly, or that a thread runs. A pass that is dropped while it
//! is inside leaves the lock shut for ever.
//!
//! A caller to begin with: `another`, `write` and `written` in `crates/worked_parts/src/tests/bearers.rt`.
#![tactic(auto)]

pub mod gather;
pub mod laws;
mod logged;
mod turn;
mod view;

pub use logged::Logged;
pub use turn::{Pass, Turn};
