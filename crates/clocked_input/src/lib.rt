//! A source that is read by a thread of its own, so that whoever takes its octets can wait for them no longer than some time; and that tells how
//! much time passed, by a clock that never goes back.
//!
//! - `desk`: where the thread lays down what it read, one piece at a time
//! - `ticks`: time in ticks of 10 ms, and when it is told
//! - `watch`: waiting until there is something to be told
//! - `input`: the source, and its thread
//!
//! No clause says what a thread hands over, or what a clock shows. So the source tells nothing of its octets (as one over std's readers doesn't), and
//! what it does with them stands here, in words, and in tests of the program: each octet that the thread read is given once, in the order in which
//! it was read, and behind them the end, or the fault, that the thread met. The thread reads on only once its last piece was taken, so at most two
//! pieces are in memory. It waits in its read, and its taker sleeps until there is a piece, or time is to be told: neither is ever busy.
//!
//! Time is told where a piece comes, before it, if a tick or more passed; and where none comes, once as much passed as is due. So it sleeps as long as
//! nothing is due, but for at most 100,000,000 ticks (11 days), which is what a line `tick` may say. Behind time that was told, what is at hand comes
//! first; so neither can starve the other. While the taker does something else no time is lost: all of it is told next. The clock doesn't count
//! while the whole system sleeps.
//!
//! When it waits, and for how long, is said over whatever can be watched (`await_told`): what is told is what passed at the last look, and each wait
//! is to end when what is due comes, and not later. That the system wakes it then, and that its clock is right, is trusted.
//!
//! A thread that is blocked in a read outlives its source: it ends with the process.
#![tactic(auto)]

mod desk;
mod input;
mod ticks;
mod watch;

pub use input::ClockedInput;
pub use watch::{Sight, Watch, await_told};
