//! The Generic OnOff Server and the Generic Level Server of an element (Mesh Model 1.0.1, sections 3.3.1 and 3.3.2): what a message does
//! to the state, what is replied, and which value a power cycle keeps. Time is in ticks of 10 ms.
//!
//! - `timing`: transition times, delays, remaining times and transactions
//! - `messages`: from an access payload to a message
//! - `onoff`: the Generic OnOff Server
//! - `motion`: where a level is on its way
//! - `level`: the Generic Level Server
//! - `ends`: when a delay or a transition ends
#![tactic(auto)]

mod ends;
mod level;
mod messages;
mod motion;
mod onoff;
mod timing;

pub use level::Level;
pub use onoff::OnOff;
