//! A node as calls: a line of what happens goes in, and what became of it comes out when the caller asks for it. It is what a program needs that
//! links a node and has neither a thread nor a source for it.
//!
//! - `called`: [`CalledNode`], and what a call came to
//! - `phase`: what one phase leaves: the writes of the flash, and the text of the report
//!
//! What its caller does, in this order: begin a life; take the writes; and then for each line: call `line`, take the writes, make them durable in
//! their order, and take the report. A line isn't taken while something is left of the one before, so nothing is lost. As the code stands,
//! a line leaves two writes for each record that it stores, and up to 818 more where it compacts, so a caller takes them in a loop without a bound. What
//! clauses promise is that they are at most so many as program and erase calls were counted in the phase of the line, and that those which are no erase
//! have together at most so many octets as program calls were given in it (`few`, `lean` of `IsPhaseDone`), as long as these counts aren't ffffffff. To end
//! the life it is dropped, once all is taken.
//!
//! In `specs/`, `Called` says what a contract sees of such a node, and what a line does.
#![tactic(auto)]

mod called;
mod phase;

pub use called::{Called, CalledNode};
