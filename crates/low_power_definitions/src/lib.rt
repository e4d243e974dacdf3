//! What a Low Power node knows of its friend, apart from all code that does anything (Mesh Profile 1.0.1, section 3.6.6). `src/` has the
//! plain types. `specs/` says what a state is, what each call leaves of it, what the call answers and sends, and what follows for a list
//! of calls; the table of the layer shows exactly this state.
//!
//! - `lpn`: a friend, what is sent to it, and what becomes of a PDU that was heard
//! - `laws`: what follows from the definitions alone
#![tactic(auto)]

pub mod laws;
pub mod lpn;
