//! Where the phases of a living node come from: the lines of a source, one after another as they come, each one phase, and between them time that
//! passed, where the source tells it. A line that is wrong is told on a sink, and the node goes on.
//!
//! - `saying`: what a line says to a node
//! - `phase`: the phase of a line
//! - `texts`: what is told of a line that is wrong, and of one that isn't ended
//! - `front`: the front of a line, which is all that is kept of a long one
//! - `held`: octets that were read and aren't used yet
//! - `clock`: sources that tell time
//! - `lines`: the lines of a source, and its moves
//! - `line_phases`: phases from lines and from time
//! - `laws`: what moves come to, as one text
//! - `source`: these as a source of phases (`PhaseSource` of `mesh_node`)
//!
//! In `specs/`, `Saying` says what a line says, `Texts` what is told, `Moves` how a source goes from line to line, `Steps` how it gives a phase,
//! ends, and fails, `Clock` what time is told, `Sources` that these are its steps as a source of phases, and `Laws` what moves come to.
#![tactic(auto)]

pub mod clock;
pub mod front;
pub mod held;
pub mod laws;
pub mod line_phases;
pub mod lines;
pub mod phase;
pub mod saying;
mod source;
pub mod texts;

pub use crate::clock::{Awaited, ClockedSource};
pub use crate::line_phases::LinePhases;
pub use crate::lines::{LineSource, LineStop};
pub use crate::saying::{Saying, line_says};
