//! Lives that are over, and what is made of them: the report of a life, line by line into a sink.
//!
//! - `lives`: a life, and its lines: the opening, a line for each entry, one for each job, and the end; their texts are made first, then written
//! - `line_texts`: the texts of lines, one behind another in one text
//! - `phases`: the report of a life that goes on: its opening, each of its phases, its end
//! - `printing`: texts handed to a sink, each as one piece, and what the sink left of it handed on
//! - `life_sinks`: what is made of lives that are over, as a trait, and the report as one such
//!
//! In `specs/`, `Writing` says what a sink tells after lines were written, or a front of them, `Lives` which life has room in its lines, and
//! `Reporting` what the report tells of lives.
#![tactic(auto)]

mod life_sinks;
mod line_texts;
mod lives;
mod phases;
mod printing;

pub use life_sinks::{LifeSink, Report};
pub use lives::{EndedLife, WriteStop, write_life};
pub use phases::{write_end, write_opening, write_phase};
pub use printing::write_text;
