//! Runs over flashes and streams that fail, and at a gate; the report of a living node.

mod ends;
mod flashes;
mod gates;
mod reports;
mod streams;
