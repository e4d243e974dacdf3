//! A Low Power node and its Friend node.

mod friendship;
mod rows;
mod sides;
