//! Nodes that are linked.
//!
//! - `images`: the image of a new node, and writes on it
//! - `lamp`: a lamp over two lives, and over each front of its writes

mod images;
mod lamp;
