//! The codec of lower transport PDUs (Mesh Profile 1.0.1, section 3.5.2): [`read`] and [`write`], and [`seq_auth`],
//! which finds the number under which a segmented message was sealed; and the segments of a message ([`segment`]).
//!
//! - `reading`: from octets to a PDU
//! - `writing`: from a PDU to octets
//! - `segmenting`: the segments of an access message
//! - `sequence`: SeqAuth
//! - `laws`: a text has one reading
//!
//! A caller to begin with: `lower` in `crates/worked_vectors/src/pdus.rt`.
#![tactic(auto)]

mod laws;
mod reading;
mod segmenting;
mod sequence;
mod writing;

pub use laws::one_reading_law;
pub use mesh_base::lower::Lower;
pub use reading::{Malformed, read};
pub use segmenting::{last_segment, segment};
pub use sequence::seq_auth;
pub use writing::write;
