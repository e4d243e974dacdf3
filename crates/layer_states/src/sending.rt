//! Own messages of which segments are sent (Mesh Profile 1.0.1, section 3.5.3.2).
#![tactic(auto)]

use mesh_base::pair::Name;
use mesh_base::table::Table;
use mesh_types::events::Outgoing;
use node_limits::{DUE_SEGMENTS, SEGMENTS};

/// Pieces of a message by their SegO, in ascending order.
pub type PieceList = Table<u8, SEGMENTS>;

/// An own message with what is known of its segments.
#[derive(Default, Drop)]
pub struct Sending {
    /// The message.
    pub message: Outgoing,
    /// SegO of each piece that isn't acknowledged.
    pub left: PieceList,
    /// How many rounds of its segments were sent.
    pub rounds: u8,
    /// When the next round is due, in ticks of 10 ms.
    pub due: u64,
}

/// What an acknowledgment does.
#[derive(Clone, Copy, PartialEq, Eq)]
pub enum Acked {
    /// It concerns no message that is held.
    Stranger,
    /// Pieces are left that aren't acknowledged.
    Part,
    /// Every piece is acknowledged, and the message isn't held any more.
    Whole,
    /// The receiver cancelled the message, which isn't held any more.
    Cancelled,
}

/// Segments that are due: the name of a message, and a SegO; at most all of each message.
pub type DueList = Table<(Name, u8), DUE_SEGMENTS>;
