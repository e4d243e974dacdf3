//! What a call answers.
#![tactic(auto)]

/// All went well.
pub const OK: u32 = 0;

/// A slice hasn't the length that the call asks for. Nothing was written, but `size` where the call says that it tells how many octets it needs.
pub const LENGTH: u32 = 1;

/// A number is out of its range. Nothing was written.
pub const RANGE: u32 = 2;

/// The octets are none of what was asked for, or none under this key.
pub const UNREAD: u32 = 3;

/// The text is none that can be audited.
pub const NOT_REPORT: u32 = 4;

/// There was no memory, and nothing happened: the call may be made again.
pub const MEMORY: u32 = 5;

/// The struct holds no node.
pub const EMPTY: u32 = 6;

/// The struct holds a node already.
pub const HELD: u32 = 7;

/// The image holds no node that can be run: it is erased, it is damaged, or its records say what no node has.
pub const NO_NODE: u32 = 8;

/// There was a Node Reset: it can't be run any more. Another image has to be made, of a node with another address and other keys.
pub const WAS_RESET: u32 = 9;

/// There is nothing: the line is empty or a comment, or no write is left.
pub const NOTHING: u32 = 10;

/// The line is wrong.
pub const WRONG: u32 = 11;

/// Something of the phase before isn't taken yet.
pub const WAITING: u32 = 12;

/// The node takes no line more: as the code stands, memory ran out as a write was noted, in a line that answered `MESHNODE_OK` and whose writes and report
/// are to be taken, or it was lost. It is closed, and opened anew from the image that is stored.
pub const OVER: u32 = 13;

/// Memory ran out within the phase: the node was lost, and nothing of the phase is left. To the image the phase never came. It is closed, and opened
/// anew from the image that is stored.
pub const LOST: u32 = 14;
