//! The states of the Generic OnOff Server and the Generic Level Server, and the messages to them (Mesh Model 1.0.1, sections 3.1.1,
//! 3.1.2, 3.2.1 and 3.2.2). Time is in ticks of 10 ms.
#![tactic(auto)]

use mesh_base::address::Address;

/// How long a change takes: a delay, and then a transition. Both are 0 where it is made at once.
#[derive(Clone, Copy)]
pub struct Timing {
    /// The ticks until the transition begins, at most 128.
    pub delay: u8,
    /// The ticks of the transition, at most 3,720,000.
    pub duration: u32,
}

/// The last set message that a model took: the one whose copies are the same transaction.
#[derive(Clone, Copy)]
pub struct Transaction {
    /// SRC of the message.
    pub src: Address,
    /// DST of the message.
    pub dst: Address,
    /// TID, the transaction identifier, 8 bits.
    pub tid: u8,
    /// The moment of the last message of the transaction.
    pub renewed: u64,
}

/// The state of a Generic OnOff Server.
#[derive(Clone, Copy)]
pub struct OnOffState {
    /// Whether it was on when the last change was taken.
    pub start: bool,
    /// Whether it is to be on when the last change is over.
    pub target: bool,
    /// The moment at which the last change was taken.
    pub taken: u64,
    /// How long it takes from then on.
    pub timing: Timing,
    /// The last set message, if there was one in this life.
    pub last: Option<Transaction>,
}

/// Where the last change of a level leads.
#[derive(Clone, Copy)]
pub enum Goal {
    /// To this level, by the end of the transition.
    To(i16),
    /// By this many levels in each time of the transition, up or down to the last level there is. It is not 0, and the transition
    /// has a duration.
    Along(i16),
}

/// The state of a Generic Level Server.
#[derive(Clone, Copy)]
pub struct LevelState {
    /// The level at which the last change was taken.
    pub start: i16,
    /// Where the last change leads.
    pub goal: Goal,
    /// The moment at which the last change was taken.
    pub taken: u64,
    /// How long it takes from then on.
    pub timing: Timing,
    /// The last set message, if there was one in this life.
    pub last: Option<Transaction>,
    /// The level at which the first message of the last set message's transaction was taken.
    pub first: i16,
}

/// A set message of the Generic OnOff Server.
#[derive(Clone, Copy)]
pub struct OnOffSet {
    /// Whether it asks for a Status.
    pub acknowledged: bool,
    /// The target.
    pub target: bool,
    /// TID, 8 bits.
    pub tid: u8,
    /// How long the change takes.
    pub timing: Timing,
}

/// A message to a Generic OnOff Server.
#[derive(Clone, Copy)]
pub enum OnOffMessage {
    /// Generic OnOff Get (section 3.2.1.1).
    Get,
    /// Generic OnOff Set, or Set Unacknowledged (sections 3.2.1.2 and 3.2.1.3).
    Set(OnOffSet),
}

/// What a set message asks of a level.
#[derive(Clone, Copy)]
pub enum LevelChange {
    /// Generic Level Set: this level.
    Level(i16),
    /// Generic Delta Set: so many levels above the one at which its transaction began.
    Delta(i32),
    /// Generic Move Set: by so many levels in each time of the transition.
    Move(i16),
}

/// A set message of the Generic Level Server.
#[derive(Clone, Copy)]
pub struct LevelSet {
    /// Whether it asks for a Status.
    pub acknowledged: bool,
    /// What it asks for.
    pub change: LevelChange,
    /// TID, 8 bits.
    pub tid: u8,
    /// How long the change takes.
    pub timing: Timing,
}

/// A message to a Generic Level Server.
#[derive(Clone, Copy)]
pub enum LevelMessage {
    /// Generic Level Get (section 3.2.2.1).
    Get,
    /// Generic Level Set, Delta Set or Move Set, or one of them Unacknowledged (sections 3.2.2.2 to 3.2.2.7).
    Set(LevelSet),
}
