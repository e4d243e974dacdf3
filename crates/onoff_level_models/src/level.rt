//! The Generic Level Server (Mesh Model 1.0.1, section 3.3.2).
#![tactic(auto)]

ghost use Rattle.std.specs.Prelude.{◌≡◌, ◌<◌, ◌≤◌, ◌^◌, ◌++◌, ◌+ℤ◌, length};
ghost use Rattle.model_states.specs.Level.{in_range, level_after_payload, level_ahead, level_asks, level_changed, level_kept, level_opened, level_present, level_repeated, level_reply, level_status, level_taken};

use crate::messages::level_message;
use crate::motion::{in_range, is_level_over, level_at, limit};
use crate::timing::{elapsed, is_repeated, remaining_time, ticks_left, transaction};
use mesh_base::address::Address;
use mesh_base::octets::Octets;
use model_states::models::{Goal, LevelChange, LevelMessage, LevelSet, LevelState, Timing};
use std::marker::Model;

/// A Generic Level Server. A clause sees it as its state.
#[derive(Drop)]
pub struct Level {
    pub(crate) state: LevelState,
}

impl Model for Level {
    ghost use Rattle.model_states.specs.declared.models.LevelState.{LevelState};

    ghost Value = { LevelState };

    ghost view = { λ l. l.state };
}

/// No delay and no transition.
const AT_ONCE: Timing = Timing {
    delay: 0,
    duration: 0,
};

// The level so far above another one, kept in range.
fn level_above(level: i16, delta: i32) -> i16
    ensures { result ≡ in_range (level +ℤ delta) }
{
    in_range(i64::from(level) + i64::from(delta))
}

// The state with a change to this goal that is taken now; `first` is the level at which its transaction began.
fn begun(s: &LevelState, now: u64, goal: Goal, timing: Timing, first: i16) -> LevelState
    requires { now ≤ 2 ^ 48 }
    ensures { result
        ≡ record {
          start = level_present s.now now;
          goal = goal;
          taken = now;
          timing = timing;
          last = s.now.last;
          first = first;
        } }
{
    LevelState {
        start: level_at(s, now),
        goal,
        taken: now,
        timing,
        last: s.last,
        first,
    }
}

// The state with a change that is taken now; `first` is the level at which its transaction began.
fn changed(s: &LevelState, now: u64, set: &LevelSet, first: i16) -> LevelState
    requires { now ≤ 2 ^ 48 }
    ensures { result ≡ level_changed s.now now set.now first }
{
    match set.change {
        LevelChange::Level(target) => begun(s, now, Goal::To(target), set.timing, first),
        LevelChange::Delta(delta) => {
            let goal = Goal::To(level_above(first, delta));
            begun(s, now, goal, set.timing, first)
        }
        LevelChange::Move(delta) => {
            if delta == 0 || set.timing.duration == 0 {
                begun(s, now, Goal::To(level_at(s, now)), AT_ONCE, first)
            } else {
                begun(s, now, Goal::Along(delta), set.timing, first)
            }
        }
    }
}

// The state after one more message of the transaction of the last one.
fn repeated(s: &LevelState, now: u64, set: &LevelSet) -> LevelState
    requires { now ≤ 2 ^ 48 }
    ensures { result ≡ level_repeated s.now now set.now }
{
    match set.change {
        LevelChange::Delta(_) => changed(s, now, set, s.first),
        LevelChange::Level(_) | LevelChange::Move(_) => *s,
    }
}

// The state after a message.
fn taken(s: &LevelState, now: u64, src: Address, dst: Address, message: &LevelMessage) -> LevelState
    requires { now ≤ 2 ^ 48 }
    ensures { result ≡ level_taken s.now now src dst message.now }
{
    match message {
        LevelMessage::Get => *s,
        LevelMessage::Set(set) => {
            let next = if is_repeated(&s.last, now, src, dst, set.tid) {
                repeated(s, now, set)
            } else {
                changed(s, now, set, level_at(s, now))
            };
            LevelState {
                last: Some(transaction(now, src, dst, set.tid)),
                ..next
            }
        }
    }
}

// Puts Target Level and Remaining Time behind the octets of a Status.
fn put_ahead(status: &mut Octets<11>, s: &LevelState, now: u64)
    requires { length status.old ≤ 8 }
    ensures { status.new ≡ status.old ++ level_ahead s.now now }
{
    match s.goal {
        Goal::To(target) => {
            status.extend(&target.to_le_bytes());
            let left = ticks_left(&s.timing, elapsed(s.taken, now));
            status.extend(&[remaining_time(left)]);
        }
        Goal::Along(delta) => {
            status.extend(&limit(delta).to_le_bytes());
            status.extend(&[0x3f]);
        }
    }
}

// The octets of the Status.
fn status(s: &LevelState, now: u64) -> Octets<11>
    requires { now ≤ 2 ^ 48 }
    ensures { result ≡ level_status s.now now }
{
    let mut status = Octets::new();
    status.extend(&[0x82, 0x08]);
    status.extend(&level_at(s, now).to_le_bytes());
    if !is_level_over(s, now) {
        put_ahead(&mut status, s, now);
    }
    status
}

// Whether a message asks for the Status.
fn asks(message: &LevelMessage) -> bool
    ensures { result ≡ level_asks message.now }
{
    match message {
        LevelMessage::Get => true,
        LevelMessage::Set(set) => set.acknowledged,
    }
}

impl Level {
    /// The server that opens at this level: no change runs, and no message was taken.
    pub fn new(present: i16) -> Level
        ensures value { result ≡ level_opened present }
    {
        Level {
            state: LevelState {
                start: present,
                goal: Goal::To(present),
                taken: 0,
                timing: AT_ONCE,
                last: None,
                first: present,
            },
        }
    }

    /// An access payload from SRC to DST is taken at this moment, in ticks, at most 2^48. It answers the Status where the message asks for
    /// one: a Get, and a Level Set, Delta Set or Move Set that isn't Unacknowledged. What is no message of this model changes nothing.
    pub fn take(
        &mut self,
        now: u64,
        src: Address,
        dst: Address,
        payload: &[u8],
    ) -> Option<Octets<11>>
        requires { now ≤ 2 ^ 48 }
        ensures value { result ≡ level_reply self.old now src dst payload.now }
        ensures state { self.new ≡ level_after_payload self.old now src dst payload.now }
    {
        let message = level_message(payload)?;
        self.state = taken(&self.state, now, src, dst, &message);
        if asks(&message) {
            Some(status(&self.state, now))
        } else {
            None
        }
    }

    /// The Status at this moment, at most 2^48, as the model publishes it.
    pub fn status(&self, now: u64) -> Octets<11>
        requires { now ≤ 2 ^ 48 }
        ensures value { result ≡ level_status self.now now }
    {
        status(&self.state, now)
    }

    /// The level that a power cycle keeps: the target of the last change, of a Move the level at which it was taken, or the opening level
    /// before any.
    pub fn rest(&self) -> i16
        ensures value { result ≡ level_kept self.now }
    {
        match self.state.goal {
            Goal::To(target) => target,
            Goal::Along(_) => self.state.start,
        }
    }
}
