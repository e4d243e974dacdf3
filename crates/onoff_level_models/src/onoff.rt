//! The Generic OnOff Server (Mesh Model 1.0.1, section 3.3.1).
#![tactic(auto)]

ghost use Rattle.std.specs.Prelude.{◌≡◌, ◌==◌, ◌<◌, ◌≤◌, length};
ghost use Rattle.model_states.specs.OnOff.{onoff_after, onoff_asks, onoff_kept, onoff_octet, onoff_opened, onoff_present, onoff_reply, onoff_status, onoff_taken};

use crate::messages::onoff_message;
use crate::timing::{
    elapsed, is_delayed, is_over, is_repeated, remaining_time, ticks_left, transaction,
};
use mesh_base::address::Address;
use mesh_base::octets::Octets;
use model_states::models::{OnOffMessage, OnOffState, Timing};
use std::marker::Model;

/// A Generic OnOff Server. A clause sees it as its state.
#[derive(Drop)]
pub struct OnOff {
    pub(crate) state: OnOffState,
}

impl Model for OnOff {
    ghost use Rattle.model_states.specs.declared.models.OnOffState.{OnOffState};

    ghost Value = { OnOffState };

    ghost view = { λ o. o.state };
}

// Present OnOff.
fn is_on(s: &OnOffState, now: u64) -> bool
    ensures { result ≡ onoff_present s.now now }
{
    let elapsed = elapsed(s.taken, now);
    if s.target {
        s.start || !is_delayed(&s.timing, elapsed)
    } else {
        s.start && !is_over(&s.timing, elapsed)
    }
}

// The state after a message.
fn taken(s: &OnOffState, now: u64, src: Address, dst: Address, message: &OnOffMessage) -> OnOffState
    ensures { result ≡ onoff_taken s.now now src dst message.now }
{
    match message {
        OnOffMessage::Get => *s,
        OnOffMessage::Set(set) => {
            let last = Some(transaction(now, src, dst, set.tid));
            if is_repeated(&s.last, now, src, dst, set.tid) {
                OnOffState { last, ..*s }
            } else {
                OnOffState {
                    start: is_on(s, now),
                    target: set.target,
                    taken: now,
                    timing: set.timing,
                    last,
                }
            }
        }
    }
}

// The octets of the Status.
fn status(s: &OnOffState, now: u64) -> Octets<11>
    ensures value { result ≡ onoff_status s.now now }
{
    let elapsed = elapsed(s.taken, now);
    let mut status = Octets::new();
    status.extend(&[0x82, 0x04, u8::from(is_on(s, now))]);
    if !is_over(&s.timing, elapsed) {
        status.extend(&[
            u8::from(s.target),
            remaining_time(ticks_left(&s.timing, elapsed)),
        ]);
    }
    status
}

// Whether a message asks for the Status.
fn asks(message: &OnOffMessage) -> bool
    ensures { result ≡ onoff_asks message.now }
{
    match message {
        OnOffMessage::Get => true,
        OnOffMessage::Set(set) => set.acknowledged,
    }
}

impl OnOff {
    /// The server that opens with this value, 0 off and 1 on: no change runs, and no message was taken.
    pub fn new(present: u8) -> OnOff
        requires { present < 2 }
        ensures value { result ≡ onoff_opened (present == 1) }
    {
        let on = present == 1;
        OnOff {
            state: OnOffState {
                start: on,
                target: on,
                taken: 0,
                timing: Timing {
                    delay: 0,
                    duration: 0,
                },
                last: None,
            },
        }
    }

    /// An access payload from SRC to DST is taken at this moment, in ticks. It answers the Status where the message asks for one: a Get,
    /// and a Set that isn't Unacknowledged. What is no message of this model changes nothing.
    pub fn take(
        &mut self,
        now: u64,
        src: Address,
        dst: Address,
        payload: &[u8],
    ) -> Option<Octets<11>>
        ensures value { result ≡ onoff_reply self.old now src dst payload.now }
        ensures state { self.new ≡ onoff_after self.old now src dst payload.now }
    {
        let message = onoff_message(payload)?;
        self.state = taken(&self.state, now, src, dst, &message);
        if asks(&message) {
            Some(status(&self.state, now))
        } else {
            None
        }
    }

    /// The Status at this moment, as the model publishes it.
    pub fn status(&self, now: u64) -> Octets<11>
        ensures value { result ≡ onoff_status self.now now }
    {
        status(&self.state, now)
    }

    /// The value that a power cycle keeps, 0 or 1: the target of the last change, or the opening value before any.
    pub fn rest(&self) -> u8
        ensures value { result ≡ onoff_octet (onoff_kept self.now) }
        ensures width { result ≤ 1 }
    {
        u8::from(self.state.target)
    }
}
