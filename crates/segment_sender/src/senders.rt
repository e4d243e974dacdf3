//! The table of own segmented messages.
#![tactic(auto)]

ghost use Rattle.std.specs.Prelude.{◌≡◌, ◌≢◌, ◌^◌, ◌≤◌, ◌↔◌, [], filter, length, All, IsTrue, IsErr, IfErr};
ghost use Rattle.layer_states.specs.Sending.{acked, after, all_due as all_due_in, is_full};
ghost use Rattle.layer_states.specs.Sending as sending;
ghost use Rattle.segment_sender.specs.Held.{IsHeldWell, IsOutgoing, has_round};

use crate::message::begun;
use crate::rows::{Rows, acknowledge, all_due, all_rounds, step_all};
use arrayvec::ArrayVec;
use layer_states::sending::{Acked, DueList, Sending};
use mesh_base::address::Address;
use mesh_types::events::Outgoing;
use node_limits::OWN_MESSAGES;
use std::marker::Model;
use thiserror::Error;

/// Four own segmented messages are held.
#[derive(Clone, Copy, Debug, PartialEq, Eq, Error)]
#[error("{held} own segmented messages are unacknowledged")]
pub struct SendFull {
    /// How many.
    pub held: u32,
}

/// Messages that send a round.
pub type Rounds = ArrayVec<Sending, OWN_MESSAGES>;

/// At most `OWN_MESSAGES` own segmented messages that aren't acknowledged. A clause sees it as the list of them, in the order in
/// which they began.
///
/// It stands for the calls on it so far: a new one for none, and after a call it is `after` of what it was and that
/// call.
#[derive(Drop)]
pub struct Senders {
    rows: Rows,
}

impl Model for Senders {
    ghost use Rattle.std.specs.Prelude.{All, List};
    ghost use Rattle.layer_states.specs.declared.sending.Sending.{Sending};

    ghost Value = { List Sending };

    ghost use Rattle.segment_sender.specs.Held.{IsHeldWell};

    ghost view = { λ s. s.rows.items };

    ghost invariant = { λ s. All IsHeldWell s.rows.items };
}

impl Senders {
    /// No messages.
    pub fn new() -> Senders
        ensures value { result ≡ [] }
    {
        Senders {
            rows: ArrayVec::new(),
        }
    }

    /// A message begins at `now`, in ticks of 10 ms, at most 2^48: its first round is sent at once. Its upper
    /// transport PDU has 5 to 384 octets, its SEQ 24 bits, its TTL 7, and its AID 6; under a device key AID is 0. What is sealed is so.
    /// `SendFull` exactly where so many are held.
    pub fn begin(&mut self, now: u64, m: &Outgoing) -> Result<(), SendFull>
        requires time { now ≤ 2 ^ 48 }
        requires outgoing { IsOutgoing m.now }
        ensures err { IsErr result ↔ IsTrue (is_full self.old) }
        ensures held { IfErr result (λ e. e.held ≡ length self.old) }
        ensures state { self.new ≡ after self.old (sending.begin now m.now) }
    {
        if self.rows.is_full() {
            return Err(SendFull {
                held: self.rows.len() as u32,
            });
        }
        self.rows.push(begun(now, m));
        Ok(())
    }

    /// What an acknowledgment does (section 3.5.2.3.1): `from` is its SRC, `obo` and `seq_zero` are its OBO and
    /// SeqZero, and bit i of `block` stands for the piece with SegO i. It concerns the first message with this SeqZero
    /// that went to `from`, or with `obo` to any address. `Stranger` exactly where there is none; else `Cancelled`
    /// exactly where `block` is 0; else `Whole` exactly where no piece is left; else `Part`.
    pub fn ack(&mut self, from: Address, obo: bool, seq_zero: u16, block: u32) -> Acked
        ensures value { result ≡ acked self.old from obo seq_zero block }
        ensures state { self.new ≡ after self.old (sending.ack from obo seq_zero block) }
    {
        acknowledge(&mut self.rows, from, obo, seq_zero, block)
    }

    /// The segments that are due at `now`, in ticks of 10 ms, at most 2^48, in the order in which their messages
    /// began: of each message at most one round. A message that has had its rounds goes when the next would be due.
    pub fn due(&mut self, now: u64) -> DueList
        requires time { now ≤ 2 ^ 48 }
        ensures value { result ≡ all_due_in now self.old }
        ensures state { self.new ≡ after self.old (sending.due now) }
    {
        let list = all_due(self.rows.as_slice(), now);
        step_all(&mut self.rows, now);
        list
    }

    /// The messages that send a round at `now`, in ticks of 10 ms, at most 2^48, as they are before it is counted, in the order in which
    /// they began; the segments of one are `round_due`. A message that has had its rounds goes when the next would be due.
    pub fn rounds(&mut self, now: u64) -> Rounds
        requires time { now ≤ 2 ^ 48 }
        ensures value { result.items ≡ filter (has_round now) self.old }
        ensures held { All IsHeldWell result.items }
        ensures most { length result.items ≤ OWN_MESSAGES }
        ensures state { self.new ≡ after self.old (sending.due now) }
    {
        let list = all_rounds(self.rows.as_slice(), now);
        step_all(&mut self.rows, now);
        list
    }

    /// The messages that are held, in the order in which they began: what the segments that are due are made of.
    pub fn messages(&self) -> &[Sending]
        ensures value { result.now ≡ self.now }
        ensures held { All IsHeldWell result.now }
        ensures most { length result.now ≤ OWN_MESSAGES }
    {
        self.rows.as_slice()
    }

    /// Whether a message is unacknowledged.
    pub fn busy(&self) -> bool
        ensures value { IsTrue result ↔ (self.now ≢ []) }
    {
        !self.rows.is_empty()
    }

    /// Drops all messages.
    pub fn clear(&mut self)
        ensures state { self.new ≡ after self.old sending.clear }
    {
        self.rows.clear();
    }
}
