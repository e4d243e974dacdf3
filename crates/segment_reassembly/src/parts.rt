//! The table of messages of which segments were heard.
#![tactic(auto)]

ghost use Rattle.std.specs.Prelude.{◌≡◌, ◌^◌, ◌≤◌, [], IsTrue};
ghost use Rattle.layer_definitions.specs.Lower.{Fits};
ghost use Rattle.layer_states.specs.Reassembly.{acks_due, after, form_of, is_segment, live, taken, PartCall, take_part};
ghost use Rattle.layer_states.specs.Reassembly as reassembly;
ghost use Rattle.segment_reassembly.specs.Short.{IsWithin};

use crate::rows::{Rows, drop_name, due_acks, expire, ring_all, take_in};
use arrayvec::ArrayVec;
use layer_states::reassembly::{AckList, PartHeard, Taken};
use mesh_base::pair::Name;
use std::marker::Model;

/// At most `MESSAGES_IN_PROGRESS` messages of which segments were heard. A clause sees it as the list of them, in the order in which they
/// began.
///
/// It stands for the calls on it so far: a new one for none, and after a call it is `after` of what it was and that
/// call.
#[derive(Drop)]
pub struct Parts {
    pub(crate) rows: Rows,
}

impl Model for Parts {
    ghost use Rattle.std.specs.Prelude.{List};
    ghost use Rattle.layer_states.specs.declared.reassembly.Assembly.{Assembly};

    ghost Value = { List Assembly };

    ghost view = { λ p. p.rows.items };

    ghost use Rattle.std.specs.Prelude.{IsTrue};
    ghost use Rattle.std.specs.List.{list_all};
    ghost use Rattle.segment_reassembly.specs.Short.{is_short};

    ghost invariant = { λ p. IsTrue (list_all is_short p.rows.items) };
}

impl Parts {
    /// No messages.
    pub fn new() -> Parts
        ensures value { result ≡ [] }
    {
        Parts {
            rows: ArrayVec::new(),
        }
    }

    /// What becomes of a segment that was heard at `now`, in ticks of 10 ms, at most 2^48. The segment is an
    /// `AccessPart` or a `ControlPart`, and its fields are those of a PDU. A whole message stays in progress until it
    /// is released; a control message has at most 256 octets.
    pub fn take(&mut self, now: u64, h: &PartHeard) -> Taken
        requires segment { IsTrue (is_segment h.now.part) }
        requires fits { Fits h.now.part }
        requires time { now ≤ 2 ^ 48 }
        ensures value { result ≡ taken (live now self.old) now h.now }
        ensures state { self.new ≡ after self.old (take_part now h.now) }
        ensures control { IsTrue (form_of h.now.part).ctl → IsWithin 256 result }
    {
        expire(&mut self.rows, now);
        take_in(&mut self.rows, now, h)
    }

    /// Lets go of the message with this name, if it is in progress: it was accepted or refused as a whole.
    pub fn release(&mut self, name: &Name)
        ensures state { self.new ≡ after self.old (reassembly.release name.now) }
    {
        drop_name(&mut self.rows, name);
    }

    /// The acknowledgments that are due at `now`, in ticks of 10 ms, in the order in which their messages began.
    /// Messages whose last new segment is 1000 ticks old go.
    pub fn tick(&mut self, now: u64) -> AckList
        ensures value { result ≡ acks_due now self.old }
        ensures state { self.new ≡ after self.old (reassembly.tick now) }
    {
        expire(&mut self.rows, now);
        let acks = due_acks(self.rows.as_slice(), now);
        ring_all(self.rows.as_mut_slice(), now);
        acks
    }
}
