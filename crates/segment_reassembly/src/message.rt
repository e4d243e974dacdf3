//! A segment and its message.
#![tactic(auto)]

ghost use Rattle.std.specs.Prelude.{◌≡◌, ◌^◌, ◌≤◌, ◌<◌, IsTrue, IsFalse, length};
ghost use Rattle.layer_definitions.specs.Lower.{Fits};
ghost use Rattle.layer_states.specs.Reassembly.{begun as begun_in, due_ack as due_ack_in, heard_by, is_at_odds as is_at_odds_in, is_due as is_due_in, is_form as is_form_in, is_segment, judged, judged_after, rung, timer_after as timer_after_in};

use crate::pieces::{block_of, is_other, no_pieces, outcome, set_piece};
use crate::segment::{form_of, piece_of, seg_n_of, seg_o_of};
use layer_states::reassembly::{Assembly, DueAck, Form, PartHeard, Taken, Timer};

// Whether two segments may belong to one message.
fn is_form(f: &Form, g: &Form) -> bool
    ensures { result ≡ is_form_in f.now g.now }
{
    f.ctl == g.ctl && f.akf == g.akf && f.code == g.code && f.szmic == g.szmic
}

/// A message of which no segment was heard before this one.
pub(crate) fn begun(now: u64, h: &PartHeard) -> Assembly
    requires { Fits h.now.part }
    ensures { result ≡ begun_in now h.now }
{
    Assembly {
        name: h.name,
        dst: h.dst,
        net: h.net,
        form: form_of(&h.part),
        pieces: no_pieces(seg_n_of(&h.part)),
        renewed: now,
        timer: None,
    }
}

/// Whether a segment is at odds with its message.
pub(crate) fn is_at_odds(a: &Assembly, h: &PartHeard) -> bool
    requires { Fits h.now.part }
    ensures { result ≡ is_at_odds_in a.now h.now }
{
    let places = a.pieces.places.as_slice();
    let seg_o = usize::from(seg_o_of(&h.part));
    let seg_n = usize::from(seg_n_of(&h.part));
    a.dst.0 != h.dst.0
        || a.net != h.net
        || !is_form(&a.form, &form_of(&h.part))
        || places.len() != seg_n + 1
        || is_other(&places[seg_o], piece_of(&h.part))
}

// The acknowledgment timer after a new piece.
fn timer_after(now: u64, timer: Option<Timer>, h: &PartHeard) -> Option<Timer>
    requires { now ≤ 2 ^ 48 }
    ensures { result ≡ timer_after_in now timer h.now }
{
    if timer.is_some() || !h.dst.is_unicast() {
        return timer;
    }
    let ttl = h.ack_ttl;
    Some(Timer {
        due: now + 15 + 5 * u64::from(ttl),
        ttl,
    })
}

// Puts a segment that isn't at odds with its message into it.
fn hear(a: &mut Assembly, now: u64, h: &PartHeard)
    requires fits { Fits h.now.part }
    requires agrees { IsFalse (is_at_odds_in a.old h.now) }
    requires time { now ≤ 2 ^ 48 }
    ensures { a.new ≡ heard_by a.old now h.now }
{
    let place = usize::from(seg_o_of(&h.part));
    if a.pieces.places.as_slice()[place].is_none() {
        set_piece(&mut a.pieces, place, piece_of(&h.part));
        a.renewed = now;
        a.timer = timer_after(now, a.timer, h);
    }
}

/// What becomes of a segment of this message.
pub(crate) fn judge(a: &mut Assembly, now: u64, h: &PartHeard) -> Taken
    requires fits { Fits h.now.part }
    requires time { now ≤ 2 ^ 48 }
    ensures value { result ≡ judged a.old now h.now }
    ensures state { a.new ≡ judged_after a.old now h.now }
{
    if is_at_odds(a, h) {
        return Taken::Conflict;
    }
    hear(a, now, h);
    outcome(a.pieces.places.as_slice())
}

// Whether the acknowledgment timer of a message ends.
fn is_due(now: u64, a: &Assembly) -> bool
    ensures { result ≡ is_due_in now a.now }
{
    a.timer.is_some_and(|timer| timer.due <= now)
}

/// The acknowledgment of a message, if it is due.
pub(crate) fn due_ack(now: u64, a: &Assembly) -> Option<DueAck>
    ensures { result ≡ due_ack_in now a.now }
{
    let timer = a.timer?;
    if timer.due > now {
        return None;
    }
    Some(DueAck {
        name: a.name,
        dst: a.dst,
        net: a.net,
        ack_ttl: timer.ttl,
        block: block_of(a.pieces.places.as_slice()),
    })
}

/// Stops the acknowledgment timer of a message, if it ends.
pub(crate) fn ring(now: u64, a: &mut Assembly)
    ensures { a.new ≡ rung now a.old }
{
    if is_due(now, a) {
        a.timer = None;
    }
}
