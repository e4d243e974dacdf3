//! The Friend Queue (Mesh Profile 1.0.1, section 3.6.6.4.2).
#![tactic(auto)]

ghost use Rattle.std.specs.Prelude.{◌≡◌, ◌-◌, ◌≤◌};
ghost use Rattle.layer_states.specs.Friends.{answer_again as answer_again_in, answer_next as answer_next_in, queue_left as queue_left_in, queued};
ghost use Rattle.layer_states.specs.declared.friends.QueueEntry.TheVariants as Q;

use layer_states::friends::{Friendship, KeptPdu, OwnShort, PollAnswer, QueueEntry};
use mesh_base::fields::NetFields;

// The same fields once more, with this TTL. It takes no memory.
fn fields_with(f: &NetFields, ttl: u8) -> NetFields
    ensures { result ≡ record f.now { ttl = ttl } }
{
    NetFields {
        iv: f.iv,
        ctl: f.ctl,
        ttl,
        seq: f.seq,
        src: f.src,
        dst: f.dst,
        tpdu: f.tpdu.copied(),
    }
}

// The same message once more. It takes no memory.
fn own_copied(m: &OwnShort) -> OwnShort
    ensures { result ≡ m.now }
{
    OwnShort {
        net: m.net,
        key: m.key,
        ttl: m.ttl,
        src: m.src,
        dst: m.dst,
        payload: m.payload.copied(),
    }
}

/// The queue without the message that was answered.
pub(crate) fn queue_left(s: &Friendship) -> &[QueueEntry]
    ensures { result.now ≡ queue_left_in s.now }
{
    let entries = s.queue.entries.as_slice();
    if s.answered && !entries.is_empty() {
        &entries[1..]
    } else {
        entries
    }
}

/// The answer to a Poll with the FSN of the one before.
pub(crate) fn answer_again(kept: &Option<KeptPdu>) -> PollAnswer
    ensures { result ≡ answer_again_in kept.now }
{
    match kept {
        None => PollAnswer::Silent,
        Some(kept) => PollAnswer::Repeat {
            name: kept.name,
            pdu: kept.pdu.copied(),
        },
    }
}

/// The answer to a Poll with another FSN than the one before.
pub(crate) fn answer_next(queue: &[QueueEntry]) -> PollAnswer
    ensures { result ≡ answer_next_in queue.now }
{
    match queue.first() {
        None => PollAnswer::Update,
        Some(QueueEntry::Heard(f)) => PollAnswer::Stored(fields_with(f, f.ttl)),
        Some(QueueEntry::Own(m)) => PollAnswer::Own(own_copied(m)),
    }
}

/// Takes the message that was answered out of the queue.
pub(crate) fn drop_answered(s: &mut Friendship)
    ensures { s.new ≡ record s.old { queue = queue_left_in s.old } }
{
    if s.answered && !s.queue.entries.is_empty() {
        s.queue.entries.remove(0);
    }
}

// Puts a message into the queue, in place of the oldest where the queue is full.
fn enqueue(s: &mut Friendship, e: QueueEntry)
    ensures { s.new ≡ queued e s.old }
{
    if s.queue.entries.is_full() {
        let _oldest = s.queue.entries.remove(0);
        s.answered = false;
    }
    s.queue.entries.push(e);
}

/// Puts a PDU heard into the queue, with its TTL less one.
pub(crate) fn enqueue_heard(s: &mut Friendship, f: &NetFields)
    ensures { s.new ≡ queued (Q.Heard (record f.now { ttl = f.now.ttl - 1 })) s.old }
{
    enqueue(
        s,
        QueueEntry::Heard(fields_with(f, f.ttl.saturating_sub(1))),
    );
}

/// Puts an own message into the queue.
pub(crate) fn enqueue_own(s: &mut Friendship, m: &OwnShort)
    ensures { s.new ≡ queued (Q.Own m.now) s.old }
{
    enqueue(s, QueueEntry::Own(own_copied(m)));
}
