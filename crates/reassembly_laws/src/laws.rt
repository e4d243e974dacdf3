//! What follows from the definitions of a life.
#![tactic(auto)]

ghost use Rattle.reassembly_laws.specs.Progress.{AreAcknowledgedSo, AreAnsweredSo, AreInProgressOnce, AreInProgressSo, AreWholeSo};

/// The law of reassembly, for proofs: it does nothing. It is about each past of a life of a node. A message is in progress from its first
/// segment that was answered `waiting`, while fewer than 1000 ticks passed since its last new piece, until it is delivered, refused or out
/// of room; and the list of messages in progress, whose length decides whether there is room, has each of these once. A segment that gets
/// to reassembly is answered `noroom` where its message isn't in progress and eight are, `conflict` where it is of another kind than the
/// message in progress or has other octets than were heard under its SegO, else `waiting` with the number of pieces that are still not
/// heard; and if none is left, the message is whole, with the octets of its pieces in their order. An acknowledgment that is due has the
/// bits of the pieces that were heard of a message in progress.
pub fn reassembly_law()
    ensures progress { AreInProgressSo }
    ensures once { AreInProgressOnce }
    ensures answers { AreAnsweredSo }
    ensures whole { AreWholeSo }
    ensures acknowledged { AreAcknowledgedSo }
{}
