//! The laws of upper transport PDUs, for proofs: functions that do nothing.
#![tactic(auto)]

ghost use Rattle.upper_transport.specs.Laws.{AcknowledgmentsAgree, HaveOneMessage, HaveOneOpening, HaveOnePlace, MessagesReadBack, PayloadsOpen};

/// Octets open to one payload at most under a key with some fields, and by one place of a list of keys; what was sealed opens to itself.
pub fn upper_law()
    ensures one { HaveOneOpening }
    ensures place { HaveOnePlace }
    ensures own { PayloadsOpen }
{}

/// An opcode and parameters read as one control message at most, and the text of a control message reads as that message. A Segment
/// Acknowledgment has the octets that the lower transport layer gives it.
pub fn control_law()
    ensures one { HaveOneMessage }
    ensures own { MessagesReadBack }
    ensures acknowledgment { AcknowledgmentsAgree }
{}
