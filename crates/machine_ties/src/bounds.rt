//! What the types of values in hand say, as a clause that a proof can cite.
#![tactic(auto)]

ghost use Rattle.machine_ties.specs.Kept.{HasOctets, IsBounded};
ghost use Rattle.mesh_reading.specs.Held.{pdu_insight};

use event_plans::{HeardPdu, are_octets, are_within};
use node_records::Persist;

// The octets of a payload that was opened are below 2^8.
fn has_octets(heard: &HeardPdu)
    ensures octets { HasOctets (pdu_insight heard.now) }
{
    if let HeardPdu::Opened { opened, .. } = heard {
        are_octets(opened.payload.as_slice());
    }
}

/// The tables of a store's value have the sizes of the store, and the octets of the payload that a network PDU opened to,
/// if it did, are below 2^8. It does nothing.
pub fn are_bounded(p: &Persist, heard: &HeardPdu)
    ensures bounded { IsBounded p.now (pdu_insight heard.now) }
{
    are_within(p);
    has_octets(heard);
}
