//! Laws about the definitions. Each is the contract of a function that does nothing.
#![tactic(auto)]

ghost use Rattle.live_lines.specs.Laws.{EventLaw, MovesLaw};

/// Moves lose no octet, take none twice, and put none of one line into the next: what was held and then read is the text of the lines that were
/// passed over, each with its LF, and behind it what is held now. No stream failed in them.
pub fn moves_law()
    ensures text { MovesLaw }
{}

/// A line that says an event is one of a bearer that the node has, so its phase has that event on that bearer, and no other.
pub fn event_law()
    ensures own { EventLaw }
{}
