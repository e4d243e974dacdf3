//! The front of a line, which is all that is kept of a long one: a line of more octets is wrong whatever they are.
#![tactic(auto)]

ghost use Rattle.std.specs.Prelude.{◌≡◌, ◌++◌, take};

use mesh_base::octets::Octets;
use node_limits::LINE_OCTETS;

/// Octets that are kept of a line: one more than a line may have, and a CR behind them.
pub const FRONT_OCTETS: usize = LINE_OCTETS + 2;

/// The front of a line.
pub type LineFront = Octets<FRONT_OCTETS>;

/// Puts octets behind those of a front, as long as there is room.
pub fn push_front(front: &mut LineFront, octets: &[u8])
    ensures value { front.new ≡ take FRONT_OCTETS (front.old ++ octets.now) }
{
    let room = FRONT_OCTETS - front.as_slice().len();
    let count = octets.len().min(room);
    front.extend(&octets[..count]);
}
