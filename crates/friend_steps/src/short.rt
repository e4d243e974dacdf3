//! Access payloads that go unsegmented (Mesh Profile 1.0.1, section 3.7.3).
#![tactic(auto)]

ghost use Rattle.std.specs.Prelude.{◌≡◌, if◌then◌else◌, Some, None};
ghost use Rattle.node_layers.specs.Friendship.{is_short};

use mesh_base::octets::Octets;

/// The longest access payload that goes unsegmented, in octets.
const UNSEGMENTED: usize = 11;

/// An access payload that goes unsegmented; None where it is longer.
pub(crate) fn short_payload(octets: &[u8]) -> Option<Octets<11>>
    ensures value { result ≡ (if is_short octets.now then Some octets.now else None) }
{
    if octets.len() > UNSEGMENTED {
        return None;
    }
    let mut payload = Octets::new();
    payload.extend(octets);
    Some(payload)
}
