//! Under which credentials a PDU was heard.
#![tactic(auto)]

ghost use Rattle.std.specs.Prelude.{◌≡◌};
ghost use Rattle.mesh_reading.specs.Held.{reading_of};
ghost use Rattle.node_layers.specs.Friendship.{is_by_friend as is_by_friend_in, is_by_master as is_by_master_in, is_request as is_request_in};
ghost use Rattle.node_records.specs.Tables.{config_in};

use network_layer::NetReading;
use node_records::Persist;

/// Whether a PDU came under master credentials.
pub(crate) fn is_by_master(r: &NetReading) -> bool
    ensures { result ≡ is_by_master_in (reading_of r.now) }
{
    r.by.lpn.is_none()
}

/// Whether a PDU came under the credentials of the friendship, or the offer, of its own SRC.
pub(crate) fn is_by_friend(r: &NetReading) -> bool
    ensures { result ≡ is_by_friend_in (reading_of r.now) }
{
    match r.by.lpn {
        Some(lpn) => lpn.0 == r.fields.src.0,
        None => false,
    }
}

/// Whether a Friend Request came as one does: under master credentials to all friends, with TTL 0, to a node that is one.
pub(crate) fn is_request(p: &Persist, r: &NetReading) -> bool
    ensures { result ≡ is_request_in (config_in p.now) (reading_of r.now) }
{
    is_by_master(r) && r.fields.dst.0 == 0xfffd && r.fields.ttl == 0 && p.is_friend()
}
