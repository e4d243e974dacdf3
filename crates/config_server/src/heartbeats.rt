//! Messages about the heartbeat (Mesh Profile 1.0.1, sections 4.3.2.61 to 4.3.2.63).
#![tactic(auto)]

ghost use Rattle.std.specs.Prelude.{◌≡◌};
ghost use Rattle.config_definitions.specs.Publishing.{heartbeat_set, heartbeat_shown};
ghost use Rattle.node_records.specs.Tables.{config_in};

use crate::keys::has_net;
use crate::params::{put_two, replied, status_octet};
use config_definitions::acts::{ConfigAct, Status};
use mesh_base::octets::Octets;
use model_states::publication::HeartbeatRow;
use node_records::Persist;

/// Heartbeat Publication Status.
pub fn heartbeat_shown(status: Status, h: &HeartbeatRow) -> ConfigAct
    ensures { result ≡ heartbeat_shown status h.now }
{
    let mut reply = Octets::new();
    reply.extend(&[0x06, status_octet(status)]);
    put_two(&mut reply, h.dst.0);
    reply.extend(&[h.count, h.period, h.ttl]);
    put_two(&mut reply, h.features);
    put_two(&mut reply, h.net);
    replied(reply)
}

/// Heartbeat Publication Set.
pub fn heartbeat_set(p: &Persist, h: &HeartbeatRow) -> ConfigAct
    ensures { result ≡ heartbeat_set (config_in p.now) h.now }
{
    if h.dst.is_virtual() {
        heartbeat_shown(Status::InvalidAddress, h)
    } else if !has_net(p, h.net) {
        heartbeat_shown(Status::InvalidNetKey, h)
    } else {
        ConfigAct {
            beat: Some(*h),
            ..heartbeat_shown(Status::Success, h)
        }
    }
}
