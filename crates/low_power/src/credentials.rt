//! What a Low Power node seals and hears with, by the row of its network key (Mesh Profile 1.0.1, section 3.8.6.3.1).
#![tactic(auto)]

ghost use Rattle.std.specs.Prelude.{◌≡◌, ◌<◌, ◌^◌};
ghost use Rattle.layer_definitions.specs.KeyRefresh.{transmit_key as transmit_key_in};
ghost use Rattle.low_power_definitions.specs.State.{friend_material as friend_material_in, job_material as job_material_in};

use low_power_definitions::lpn::{Credentials, LpnJob};
use mesh_base::address::Address;
use mesh_base::fields::NetMaterial;
use mesh_base::keys::NetKeyRow;
use net_keys::{friendship, master};

// What is sent under a network key.
fn transmit_key(net: &NetKeyRow) -> [u8; 16]
    ensures { result ≡ transmit_key_in net.now }
{
    if net.phase == 2 {
        net.next.unwrap_or(net.key)
    } else {
        net.key
    }
}

/// The material of the friendship credentials. NID is below 128.
pub(crate) fn friend_material(own: Address, net: &NetKeyRow, c: Credentials) -> NetMaterial
    ensures value { result ≡ friend_material_in own net.now c }
    ensures nid { result.nid < 2 ^ 7 }
{
    friendship(
        &transmit_key(net),
        own,
        c.friend,
        c.lpn_counter,
        c.friend_counter,
    )
}

/// What a job of the node whose first element has this address is sealed under, by the row of its network key. NID is below 128.
pub fn job_material(own: Address, net: &NetKeyRow, job: &LpnJob) -> NetMaterial
    ensures value { result ≡ job_material_in own net.now job.now }
    ensures nid { result.nid < 2 ^ 7 }
{
    match job.under {
        None => master(&transmit_key(net)),
        Some(c) => friend_material(own, net, c),
    }
}
