//! What octets read as (Mesh Profile 1.0.1, sections 3.4.4 and 3.8.7).
#![tactic(auto)]

ghost use Rattle.std.specs.Prelude.{◌≡◌, ◌++◌, ℕ, IfSome, IsNone};
ghost use Rattle.layer_definitions.specs.KeyRefresh.{heard_keys};
ghost use Rattle.layer_definitions.specs.Network.{IsUnread, Reads};

use crate::keys::Keys;
use mesh_base::fields::Heard;
use net_keys::NetKeys;
use network_layer::{NetReading, read, read_kept};

/// What octets read as under network keys, the old key of each before the new, and behind them under `more`, where `current` is the known IV
/// Index. None exactly where they read as nothing under any of them. The schedules of network keys are kept; those of one of `more` are made
/// where the octets have its NID.
pub fn read_under(nets: &NetKeys, more: &[Heard], current: u32, octets: &[u8]) -> Option<NetReading>
    ensures some { IfSome result
        (λ r. (place : ℕ) × Reads (heard_keys nets.now ++ more.now) current octets.now r.fields place r.by) }
    ensures none { IsNone result → IsUnread (heard_keys nets.now ++ more.now) current octets.now }
{
    match read_kept(nets.heard(), current, octets) {
        Ok(reading) => Some(reading),
        Err(_) => match read(more, current, octets) {
            Ok(reading) => Some(reading),
            Err(_) => None,
        },
    }
}

impl Keys {
    /// What octets read as under the network keys, the old key of each before the new, and behind them under `more`, the credentials of
    /// friendships, where `current` is the known IV Index. None exactly where they read as nothing under any of them.
    pub fn read(&self, more: &[Heard], current: u32, octets: &[u8]) -> Option<NetReading>
        ensures some { IfSome result
            (λ r. (place : ℕ) × Reads (heard_keys self.now.nets ++ more.now) current octets.now r.fields place r.by) }
        ensures none { IsNone result → IsUnread (heard_keys self.now.nets ++ more.now) current octets.now }
    {
        read_under(&self.nets, more, current, octets)
    }
}
