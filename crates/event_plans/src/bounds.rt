//! What the types of values in hand say, as clauses that a proof can cite. The functions do nothing.
#![tactic(auto)]

ghost use Rattle.std.specs.Prelude.{◌<◌, ◌^◌, All};
ghost use Rattle.layer_laws.specs.Laws.{IsWithinLimits};
ghost use Rattle.node_records.specs.Tables.{config_in};

use node_records::Persist;

/// Octets are below 2^8.
pub fn are_octets(octets: &[u8])
    ensures octets { All (λ octet. octet < 2 ^ 8) octets.now }
{}

/// The tables of a store's value have the sizes of the store.
pub fn are_within(p: &Persist)
    ensures within { IsWithinLimits (config_in p.now) }
{
    let _ = p.nets.len();
    let _ = p.apps.len();
    let _ = p.binds.len();
    let _ = p.subs.len();
    let _ = p.labels.len();
}
