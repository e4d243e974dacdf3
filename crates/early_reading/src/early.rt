//! Octets that were read before.
#![tactic(auto)]

ghost use Rattle.std.specs.Prelude.{◌≡◌, ◌++◌, ℕ, IfSome, IsNone};
ghost use Rattle.early_reading.specs.Known.{IsKnown};
ghost use Rattle.early_reading.specs.Views.{view_of};
ghost use Rattle.layer_definitions.specs.KeyRefresh.{heard_keys};
ghost use Rattle.layer_definitions.specs.Network.{IsUnread, Reads};

use crate::view::KeyView;
use mesh_base::fields::Heard;
use mesh_base::octets::Octets;
use mesh_reading::Keys;
use network_layer::NetReading;

/// Octets that were read before, by which view, and as what, lent by the reader that has the view and by the reading. It holds keys, so it isn't
/// printed.
#[derive(Drop)]
pub struct Early<'a> {
    /// By which view they were read.
    pub view: &'a KeyView,
    /// The octets, at most 40.
    pub octets: &'a Octets<40>,
    /// The network PDU that they read as, if they read as one.
    pub reading: &'a Option<NetReading>,
}

/// What is known of octets before they are read. It holds keys, so it isn't printed.
#[derive(Drop)]
pub enum Known<'a> {
    /// Nothing.
    Nothing,
    /// The network PDU that they read as, or that they read as none.
    Read(&'a Option<NetReading>),
}

// The same reading once more. It takes no memory.
fn reading_copied(reading: &NetReading) -> NetReading
    ensures value { result ≡ reading.now }
{
    NetReading {
        fields: reading.fields.copied(),
        by: reading.by,
    }
}

/// The same as `read` of [`Keys`], of octets whose reading by the view of this node may be known.
pub fn read_unless(
    keys: &Keys,
    known: Known<'_>,
    more: &[Heard],
    current: u32,
    octets: &[u8],
) -> Option<NetReading>
    requires known { IsKnown (view_of keys.now.nets more.now current) octets.now known }
    ensures some { IfSome result
        (λ r. (place : ℕ) × Reads (heard_keys keys.now.nets ++ more.now) current octets.now r.fields place r.by) }
    ensures none { IsNone result → IsUnread (heard_keys keys.now.nets ++ more.now) current octets.now }
{
    match known {
        Known::Read(reading) => match reading {
            Some(reading) => Some(reading_copied(reading)),
            None => None,
        },
        Known::Nothing => keys.read(more, current, octets),
    }
}
