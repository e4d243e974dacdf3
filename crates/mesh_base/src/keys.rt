//! Keys as a node holds them (Mesh Profile 1.0.1, sections 3.8.6 and 3.10.4).
#![tactic(auto)]

ghost use Rattle.std.specs.Prelude.{◌≡◌};
ghost use Rattle.std.specs.Option.{option_copied};
ghost use Rattle.mesh_base.specs.Keys.{app_row, net_row};

/// A key of the upper transport layer. It can't be printed.
#[derive(Clone, Copy, PartialEq, Eq)]
pub enum UpperKey {
    /// The device key.
    Device([u8; 16]),
    /// An application key.
    App {
        /// The index of the application key, 12 bits.
        index: u16,
        /// AID, 6 bits.
        aid: u8,
        /// The key.
        key: [u8; 16],
    },
}

/// The device key of zeros, which fills the unused places of a table.
impl Default for UpperKey {
    ghost use Rattle.std.specs.Prelude.{◌≡◌, replicate};
    ghost use Rattle.mesh_base.specs.declared.keys.UpperKey.TheVariants.{Device};

    ghost is_default = { λ k. k ≡ Device (replicate 16 0) };

    fn default() -> UpperKey {
        UpperKey::Device([0; 16])
    }
}

/// A network key and how far its Key Refresh is. It holds keys, so it can't be printed.
#[derive(Clone, Copy, Default, PartialEq, Eq)]
pub struct NetKeyRow {
    /// The index of the key, 12 bits.
    pub index: u16,
    /// The phase of the Key Refresh procedure, 0 to 2 (section 3.10.4).
    pub phase: u8,
    /// The key.
    pub key: [u8; 16],
    /// The new key. In a node's own records there is one exactly in phases 1 and 2. Not every list of records is a node's: phase 2
    /// without a new key follows from records in range too, where the phase of a key begins that was never updated.
    pub next: Option<[u8; 16]>,
}

/// An application key with the network key that it is bound to. It holds keys, so it can't be printed.
#[derive(Clone, Copy, Default, PartialEq, Eq)]
pub struct AppKeyRow {
    /// The index of the network key, 12 bits.
    pub net: u16,
    /// The index of the application key, 12 bits.
    pub index: u16,
    /// The key.
    pub key: [u8; 16],
    /// The new key, while the network key is refreshed.
    pub next: Option<[u8; 16]>,
}

/// The first row of a network key index, if there is one.
pub fn net_row(rows: &[NetKeyRow], index: u16) -> Option<&NetKeyRow>
    ensures value { option_copied result ≡ net_row rows.now index }
{
    rows.iter().find(|row| row.index == index)
}

/// The first row of an application key index, if there is one.
pub fn app_row(rows: &[AppKeyRow], index: u16) -> Option<&AppKeyRow>
    ensures value { option_copied result ≡ app_row rows.now index }
{
    rows.iter().find(|row| row.index == index)
}
