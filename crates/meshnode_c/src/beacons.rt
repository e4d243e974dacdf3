//! Secure Network beacons (Mesh Profile 1.0.1, section 3.9.3).
#![tactic(auto)]

ghost use Rattle.std.specs.Prelude.{◌≡◌, ◌≢◌, ◌⊎◌, ◌↔◌, IfSome, IsNone, List, ℕ, length};
ghost use Rattle.layer_definitions.specs.Beacon.{ReadsBeaconUnder, beacon_text};

use crate::arrays::{KEY, key_of};
use mesh_base::keys::NetKeyRow;
use net_beacon::{read, write};
use node_handle::status::{LENGTH, OK, UNREAD};

/// Octets of a beacon.
const BEACON: usize = 22;

/// The 22 octets of the Secure Network beacon of a network key of 16 octets. Of the flags bit 0 is Key Refresh and bit 1 is IV Update; the others go
/// into it as they are.
#[unsafe(no_mangle)]
pub extern "C" fn meshnode_beacon(key: &[u8], flags: u8, iv: u32, beacon: &mut [u8]) -> u32
    ensures when { result ≡ 0 ↔ (length key.now ≡ 16) × (length beacon.old ≡ 22) }
    ensures value { result ≡ 0 → beacon.new ≡ beacon_text key.now flags iv }
    ensures refused { result ≢ 0 → (result ≡ 1) × (beacon.new ≡ beacon.old) }
{
    if key.len() != KEY || beacon.len() != BEACON {
        return LENGTH;
    }
    beacon.copy_from_slice(&write(&key_of(key), flags, iv));
    OK
}

/// The octet of the flags of a beacon, and 0 where there is none.
#[tactic(auto, unfolding(layer_definitions::specs::Beacon::beacon_text))]
fn flags_of(beacon: &[u8]) -> u8
    ensures value { (key : List ℕ) (flags iv : ℕ) → ReadsBeaconUnder key beacon.now flags iv → flags ≡ result }
{
    match beacon {
        [_, flags, ..] => *flags,
        _ => 0,
    }
}

/// The IV Index of the beacon of this key that has these octets. None exactly where there is none.
fn iv_of(key: &[u8; 16], beacon: &[u8]) -> Option<u32>
    ensures some { IfSome result (λ iv. (flags : ℕ) × ReadsBeaconUnder key.now beacon.now flags iv) }
    ensures none { IsNone result → (flags iv : ℕ) → ReadsBeaconUnder key.now beacon.now flags iv → ⊥ }
{
    let row = NetKeyRow {
        index: 0,
        phase: 0,
        key: *key,
        next: None,
    };
    match read(&[row], beacon) {
        Ok(said) => Some(said.iv),
        Err(_) => None,
    }
}

/// Authenticates a Secure Network beacon under a network key of 16 octets, and reads its flags, of which bit 0 is Key Refresh and bit 1 is IV Update,
/// and its IV Index. Its Network ID is what `meshnode_k3` derives of the key. `MESHNODE_UNREAD` where it is no beacon of this key.
#[unsafe(no_mangle)]
pub extern "C" fn meshnode_beacon_open(
    key: &[u8],
    beacon: &[u8],
    flags: &mut u8,
    iv: &mut u32,
) -> u32
    ensures ok { result ≡ 0 → ReadsBeaconUnder key.now beacon.now flags.new iv.new }
    ensures unread { result ≡ 3 → (f i : ℕ) → ReadsBeaconUnder key.now beacon.now f i → ⊥ }
    ensures when { result ≢ 1 ↔ length key.now ≡ 16 }
    ensures refused { result ≢ 0 → (flags.new ≡ flags.old) × (iv.new ≡ iv.old) }
    ensures bound { (result ≡ 0) ⊎ (result ≡ 1) ⊎ (result ≡ 3) }
{
    if key.len() != KEY {
        return LENGTH;
    }
    let Some(said) = iv_of(&key_of(key), beacon) else {
        return UNREAD;
    };
    *flags = flags_of(beacon);
    *iv = said;
    OK
}
