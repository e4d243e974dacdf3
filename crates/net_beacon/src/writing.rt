//! The octets of a beacon.
#![tactic(auto)]

ghost use Rattle.std.specs.Prelude.{◌≡◌, length};
ghost use Rattle.layer_definitions.specs.Beacon.{beacon_fields, beacon_text};

use crate::kept::BeaconKey;
use byteorder::{BigEndian, ByteOrder};
use mesh_kdf::cmac_kept;

impl BeaconKey {
    // The octets that are authenticated: the flags, the Network ID and the IV Index.
    fn fields(&self, flags: u8, iv: u32) -> [u8; 13]
        ensures value { result ≡ beacon_fields self.now flags iv }
        ensures length { length result ≡ 13 }
    {
        let mut octets = [0; 13];
        octets[0] = flags;
        octets[1..9].copy_from_slice(&self.id);
        BigEndian::write_u32(&mut octets[9..], iv);
        octets
    }

    /// The octets of the beacon of this key. Of the flags, bit 0 is Key Refresh and bit 1 is IV Update.
    #[tactic(auto, unfolding(layer_definitions::specs::Beacon::beacon_text))]
    pub fn write(&self, flags: u8, iv: u32) -> [u8; 22]
        ensures value { result ≡ beacon_text self.now flags iv }
    {
        let fields = self.fields(flags, iv);
        let mac = cmac_kept(&self.schedule, &fields);
        let mut octets = [0; 22];
        octets[0] = 1;
        octets[1..14].copy_from_slice(&fields);
        octets[14..].copy_from_slice(&mac[..8]);
        octets
    }
}

/// The octets of the beacon of a network key of which nothing is kept. Of the flags, bit 0 is Key Refresh and bit 1 is IV Update.
pub fn write(key: &[u8; 16], flags: u8, iv: u32) -> [u8; 22]
    ensures value { result ≡ beacon_text key.now flags iv }
{
    BeaconKey::new(key).write(flags, iv)
}
