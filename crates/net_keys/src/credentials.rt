//! What seals and opens network PDUs, derived from a network key.
#![tactic(auto)]

ghost use Rattle.std.specs.Prelude.{◌≡◌, ◌<◌, ◌^◌, length};
ghost use Rattle.cipher_definitions.specs.Kdf.{friendship_parameter};
ghost use Rattle.layer_definitions.specs.KeyRefresh.{friendship_material, master_material};

use byteorder::{BigEndian, ByteOrder};
use mesh_base::address::Address;
use mesh_base::fields::NetMaterial;
use mesh_kdf::{K2, k2};

/// The material of the master credentials of a network key (section 3.8.6.3.1). NID is below 128. What a node holds is derived by
/// [`crate::NetKeys::derive`]; this is for a key that it doesn't hold.
#[tactic(auto, unfolding(cipher_definitions::specs::Kdf::master_credentials, layer_definitions::specs::KeyRefresh::master_material))]
pub fn master(key: &[u8; 16]) -> NetMaterial
    ensures value { result ≡ master_material key.now }
    ensures nid { result.nid < 2 ^ 7 }
{
    let K2 {
        nid,
        encryption,
        privacy,
    } = k2(key, &[0]);
    NetMaterial {
        nid,
        encryption,
        privacy,
    }
}

/// The P of k2 for a friendship: 01, the addresses and the counters.
fn parameter(lpn: Address, friend: Address, lpn_counter: u16, friend_counter: u16) -> [u8; 9]
    ensures value { result ≡ friendship_parameter lpn.0 friend.0 lpn_counter friend_counter }
    ensures length { length result ≡ 9 }
{
    let mut octets = [1; 9];
    BigEndian::write_u16(&mut octets[1..], lpn.0);
    BigEndian::write_u16(&mut octets[3..], friend.0);
    BigEndian::write_u16(&mut octets[5..], lpn_counter);
    BigEndian::write_u16(&mut octets[7..], friend_counter);
    octets
}

/// The material of the friendship credentials of a network key (section 3.8.6.3.1): `lpn` and `friend` are the addresses of the
/// Low Power node and of the Friend node, and the counters are those of the Friend Request and of the Friend Offer. NID is
/// below 128.
#[tactic(auto, unfolding(cipher_definitions::specs::Kdf::friendship_credentials, layer_definitions::specs::KeyRefresh::friendship_material))]
pub fn friendship(
    key: &[u8; 16],
    lpn: Address,
    friend: Address,
    lpn_counter: u16,
    friend_counter: u16,
) -> NetMaterial
    ensures value { result ≡ friendship_material key.now lpn.0 friend.0 lpn_counter friend_counter }
    ensures nid { result.nid < 2 ^ 7 }
{
    let K2 {
        nid,
        encryption,
        privacy,
    } = k2(key, &parameter(lpn, friend, lpn_counter, friend_counter));
    NetMaterial {
        nid,
        encryption,
        privacy,
    }
}
