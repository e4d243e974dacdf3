//! The steps of a round on the state (FIPS 197, 5.1), a word for each column.
#![tactic(auto)]

ghost use Rattle.std.specs.Prelude.{◌≡◌, ◌∷◌, []};
ghost use Rattle.std.specs.Int.{to_be_bytes, w32};
ghost use Rattle.cipher_definitions.specs.Octets.{xor_lists};
ghost use Rattle.cipher_definitions.specs.Aes.{round, last_round, sub_octet};
ghost use Rattle.aes_block.specs.Columns.{octets, row, mixed_rows};

use crate::tables::{added_0, added_1, added_2, added_3, substitute};

/// The columns of a block.
pub(crate) fn columns_of(block: &[u8; 16]) -> [u32; 4]
    ensures { octets result ≡ block.now }
{
    [
        u32::from_be_bytes([block[0], block[1], block[2], block[3]]),
        u32::from_be_bytes([block[4], block[5], block[6], block[7]]),
        u32::from_be_bytes([block[8], block[9], block[10], block[11]]),
        u32::from_be_bytes([block[12], block[13], block[14], block[15]]),
    ]
}

/// The block of these columns.
pub(crate) fn octets_of(columns: &[u32; 4]) -> [u8; 16]
    ensures { result ≡ octets columns.now }
{
    let [a, b, c, d] = *columns;
    let (a, b, c, d) = (
        a.to_be_bytes(),
        b.to_be_bytes(),
        c.to_be_bytes(),
        d.to_be_bytes(),
    );
    [
        a[0], a[1], a[2], a[3], b[0], b[1], b[2], b[3], c[0], c[1], c[2], c[3], d[0], d[1], d[2],
        d[3],
    ]
}

/// AddRoundKey (FIPS 197, 5.1.4).
pub(crate) fn sum(state: &[u32; 4], key: &[u32; 4]) -> [u32; 4]
    ensures { octets result ≡ xor_lists (octets state.now) (octets key.now) }
{
    [
        state[0] ^ key[0],
        state[1] ^ key[1],
        state[2] ^ key[2],
        state[3] ^ key[3],
    ]
}

// A column after SubBytes, ShiftRows and MixColumns, from the columns that its rows 0, 1, 2 and 3 come from.
fn mixed_column(a: u32, b: u32, c: u32, d: u32) -> u32
    ensures { to_be_bytes w32 result
        ≡ mixed_rows (sub_octet (row a 0)) (sub_octet (row b 1)) (sub_octet (row c 2)) (sub_octet (row d 3)) }
{
    added_0(a.to_be_bytes()[0])
        ^ added_1(b.to_be_bytes()[1])
        ^ added_2(c.to_be_bytes()[2])
        ^ added_3(d.to_be_bytes()[3])
}

// A column after SubBytes and ShiftRows, from the columns that its rows 0, 1, 2 and 3 come from.
fn shifted_column(a: u32, b: u32, c: u32, d: u32) -> u32
    ensures { to_be_bytes w32 result
        ≡ sub_octet (row a 0) ∷ sub_octet (row b 1) ∷ sub_octet (row c 2) ∷ sub_octet (row d 3) ∷ [] }
{
    u32::from_be_bytes([
        substitute(a.to_be_bytes()[0]),
        substitute(b.to_be_bytes()[1]),
        substitute(c.to_be_bytes()[2]),
        substitute(d.to_be_bytes()[3]),
    ])
}

/// One of the rounds before the last (FIPS 197, 5.1).
pub(crate) fn after_round(s: &[u32; 4], key: &[u32; 4]) -> [u32; 4]
    ensures { octets result ≡ round (octets s.now) (octets key.now) }
{
    let mixed = [
        mixed_column(s[0], s[1], s[2], s[3]),
        mixed_column(s[1], s[2], s[3], s[0]),
        mixed_column(s[2], s[3], s[0], s[1]),
        mixed_column(s[3], s[0], s[1], s[2]),
    ];
    sum(&mixed, key)
}

/// The last round, without MixColumns (FIPS 197, 5.1).
pub(crate) fn after_last_round(s: &[u32; 4], key: &[u32; 4]) -> [u32; 4]
    ensures { octets result ≡ last_round (octets s.now) (octets key.now) }
{
    let shifted = [
        shifted_column(s[0], s[1], s[2], s[3]),
        shifted_column(s[1], s[2], s[3], s[0]),
        shifted_column(s[2], s[3], s[0], s[1]),
        shifted_column(s[3], s[0], s[1], s[2]),
    ];
    sum(&shifted, key)
}
