//! Rows of AES, AES-CCM, AES-CMAC and the key derivations.
#![tactic(auto)]

ghost use Rattle.std.specs.Prelude.{◌≡◌, ◌⊎◌, length};

use crate::row::Row;
use aes_block::Schedule;

/// `aes KEY BLOCK`.
pub fn aes(row: &mut Row<'_>) {
    let schedule = Schedule::new(&row.octets());
    let block = row.octets();
    row.put_octets(&schedule.encrypt(block));
}

/// `chained KEY LAST BLOCK`: one block more of a chaining.
pub fn chained(row: &mut Row<'_>) {
    let schedule = Schedule::new(&row.octets());
    let last = row.octets();
    let block: [u8; 16] = row.octets();
    row.put_octets(&schedule.chained(&last, &block));
}

/// `cmac KEY TEXT`.
pub fn cmac(row: &mut Row<'_>) {
    let key = row.octets();
    let message = row.text();
    row.put_octets(&mesh_kdf::cmac(&key, message.as_slice()));
}

// Seals the text of a row into a MIC of this length.
fn sealed(row: &mut Row<'_>, mic: &mut [u8])
    requires { (length mic.old ≡ 4) ⊎ (length mic.old ≡ 8) }
{
    let schedule = Schedule::new(&row.octets());
    let nonce = row.octets();
    let additional = row.text();
    let mut text = row.text();
    aes_ccm::seal(
        &schedule,
        &nonce,
        additional.as_slice(),
        text.as_mut_slice(),
        mic,
    );
    row.put_octets(text.as_slice());
    row.put_octets(mic);
}

/// `seal LONG KEY NONCE ADDITIONAL TEXT`, with 1 for a MIC of 8 octets, and 0 for one of 4: what it seals to, and the MIC.
pub fn seal(row: &mut Row<'_>) {
    if row.flag() {
        sealed(row, &mut [0; 8]);
    } else {
        sealed(row, &mut [0; 4]);
    }
}

/// `open KEY NONCE ADDITIONAL SEALED MIC`: the text; where it isn't opened, that, and what is left of the text.
pub fn open(row: &mut Row<'_>) {
    let schedule = Schedule::new(&row.octets());
    let nonce = row.octets();
    let additional = row.text();
    let mut text = row.text();
    let mic = row.text();
    if mic.len() != 4 && mic.len() != 8 {
        return row.refuse();
    }
    let opened = aes_ccm::unseal(
        &schedule,
        &nonce,
        additional.as_slice(),
        text.as_mut_slice(),
        mic.as_slice(),
    );
    row.put(if opened.is_ok() { "opened" } else { "badmic" });
    row.put_octets(text.as_slice());
}

/// `s1 TEXT`.
pub fn s1(row: &mut Row<'_>) {
    let message = row.text();
    row.put_octets(&mesh_kdf::s1(message.as_slice()));
}

/// `k1 N SALT P`.
pub fn k1(row: &mut Row<'_>) {
    let n = row.text();
    let salt = row.octets();
    let p = row.text();
    row.put_octets(&mesh_kdf::k1(n.as_slice(), &salt, p.as_slice()));
}

/// `k2 N P`: NID, EncryptionKey and PrivacyKey.
pub fn k2(row: &mut Row<'_>) {
    let n = row.octets();
    let p = row.text();
    if p.len() == 0 || p.len() > 32 {
        return row.refuse();
    }
    let derived = mesh_kdf::k2(&n, p.as_slice());
    row.put_octets(&[derived.nid]);
    row.put_octets(&derived.encryption);
    row.put_octets(&derived.privacy);
}

/// `k3 N`.
pub fn k3(row: &mut Row<'_>) {
    let n = row.octets();
    row.put_octets(&mesh_kdf::k3(&n));
}

/// `k4 N`.
pub fn k4(row: &mut Row<'_>) {
    let n = row.octets();
    row.put_octets(&[mesh_kdf::k4(&n)]);
}

/// `address LABEL`: its virtual address.
pub fn address(row: &mut Row<'_>) {
    let label = row.octets();
    row.put_octets(&mesh_kdf::address(&label).to_be_bytes());
}
