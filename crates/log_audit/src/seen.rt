//! What the lines before a line used and accepted.
#![tactic(auto)]

ghost use Rattle.std.specs.Prelude.{◌≡◌, ℕ, Some, None, [], IfOk, OnOk, if◌then◌else◌};
ghost use Rattle.std.specs.BTreeMap.{get};
ghost use Rattle.std.specs.Option.{option_map};
ghost use Rattle.std.specs.Str.{bytes_eq};
ghost use Rattle.log_audit.specs.Facts.{Key as KeyOf, key_cmp, same_key, name_number, name_key};
ghost use Rattle.log_audit.specs.Uses.{or_else};

use mesh_base::pair::Name;
use mesh_types::answers::KeyName;
use std::alloc::{AllocError, Global};
use std::collections::BTreeMap;
use std::marker::Model;

/// SRC, IV Index and SEQ; DST, and the name of a key.
pub type Key = ((u16, (u32, u32)), (u16, u32));

/// The octets that a line used. A clause sees the list of them.
#[derive(Drop)]
pub struct UsedOctets {
    octets: Vec<u8>,
}

impl Model for UsedOctets {
    ghost use Rattle.std.specs.Prelude.{ℕ, List};

    ghost Value = { List ℕ };

    ghost view = { λ u. u.octets.items };
}

impl UsedOctets {
    /// These octets, in no more memory than they take.
    fn of(alloc: Global, octets: &[u8]) -> Result<UsedOctets, AllocError>
        ensures value { IfOk result (λ u. u ≡ octets.now) }
    {
        let mut used = Vec::with_capacity(alloc, octets.len())?;
        used.extend_from_slice(octets)?;
        Ok(UsedOctets { octets: used })
    }

    /// The octets.
    fn as_slice(&self) -> &[u8]
        ensures value { result.now ≡ self.now }
    {
        self.octets.as_slice()
    }
}

/// The first line with each key, and what it used.
pub type Uses = BTreeMap<Key, (u32, UsedOctets)>;

/// The place of a key's name in their order.
pub fn name_number(key: KeyName) -> u32
    ensures value { result ≡ name_number key }
{
    match key {
        KeyName::Dev => 0,
        KeyName::App(index) => u32::from(index) + 1,
    }
}

/// The key of a name, with more fields.
pub fn name_key(name: Name, more: (u16, u32)) -> Key
    ensures value { result ≡ name_key name more }
{
    ((name.src.0, (name.pair.iv, name.pair.seq)), more)
}

/// What is known of a key: the line that used it first, and whether it used the same.
fn known(uses: &Uses, key: Key, value: &[u8]) -> Option<(u32, bool)>
    ensures value { result ≡ option_map (λ u. (u.0, bytes_eq u.1 value.now)) (get key_cmp uses.now key) }
{
    match uses.get(&key) {
        Some(used) => Some((used.0, used.1.as_slice() == value)),
        None => None,
    }
}

/// Notes that a line uses this under a key, unless the key is known. The answer is what was known of it.
pub fn note(
    alloc: Global,
    uses: &mut Uses,
    key: Key,
    value: &[u8],
    line: u32,
) -> Result<Option<(u32, bool)>, AllocError>
    ensures answer { IfOk result (λ r. r ≡ option_map (λ u. (u.0, bytes_eq u.1 value.now)) (get key_cmp uses.old key)) }
    ensures noted { OnOk result
        ((q : KeyOf)
        → get key_cmp uses.new q
        ≡ or_else (get key_cmp uses.old q) (if same_key key q then Some (line, value.now) else None)) }
{
    match known(uses, key, value) {
        Some(used) => Ok(Some(used)),
        None => {
            put(uses, key, (line, UsedOctets::of(alloc, value)?))?;
            Ok(None)
        }
    }
}

/// Puts a use into the map.
fn put(uses: &mut Uses, key: Key, used: (u32, UsedOctets)) -> Result<(), AllocError>
    ensures put { OnOk result
        ((q : KeyOf) → get key_cmp uses.new q ≡ (if same_key key q then Some used else get key_cmp uses.old q)) }
{
    match uses.insert(key, used) {
        Ok(_) => Ok(()),
        Err(_) => Err(AllocError),
    }
}
