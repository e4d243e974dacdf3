//! Lists of octets of a bounded length, that take no memory.
#![tactic(auto)]

ghost use Rattle.std.specs.Prelude.{◌≡◌, ◌+◌, ◌<◌, ◌≤◌, ◌↔◌, ⊤, [], ◌∷◌, ◌++◌, length, IsOk, IfOk, OnOk, OnErr};

use arrayvec::ArrayVec;
use std::alloc::AllocError;
use std::marker::Model;
use thiserror::Error;

/// At most N octets. A clause sees it as the list of its octets.
#[derive(Debug, Drop, PartialEq, Eq)]
pub struct Octets<const N: usize> {
    bytes: ArrayVec<u8, N>,
}

/// The octets don't fit into the list.
#[derive(Clone, Copy, Debug, PartialEq, Eq, Error)]
#[error("too many octets")]
pub struct TooMany;

impl<const N: usize> Model for Octets<N> {
    ghost use Rattle.std.specs.Prelude.{ℕ, List};

    ghost Value = { List ℕ };

    ghost view = { λ o. o.bytes.items };

    ghost inverse = { λ xs. record { bytes = record { items = xs } } };
}

impl<const N: usize> Default for Octets<N> {
    ghost is_default = { λ o. o ≡ [] };

    fn default() -> Octets<N> {
        Octets::new()
    }
}

impl<const N: usize> Clone for Octets<N> {
    ghost is_clone = { λ o p. p ≡ o };

    ghost is_infallible = { λ _. ⊤ };

    fn clone(&self) -> Result<Octets<N>, AllocError> {
        Ok(self.copied())
    }
}

impl<const N: usize> Octets<N> {
    /// No octets.
    pub fn new() -> Octets<N>
        ensures value { result ≡ [] }
    {
        Octets {
            bytes: ArrayVec::new(),
        }
    }

    /// These octets; `TooMany` exactly where there are more than N.
    pub fn of(bytes: &[u8]) -> Result<Octets<N>, TooMany>
        ensures variant { IsOk result ↔ (length bytes.now ≤ N) }
        ensures ok { IfOk result (λ o. o ≡ bytes.now) }
    {
        let mut out = ArrayVec::new();
        match out.try_extend_from_slice(bytes) {
            Ok(()) => Ok(Octets { bytes: out }),
            Err(_) => Err(TooMany),
        }
    }

    /// Puts one octet behind the others; `TooMany` exactly where there are N already.
    pub fn push(&mut self, b: u8) -> Result<(), TooMany>
        ensures variant { IsOk result ↔ (length self.old < N) }
        ensures ok { OnOk result (self.new ≡ self.old ++ b ∷ []) }
        ensures unchanged { OnErr result (self.new ≡ self.old) }
    {
        match self.bytes.try_push(b) {
            Ok(()) => Ok(()),
            Err(_) => Err(TooMany),
        }
    }

    /// Puts these octets behind the others, for which the caller has room.
    pub fn extend(&mut self, bytes: &[u8])
        requires { length self.old + length bytes.now ≤ N }
        ensures value { self.new ≡ self.old ++ bytes.now }
    {
        let _ = self.bytes.try_extend_from_slice(bytes);
    }

    /// The octets, in their order.
    pub fn as_slice(&self) -> &[u8]
        ensures value { result.now ≡ self.now }
        ensures length { length result.now ≤ N }
    {
        self.bytes.as_slice()
    }

    /// The same octets once more. It takes no memory, so it can't fail as a `clone` may.
    pub fn copied(&self) -> Octets<N>
        ensures value { result ≡ self.now }
    {
        let mut out = Octets::new();
        out.extend(self.as_slice());
        out
    }
}
