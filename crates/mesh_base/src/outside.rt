//! Where octets come from and where they go. Code above is generic over these two traits, so its proofs hold for files, pipes
//! and memory alike, whatever fails.
#![tactic(auto)]

ghost use Rattle.std.specs.Prelude.{◌≡◌, ℕ, ◌<◌, ◌≤◌, ◌↔◌, List, [], ◌∷◌, length, take, Option, IfOk, IfSome, OnOk, OnErr};
ghost use Rattle.std.specs.Io.KnownBytes.{Consumes, IsAtEnd};
ghost use Rattle.mesh_base.specs.Outside.{Rose, Grows};

use thiserror::Error;

/// The source or the sink failed, and its count of faults rose.
#[derive(Clone, Copy, Debug, PartialEq, Eq, Error)]
#[error("the source or the sink failed")]
pub struct Failed;

/// Where octets come from.
pub trait Source {
    // The octets that it still gives, where they are told, as in memory.
    ghost left: { Self → Option (List ℕ) };

    // How many calls failed.
    ghost faults: { Self → ℕ };

    /// Reads the next octets into the front of `buf`, which isn't empty, and answers how many. 0 is the end of the input.
    fn read(&mut self, buf: &mut [u8]) -> Result<usize, Failed>
        requires { 0 < length buf.old }

        ensures bound { IfOk result (λ n. n ≤ length buf.new) }
        ensures octets { IfOk result (λ n. Consumes (left self.old) (left self.new) (take n buf.new)) }
        ensures end { IfOk result (λ n. IfSome (left self.old) (λ xs. (n ≡ 0) ↔ (xs ≡ []))) }
        ensures at_end { IfOk result (λ n. n ≡ 0 → IsAtEnd (left self.new)) }
        ensures unchanged { OnErr result (left self.new ≡ left self.old) }

        // A fault raises the count, and so isn't swallowed: Ok leaves it.
        ensures no_fault { OnOk result (faults self.new ≡ faults self.old) }
        ensures cause { OnErr result (Rose (faults self.old) (faults self.new)) }
        ensures later { faults self.old ≤ faults self.new };
}

/// Where octets go. Each call of `write` offers it a piece, of which it takes a front.
pub trait Sink {
    // The octets that it took, where they are told, as in memory.
    ghost held: { Self → Option (List ℕ) };

    // The pieces that it was offered, one for each call of `write`, in their order, where they are told, as in memory.
    ghost pieces: { Self → Option (List (List ℕ)) };

    // How many calls failed.
    ghost faults: { Self → ℕ };

    /// Takes octets from the front of `bytes`, and answers how many: at least one, unless `bytes` is empty.
    fn write(&mut self, bytes: &[u8]) -> Result<usize, Failed>
        ensures bound { IfOk result (λ n. n ≤ length bytes.now) }
        ensures some { IfOk result (λ n. 0 < length bytes.now → 0 < n) }
        ensures octets { IfOk result (λ n. Grows (held self.old) (held self.new) (take n bytes.now)) }
        ensures unchanged { OnErr result (held self.new ≡ held self.old) }

        // Ok or not, the piece was offered.
        ensures offered { Grows (pieces self.old) (pieces self.new) (bytes.now ∷ []) }

        // A fault raises the count, and so isn't swallowed: Ok leaves it.
        ensures no_fault { OnOk result (faults self.new ≡ faults self.old) }
        ensures cause { OnErr result (Rose (faults self.old) (faults self.new)) }
        ensures later { faults self.old ≤ faults self.new };
}
