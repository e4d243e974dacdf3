//! That a mark isn't the published one any more.
#![tactic(auto)]

use std::marker::Model;

/// What a refill answers: the mark that was seen, and the one that is published now, another one. `refill` of a node alone makes it, so
/// whoever has it had a refill asked for under the lock.
#[derive(Drop)]
pub struct Raised {
    pub(crate) seen: u64,
    pub(crate) mark: u64,
}

impl Model for Raised {
    ghost use Rattle.std.specs.Prelude.{◌≢◌};
    ghost use Rattle.locked_node.specs.Node.{Rise};

    ghost Value = { Rise };

    ghost view = { λ r. record { seen = r.seen; mark = r.mark } };

    ghost invariant = { λ r. r.mark ≢ r.seen };
}
