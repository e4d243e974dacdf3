//! In how many ticks something is due.
#![tactic(auto)]

ghost use Rattle.std.specs.Prelude.{◌≡◌, ◌-◌, ◌^◌, true, false};
ghost use Rattle.locked_node.specs.Stands.{IsDueNode, IsIdleNode};

use crate::node::Node;
use flash_model::Flash;
use machine_contract::Machine;

impl<M: Machine, F: Flash + Send + Drop> Node<M, F> {
    /// In how many ticks of 10 ms something is due, at most 2^32 - 1: over what the life found, an event of fewer ticks stores nothing and sends
    /// nothing, and one of so many isn't quiet (`least`, by what the machine says of it). Where the flash failed nothing is due any more.
    pub fn due(&self) -> u32
        ensures idle { self.now.machine.closed ≡ false → IsIdleNode M.role F.chip self.now result }
        ensures least { self.now.machine.closed ≡ false → IsDueNode M.role M.quiet F.chip self.now result }
        ensures closed { self.now.machine.closed ≡ true → result ≡ 2 ^ 32 - 1 }
    {
        self.held.machine.due::<F>()
    }
}
