//! The files that commands name.
#![tactic(auto)]

ghost use Rattle.std.specs.Prelude.{◌≡◌, ℕ, List, ⊤, IfErr, IfOk, OnOk};
ghost use Rattle.flash_model.specs.Chip.{Chip, IsFresh};
ghost use Rattle.node_file.specs.declared.faults.MakeFault.{MakeFault};
ghost use Rattle.node_file.specs.declared.faults.OpenFault.{OpenFault};
ghost use Rattle.node_store.specs.Provisioning.{IsProvision};
ghost use Rattle.node_store.specs.Tie.{IsNode};
ghost use Rattle.node_store.specs.declared.provision.Provision.{Provision};

use flash_model::Flash;
use node_file::{MakeFault, NodeFlash, OpenFault, make_node, open_node};
use node_store::Provision;
use std::alloc::Global;
use std::fs::File;
use std::rt::Files;

/// Where the files of nodes are.
pub trait NodeFiles {
    // The flash that the file of a name was when it was opened.
    ghost opens: { Self → List ℕ → Chip → Type 0 };

    // That the file of a name wasn't opened, and this is why.
    ghost refuses: { Self → List ℕ → OpenFault → Type 0 };

    // That a file of a name was made, of a node that is provisioned so.
    ghost makes: { Self → List ℕ → Provision → Type 0 };

    // That none was made, and this is why.
    ghost unmakes: { Self → List ℕ → Provision → MakeFault → Type 0 };

    /// Opens the file of a name, as `open_node` of `node_file` does.
    fn open(&self, alloc: Global, file: &str) -> Result<NodeFlash, OpenFault>
        ensures opens { IfOk result (λ f. opens self.now file.now (⟦<NodeFlash as Flash>⟧.chip f)) }
        ensures refuses { IfErr result (λ fault. refuses self.now file.now fault) }
        ensures fresh { IfOk result (λ f. IsFresh (⟦<NodeFlash as Flash>⟧.chip f)) }
        ensures node { IfOk result (λ f. IsNode (⟦<NodeFlash as Flash>⟧.chip f).now) }
        ensures began { IfOk result
            (λ f. (⟦<NodeFlash as Flash>⟧.chip f).setting.faults ≡ (⟦<NodeFlash as Flash>⟧.chip f).faults) }
        ensures uncalled { IfOk result (λ f. (⟦<NodeFlash as Flash>⟧.chip f).changes ≡ 0) };

    /// Makes the file of a new node, as `make_node` of `node_file` does.
    fn make(&self, alloc: Global, file: &str, provision: &Provision) -> Result<(), MakeFault>
        requires provision { IsProvision provision.now }
        ensures makes { OnOk result (makes self.now file.now provision.now) }
        ensures unmakes { IfErr result (λ fault. unmakes self.now file.now provision.now fault) };
}

/// The files of the system. What they are is told to no clause.
#[derive(Drop)]
pub struct SystemFiles<'a, R> {
    /// The system.
    pub rt: &'a R,
}

impl<R: Files<File = File>> NodeFiles for SystemFiles<'_, R> {
    ghost opens = { λ _ _ _. ⊤ };

    ghost refuses = { λ _ _ _. ⊤ };

    ghost makes = { λ _ _ _. ⊤ };

    ghost unmakes = { λ _ _ _ _. ⊤ };

    fn open(&self, alloc: Global, file: &str) -> Result<NodeFlash, OpenFault> {
        open_node(self.rt, alloc, file)
    }

    fn make(&self, alloc: Global, file: &str, provision: &Provision) -> Result<(), MakeFault> {
        make_node(self.rt, alloc, file, provision)
    }
}
