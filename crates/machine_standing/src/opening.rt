//! The store of a node is mounted.
#![tactic(auto)]

ghost use Rattle.std.specs.Prelude.{◌≡◌, IfErr, IfOk, OnOk};
ghost use Rattle.flash_model.specs.Arming.{Begins, Erases, Programs};
ghost use Rattle.flash_model.specs.Chip.{IsFresh, Keeps, count_of};
ghost use Rattle.machine_contract.specs.Opening.{IsNodeFlash, IsUnwritten, MigratesOnly};
ghost use Rattle.machine_contract.specs.Refused.{IsStartCause, IsUntouched, WasReset};
ghost use Rattle.machine_standing.specs.Opening.{IsNodeMounted, start_fault_of};
ghost use Rattle.node_store.specs.Calls.{IsOpenedWith, compaction};
ghost use Rattle.node_store.specs.Tie.{IsNode};
ghost use Rattle.slot_definitions.specs.Slots.{HasFormat};

use flash_model::Flash;
use machine_contract::StartFault;
use node_store::laws::what_is_read_is_mounted;
use node_store::{Store, StoreFault};

// Why no machine is started, where its store isn't mounted.
fn start_fault(fault: StoreFault) -> StartFault
    ensures { result ≡ start_fault_of fault }
{
    match fault {
        StoreFault::Flash => StartFault::Flash,
        _ => StartFault::WasReset,
    }
}

/// Mounts the store of a flash each image of which recovers a node or a reset: the store of a node that can be run. It takes no memory. The
/// error is that the flash failed in this call, or that a Node Reset is stored. Whatever it answers, each image recovers what was read, or
/// records that say the same (`untouched`). Nothing is written but where a bank of format 01 is migrated: the content of another flash stays, and it
/// counts no program or erase call (`writes`). A flash that is migrated counts the calls of a compaction to the records that say the same
/// (`calls`). How many slots were taken up, and how many are used then, says `wear`. Where a Node Reset is stored none is migrated, also where the
/// flash fails (`reset`). It makes at most the read calls of a mount (`writes`).
pub fn mount_node<F: Flash>(flash: &mut F) -> Result<Store, StartFault>
    requires fresh { IsFresh (F.chip flash.old) }
    requires node { IsNodeFlash IsNode (F.chip flash.old) }
    ensures ok { IfOk result (IsNodeMounted (F.chip flash.old) (F.chip flash.new)) }
    ensures cause { IfErr result (IsStartCause IsNode (F.chip flash.old) (F.chip flash.new)) }
    ensures untouched { IsUntouched IsNode (F.chip flash.old) (F.chip flash.new) }
    ensures writes { MigratesOnly (F.chip flash.old) (F.chip flash.new) }
    ensures reset { WasReset (F.chip flash.old) → IsUnwritten (F.chip flash.old) (F.chip flash.new) }
    ensures calls { HasFormat 1 (F.chip flash.old).now
        → IfOk result
        (λ s. Begins (compaction s.persist).calls (F.chip flash.old) (F.chip flash.new)
        × Erases (compaction s.persist).erases (F.chip flash.old) (F.chip flash.new)
        × Programs (compaction s.persist).octets (F.chip flash.old) (F.chip flash.new)) }
    ensures wear { IfOk result
        (λ s. IsOpenedWith (F.chip flash.old).now (count_of (F.chip flash.old)) (count_of (F.chip flash.new)) s.journal.used) }
    ensures no_fault { OnOk result ((F.chip flash.new).faults ≡ (F.chip flash.old).faults) }
    ensures frame { Keeps (F.chip flash.old) (F.chip flash.new) }
{
    // It does nothing when it runs: the proof uses what it says.
    what_is_read_is_mounted();
    match Store::mount(flash) {
        Ok(store) => Ok(store),
        Err(fault) => Err(start_fault(fault)),
    }
}
