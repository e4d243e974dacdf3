//! What a node is provisioned with, onto an erased flash.
#![tactic(auto)]

ghost use Rattle.std.specs.Prelude.{◌≡◌, IsTrue, IfErr, OnOk};
ghost use Rattle.flash_model.specs.Arming.{FailsOnce};
ghost use Rattle.flash_model.specs.Chip.{IsFresh, Keeps, LeavesOnly, Stays, count_of};
ghost use Rattle.node_store.specs.Calls.{only_slots};
ghost use Rattle.node_store.specs.Provisioning.{IsProvision, provisioning};
ghost use Rattle.node_store.specs.Tie.{IsMade};
ghost use Rattle.node_store.specs.Writing.{CostsCalls};
ghost use Rattle.slot_journal.specs.Causes.{IsFormatCause, IsNotErased};
ghost use Rattle.slot_journal.specs.Format.{IsErased};
ghost use Rattle.store_definitions.specs.Provisioning.{provisioned};
ghost use Rattle.run_steps.specs.Provisioned.{IsInFormat, IsProvisioned, format_by};

use flash_model::Flash;
use node_store::{Provision, Store};
use slot_journal::FormatFault;
use store_definitions::recovery::one_list_is_recovered;

/// Provisions a node in the format of today.
fn provision_now<F: Flash>(flash: &mut F, p: &Provision) -> Result<(), FormatFault>
    requires { IsProvision p.now }
    ensures cause { IfErr result (IsFormatCause (F.chip flash.old) (F.chip flash.new)) }
    ensures erased { IsTrue (F.chip flash.old).honest → OnOk result (IsErased (F.chip flash.old).now) }
    ensures unchanged { IsTrue (F.chip flash.old).honest → ¬ IsErased (F.chip flash.old).now
        → Stays (F.chip flash.old) (F.chip flash.new) }
    ensures no_calls { IsTrue (F.chip flash.old).honest → ¬ IsErased (F.chip flash.old).now
        → count_of (F.chip flash.new) ≡ count_of (F.chip flash.old) }
    ensures provisioned { IsFresh (F.chip flash.old)
        → OnOk result (IsProvisioned (F.chip flash.new) (provisioned (provisioning p.now))) }
    ensures format { IsFresh (F.chip flash.old) → OnOk result (IsInFormat 2 (F.chip flash.new)) }
    ensures any_moment { IsFresh (F.chip flash.old) → IsErased (F.chip flash.old).now
        → LeavesOnly (F.chip flash.old) (F.chip flash.new) (IsMade (provisioned (provisioning p.now))) }
    // two program calls of 32 octets together for each record and for the header, and never more
    ensures costs { CostsCalls (only_slots 4) result (F.chip flash.old) (F.chip flash.new) }
    ensures no_fault { OnOk result ((F.chip flash.new).faults ≡ (F.chip flash.old).faults) }
    ensures once { FailsOnce (F.chip flash.old) (F.chip flash.new) }
    ensures sure { IsTrue (F.chip flash.old).sure → IfErr result IsNotErased }
    ensures frame { Keeps (F.chip flash.old) (F.chip flash.new) }
{
    // It does nothing when it runs: the proof uses what it says.
    one_list_is_recovered();
    match Store::provision(flash, p) {
        Ok(_) => Ok(()),
        Err(fault) => Err(fault),
    }
}

/// Provisions a node on a flash that went through a power cycle: with `old` in format 01, which the first life migrates.
pub fn provision<F: Flash>(flash: &mut F, old: bool, p: &Provision) -> Result<(), FormatFault>
    requires { IsProvision p.now }
    ensures cause { IfErr result (IsFormatCause (F.chip flash.old) (F.chip flash.new)) }
    ensures erased { IsTrue (F.chip flash.old).honest → OnOk result (IsErased (F.chip flash.old).now) }
    ensures unchanged { IsTrue (F.chip flash.old).honest → ¬ IsErased (F.chip flash.old).now
        → Stays (F.chip flash.old) (F.chip flash.new) }
    ensures no_calls { IsTrue (F.chip flash.old).honest → ¬ IsErased (F.chip flash.old).now
        → count_of (F.chip flash.new) ≡ count_of (F.chip flash.old) }
    ensures provisioned { IsFresh (F.chip flash.old)
        → OnOk result (IsProvisioned (F.chip flash.new) (provisioned (provisioning p.now))) }
    ensures format { IsFresh (F.chip flash.old) → OnOk result (IsInFormat (format_by old) (F.chip flash.new)) }
    ensures any_moment { IsFresh (F.chip flash.old) → IsErased (F.chip flash.old).now
        → LeavesOnly (F.chip flash.old) (F.chip flash.new) (IsMade (provisioned (provisioning p.now))) }
    // as many calls in either format
    ensures costs { CostsCalls (only_slots 4) result (F.chip flash.old) (F.chip flash.new) }
    ensures no_fault { OnOk result ((F.chip flash.new).faults ≡ (F.chip flash.old).faults) }
    ensures once { FailsOnce (F.chip flash.old) (F.chip flash.new) }
    ensures sure { IsTrue (F.chip flash.old).sure → IfErr result IsNotErased }
    ensures frame { Keeps (F.chip flash.old) (F.chip flash.new) }
{
    // It does nothing when it runs: the proof uses what it says.
    one_list_is_recovered();
    if old {
        Store::provision_old(flash, p)
    } else {
        provision_now(flash, p)
    }
}
