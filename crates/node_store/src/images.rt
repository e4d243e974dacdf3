// A flash whose octets come from outside: whether a node can be started from it.
ghost use Rattle.std.specs.Prelude.{◌≡◌, ◌↔◌, ◌⊎◌, ◌+◌, ◌≤◌, ◌≢◌, ◌^◌, [], All, true, List, IsTrue, IfOk, IfErr, OnOk, is_some, nat_le};
ghost use Rattle.flash_model.specs.Arming.{FailsOnce};
ghost use Rattle.flash_model.specs.Chip.{Keeps, Stays};
ghost use Rattle.mesh_base.specs.declared.keys.AppKeyRow.{AppKeyRow};
ghost use Rattle.node_limits.specs.declared.TheConstants as limits;
ghost use Rattle.node_records.specs.Meaning.{IsMeaningOf, IsSaid};
ghost use Rattle.node_records.specs.Tables.{config_in};
ghost use Rattle.record_types.specs.declared.records.StoreRecord.{StoreRecord};
ghost use Rattle.store_definitions.specs.Node.{IsPhased, IsWhole, is_held};
ghost use Rattle.node_store.specs.Images.{IsImageCause, IsReadFrom, IsRefusedByFlash};
ghost use Rattle.node_store.specs.Causes.{IsNotFlash, IsStoreCause};
ghost use Rattle.node_store.specs.Tie.{IsNode};
ghost use Rattle.node_store.specs.declared.mounting.StoreFault.TheVariants as StoreFaults;

use crate::mounting::{StoreFault, read_records};
use flash_model::Flash;
use mesh_base::keys::{AppKeyRow, NetKeyRow, net_row};
use node_limits::ELEMENTS;
use node_records::Persist;
use node_records::laws::value_law;
use slot_journal::{Journal, Untidy, check_tidy};
use thiserror::Error;

/// The address behind the last unicast address.
const UNICAST_END: u32 = 0x8000;

/// Why no node can be started from a flash.
#[derive(Clone, Copy, Debug, PartialEq, Eq, Error)]
pub enum ImageFault {
    /// Nothing of a node is read, as a mount would answer: the flash failed, no node was provisioned, or a slot is damaged. It is never
    /// `WasReset`.
    #[error("{0}")]
    Store(StoreFault),
    /// The header of this bank, 0 or 1, doesn't count, and a cut in an erase could make it count. No call leaves such a header.
    #[error("the header of bank {bank} could come to count")]
    Header { bank: u32 },
    /// The records are those of no node that can be run: without an identity in range or a network key, with a network key in a phase that
    /// doesn't fit its keys, or with an application key of a network key that isn't there.
    #[error("the records aren't those of a node")]
    NotWhole,
}

impl From<StoreFault> for ImageFault {
    ghost use Rattle.std.specs.Prelude.{◌≡◌};
    ghost use Rattle.node_store.specs.declared.images.ImageFault.TheVariants as I;

    ghost from_gives = { λ fault e. e ≡ I.Store fault };

    fn from(fault: StoreFault) -> Self {
        ImageFault::Store(fault)
    }
}

impl From<Untidy> for ImageFault {
    ghost use Rattle.std.specs.Prelude.{◌≡◌};
    ghost use Rattle.node_store.specs.Images.{image_fault_of};

    ghost from_gives = { λ fault e. e ≡ image_fault_of fault };

    fn from(fault: Untidy) -> Self {
        match fault {
            Untidy::Flash => ImageFault::Store(StoreFault::Flash),
            Untidy::Header { bank } => ImageFault::Header { bank },
        }
    }
}

/// Whether there is an identity in range.
fn has_identity(p: &Persist) -> bool
    ensures { IsTrue result ↔ (1 ≤ p.now.elements) × (p.now.elements ≤ limits.ELEMENTS) × (1 ≤ p.now.unicast.0)
        × (p.now.unicast.0 + p.now.elements ≤ 2 ^ 15) }
{
    1 <= p.elements
        && usize::from(p.elements) <= ELEMENTS
        && 1 <= p.unicast.0
        && u32::from(p.unicast.0) + u32::from(p.elements) <= UNICAST_END
}

/// Whether a network key has its next key exactly where its phase asks for it.
fn is_phased(row: &NetKeyRow) -> bool
    ensures { IsTrue result ↔ IsPhased row.now }
{
    row.phase <= 2 && row.next.is_some() == (1 <= row.phase)
}

/// Whether all network keys are so.
fn all_phased(rows: &[NetKeyRow]) -> bool
    ensures { IsTrue result ↔ All IsPhased rows.now }
{
    rows.iter().all(|row| is_phased(row))
}

/// Whether the network key of an application key is there.
fn is_bound(nets: &[NetKeyRow], row: &AppKeyRow) -> bool
    ensures { IsTrue result ↔ is_held nets.now row.now.net ≡ true }
{
    net_row(nets, row.net).is_some()
}

/// Whether the network keys of all application keys are there.
fn all_bound(nets: &[NetKeyRow], apps: &[AppKeyRow]) -> bool
    ensures { IsTrue result ↔ All (λ (row : AppKeyRow). is_held nets.now row.net ≡ true) apps.now }
{
    apps.iter().all(|row| is_bound(nets, row))
}

/// Whether a value is that of a node that can be run.
fn is_whole(p: &Persist) -> bool
    requires said { IsSaid p.now }
    ensures { IsTrue result ↔ IsWhole (config_in p.now) }
{
    // It does nothing when it runs: the proof uses what it says.
    value_law();
    if !has_identity(p) || p.nets.is_empty() {
        return false;
    }
    if !all_phased(p.nets.as_slice()) {
        return false;
    }
    all_bound(p.nets.as_slice(), p.apps.as_slice())
}

/// Reads the records of the bank that counts, whatever its headers are, and whatever the records say.
fn read_counting<F: Flash>(flash: &mut F) -> Result<Persist, StoreFault>
    ensures value { IsTrue (F.chip flash.old).honest → IfOk result (IsReadFrom (F.chip flash.old).now) }
    ensures cause { IfErr result (IsStoreCause (F.chip flash.old) (F.chip flash.new)) }
    ensures runs { IfErr result (λ e. e ≢ StoreFaults.WasReset) }
    ensures stays { IsTrue (F.chip flash.old).honest → Stays (F.chip flash.old) (F.chip flash.new) }
    ensures calls { (F.chip flash.new).changes ≡ (F.chip flash.old).changes }
    ensures unerased { (F.chip flash.new).erases ≡ (F.chip flash.old).erases }
    ensures unprogrammed { (F.chip flash.new).octets ≡ (F.chip flash.old).octets }
    ensures said { IfOk result IsSaid }
    ensures no_fault { OnOk result ((F.chip flash.new).faults ≡ (F.chip flash.old).faults) }
    ensures once { FailsOnce (F.chip flash.old) (F.chip flash.new) }
    ensures refused { IfErr result (λ e. IsNotFlash e → (F.chip flash.new).faults ≡ (F.chip flash.old).faults) }
    ensures sure { IsTrue (F.chip flash.old).sure → IfErr result IsNotFlash }
    ensures frame { Keeps (F.chip flash.old) (F.chip flash.new) }
{
    let journal = Journal::mount(flash)?;
    read_records(&journal, flash)
}

/// Reads a flash whose octets come from outside. It tells what its records say, where a node can be started from it, or one that was reset;
/// and else what is wrong. Of several faults that hold the first is answered, in the order of `Header` of bank 0, `Header` of bank 1, `NoNode`,
/// `Damaged`, `NotWhole`. It writes nothing, and a bank of format 01 stays.
///
/// So any 65,536 octets are either what a start asks of its flash (`node`), or refused.
pub fn read_image<F: Flash>(flash: &mut F) -> Result<Persist, ImageFault>
    ensures node { IsTrue (F.chip flash.old).honest → OnOk result (IsNode (F.chip flash.old).now) }
    ensures value { IsTrue (F.chip flash.old).honest → IfOk result (IsReadFrom (F.chip flash.old).now) }
    ensures cause { IfErr result (IsImageCause (F.chip flash.old) (F.chip flash.new)) }
    ensures stays { IsTrue (F.chip flash.old).honest → Stays (F.chip flash.old) (F.chip flash.new) }

    // it makes no program or erase call
    ensures calls { (F.chip flash.new).changes ≡ (F.chip flash.old).changes }
    ensures unerased { (F.chip flash.new).erases ≡ (F.chip flash.old).erases }
    ensures unprogrammed { (F.chip flash.new).octets ≡ (F.chip flash.old).octets }

    // of every flash, honest or not
    ensures said { IfOk result IsSaid }
    ensures no_fault { OnOk result ((F.chip flash.new).faults ≡ (F.chip flash.old).faults) }
    ensures once { FailsOnce (F.chip flash.old) (F.chip flash.new) }
    ensures sure { IsTrue (F.chip flash.old).sure → IfErr result (λ e. ¬ IsRefusedByFlash e) }
    ensures frame { Keeps (F.chip flash.old) (F.chip flash.new) }
{
    check_tidy(flash)?;
    let persist = read_counting(flash)?;
    if !persist.reset && !is_whole(&persist) {
        return Err(ImageFault::NotWhole);
    }
    Ok(persist)
}
