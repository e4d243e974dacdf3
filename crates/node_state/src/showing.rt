//! The lines of a flash whose octets come from outside.
#![tactic(auto)]

ghost use Rattle.std.specs.Prelude.{◌≡◌, IsTrue, IfOk, IfErr, OnOk};
ghost use Rattle.flash_model.specs.Arming.{FailsOnce};
ghost use Rattle.flash_model.specs.Chip.{Keeps, Stays};
ghost use Rattle.node_state.specs.Shows.{IsShowCause, Shows, mount_fault};

use crate::lines::state_text;
use flash_model::Flash;
use node_store::{ImageFault, StoreFault, read_image};
use report_lines::LineText;
use slot_journal::{Journal, NoMount};
use std::alloc::Global;
use thiserror::Error;

/// Why nothing is told.
#[derive(Clone, Copy, Debug, PartialEq, Eq, Error)]
pub enum ShowFault {
    /// No node is read.
    #[error("{0}")]
    Image(ImageFault),
    /// There was no memory.
    #[error("out of memory")]
    Memory,
}

/// Why no journal is found where a node was read: the flash failed. That there is no journal can't be.
fn mount_fault(fault: NoMount) -> ImageFault
    ensures value { result ≡ mount_fault fault }
{
    match fault {
        NoMount::Flash => ImageFault::Store(StoreFault::Flash),
        NoMount::NoBank => ImageFault::Store(StoreFault::NoNode),
    }
}

/// The text that tells what a flash stores, whatever its octets are, but no key: for a node that can be run, and one that was reset. It writes
/// nothing to the flash.
///
/// # Errors
///
/// As those of `read_image` of `node_store`, and want of memory.
pub fn show<F: Flash>(alloc: Global, flash: &mut F) -> Result<LineText, ShowFault>
    ensures value { IsTrue (F.chip flash.old).honest → IfOk result (Shows (F.chip flash.old).now) }
    ensures cause { IfErr result (IsShowCause (F.chip flash.old) (F.chip flash.new)) }
    ensures stays { IsTrue (F.chip flash.old).honest → Stays (F.chip flash.old) (F.chip flash.new) }
    ensures calls { (F.chip flash.new).changes ≡ (F.chip flash.old).changes }
    ensures unerased { (F.chip flash.new).erases ≡ (F.chip flash.old).erases }
    ensures unprogrammed { (F.chip flash.new).octets ≡ (F.chip flash.old).octets }
    ensures no_fault { OnOk result ((F.chip flash.new).faults ≡ (F.chip flash.old).faults) }
    ensures once { FailsOnce (F.chip flash.old) (F.chip flash.new) }
    ensures frame { Keeps (F.chip flash.old) (F.chip flash.new) }
{
    let persist = match read_image(flash) {
        Ok(persist) => persist,
        Err(fault) => return Err(ShowFault::Image(fault)),
    };
    let journal = match Journal::mount(flash) {
        Ok(journal) => journal,
        Err(fault) => return Err(ShowFault::Image(mount_fault(fault))),
    };
    match state_text(alloc, &persist, journal.used(), journal.version()) {
        Ok(text) => Ok(text),
        Err(_) => Err(ShowFault::Memory),
    }
}
