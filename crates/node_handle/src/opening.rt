//! The opening of a node over an image, with the first line of its life.
#![tactic(auto)]

ghost use Rattle.std.specs.Prelude.{◌≡◌, ◌≤◌, length, IfErr, IfOk};
ghost use Rattle.linked_node.specs.Causes.{IsOpenCause};
ghost use Rattle.mesh_types.specs.declared.report.Opened.TheVariants as W;
ghost use Rattle.report_definitions.specs.Report.{line_text, opened_line};
ghost use Rattle.node_handle.specs.Nodes.{IsFirstLine, IsOpened, open_status};

use crate::held::HeldNode;
use crate::status::{LENGTH, MEMORY, NO_NODE, WAS_RESET};
use called_node::CalledNode;
use file_flash::{Backing, FileFlash, NotedFlash, NotedPlace};
use flash_model::{FLASH_OCTETS, Flash};
use linked_node::{OpenFault, open_image};
use mesh_types::report::ReportLine;
use node_store::{ImageFault, Persist, StoreFault, read_image};
use report_lines::{LineText, write_line};
use std::alloc::{AllocError, Global};

/// A node that was opened, and the first line of its life.
#[derive(Drop)]
pub(crate) struct OpenedNode {
    /// The line.
    pub(crate) line: LineText,
    /// The node.
    pub(crate) node: Box<HeldNode>,
}

/// What a refused opening answers.
pub(crate) fn open_status(fault: &OpenFault) -> u32
    ensures value { result ≡ open_status fault.now }
{
    match fault {
        OpenFault::Size { .. } => LENGTH,
        OpenFault::Image(ImageFault::Store(StoreFault::Flash)) => MEMORY,
        OpenFault::Image(_) => NO_NODE,
        OpenFault::WasReset => WAS_RESET,
        OpenFault::Flash | OpenFault::Memory => MEMORY,
    }
}

/// The text of the first line of a life over what these records say.
#[tactic(auto, using(crate::proofs::Room::opened_room))]
fn line_of(alloc: Global, persist: &Persist) -> Result<LineText, AllocError>
    ensures value { IfOk result
        (λ text. text ≡ line_text (opened_line 1 (W.On persist.now.iv persist.now.mark))) }
    ensures room { IfOk result (λ text. length text ≤ 35) }
{
    write_line(
        alloc,
        &ReportLine::Opened {
            life: 1,
            state: persist.iv,
            mark: persist.mark,
        },
    )
}

/// The first line of a life over an image.
fn life_line(alloc: Global, image: &[u8]) -> Result<LineText, OpenFault>
    requires size { length image.now ≡ FLASH_OCTETS }
    ensures first { IfOk result (IsFirstLine image.now) }
    ensures room { IfOk result (λ text. length text ≤ 35) }
    ensures cause { IfErr result (IsOpenCause image.now) }
{
    let mut flash = match FileFlash::new(alloc, NotedPlace::new(alloc), image) {
        Ok(flash) => flash,
        Err(AllocError) => return Err(OpenFault::Memory),
    };
    let persist = match read_image(&mut flash) {
        Ok(persist) => persist,
        Err(fault) => return Err(OpenFault::Image(fault)),
    };
    if persist.reset {
        return Err(OpenFault::WasReset);
    }
    match line_of(alloc, &persist) {
        Ok(text) => Ok(text),
        Err(AllocError) => Err(OpenFault::Memory),
    }
}

/// Opens a node over an image.
pub(crate) fn open_node(alloc: Global, image: &[u8]) -> Result<OpenedNode, OpenFault>
    requires size { length image.now ≡ FLASH_OCTETS }
    ensures ok { IfOk result
        (λ r. IsOpened ⟦<NotedFlash as Flash>⟧.chip (λ f. ⟦<NotedPlace as Backing>⟧.waiting f.backing) image.now r.line
        r.node.value.calls) }
    ensures room { IfOk result (λ r. length r.line ≤ 35) }
    ensures cause { IfErr result (IsOpenCause image.now) }
{
    let line = life_line(alloc, image)?;
    let life = open_image(alloc, image)?;
    let calls = CalledNode::new(alloc, life);
    match Box::new(alloc, HeldNode { calls }) {
        Ok(node) => Ok(OpenedNode { line, node }),
        Err(_) => Err(OpenFault::Memory),
    }
}
