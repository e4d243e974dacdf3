//! A node over an image.
#![tactic(auto)]

ghost use Rattle.std.specs.Prelude.{◌≡◌, List, [], length, false, Some, IfErr, IfOk, OnOk};
ghost use Rattle.event_definitions.specs.Role.{node_role};
ghost use Rattle.file_flash.specs.Noted.{Put};
ghost use Rattle.mesh_node.specs.Held.{HasLived};
ghost use Rattle.node_layers.specs.NodeLayers.{node_layers};
ghost use Rattle.node_store.specs.Tie.{IsNode};
ghost use Rattle.linked_node.specs.Causes.{IsOpenCause};
ghost use Rattle.linked_node.specs.Migration.{AreOfMigration};

use crate::faults::OpenFault;
use file_flash::{Backing, FileFlash, NotedFlash, NotedPlace, waiting_law};
use flash_model::{FLASH_OCTETS, Flash, MemFlash};
use machine_contract::StartFault;
use mesh_machine::MeshMachine;
use mesh_node::HeldLife;
use node_store::read_image;
use std::alloc::{AllocError, Global};

/// A node that is linked.
pub type LinkedNode = HeldLife<MeshMachine, NotedFlash>;

/// Opens a node over an image of 65,536 octets that holds one: whatever the image holds, a life is opened over it, or there is a refusal. The writes of
/// the node are those on this image (`saved`). None waits, but over an image of format 01: then those of a migration (`writes`). Program and erase
/// calls are counted from this image on (`uncalled`), and the octets that the program calls are given (`unprogrammed`).
///
/// # Errors
///
/// As [`OpenFault`] tells (`cause`). Nothing is to be written then.
pub fn open_image(alloc: Global, image: &[u8]) -> Result<LinkedNode, OpenFault>
    ensures size { OnOk result (length image.now ≡ FLASH_OCTETS) }
    ensures node { OnOk result (IsNode image.now) }
    ensures start { IfOk result (λ r. (⟦<NotedFlash as Flash>⟧.chip r.node.start).now ≡ image.now) }
    ensures uncalled { IfOk result (λ r. (⟦<NotedFlash as Flash>⟧.chip r.node.start).changes ≡ 0) }
    ensures unprogrammed { IfOk result (λ r. (⟦<NotedFlash as Flash>⟧.chip r.node.start).octets ≡ 0) }
    ensures saved { IfOk result (λ r. (⟦<NotedFlash as Flash>⟧.chip r.node.flash).setting.saved ≡ image.now) }
    ensures writes { IfOk result
        (λ r. (puts : List Put) → ⟦<NotedPlace as Backing>⟧.waiting r.node.flash.backing ≡ Some puts → AreOfMigration image.now puts) }
    ensures usable { IfOk result (λ r. r.node.machine.closed ≡ false) }
    ensures held { IfOk result (λ r. HasLived (node_role node_layers) IsNode ⟦<NotedFlash as Flash>⟧.chip r [] []) }
    ensures cause { IfErr result (IsOpenCause image.now) }
{
    if image.len() != FLASH_OCTETS as usize {
        return Err(OpenFault::Size {
            octets: image.len() as u64,
        });
    }
    let mut flash = match FileFlash::new(alloc, NotedPlace::new(alloc), image) {
        Ok(flash) => flash,
        Err(AllocError) => return Err(OpenFault::Memory),
    };
    match read_image(&mut flash) {
        Ok(_) => {}
        Err(fault) => return Err(OpenFault::Image(fault)),
    }
    // It does nothing when it runs: the proof uses what it says.
    waiting_law::<MemFlash, NotedPlace>();
    match LinkedNode::open(alloc, flash) {
        Ok(node) => Ok(node),
        Err(unopened) => match unopened.fault {
            StartFault::Flash => Err(OpenFault::Flash),
            StartFault::WasReset => Err(OpenFault::WasReset),
            StartFault::Memory => Err(OpenFault::Memory),
        },
    }
}
