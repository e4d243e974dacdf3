//! A file for a new node.
#![tactic(auto)]

ghost use Rattle.std.specs.Prelude.{◌≡◌, List, IfErr, IfOk, IsTrue, OnOk, length};
ghost use Rattle.flash_model.specs.Chip.{IsFresh};
ghost use Rattle.slot_journal.specs.Format.{IsErased};
ghost use Rattle.node_store.specs.Provisioning.{IsProvision};
ghost use Rattle.node_file.specs.Making.{Did, DidAll, DidSome, IsImageOf, IsMade, IsRefusal, IsUnmade, IsUnnamed, naming};
ghost use Rattle.node_file.specs.Making.Step.{creates, refuses};
ghost use Rattle.node_file.specs.declared.faults.MakeFault.TheVariants.{Begun};
ghost use Rattle.std.specs.declared.io.Error.{Error};

use crate::faults::MakeFault;
use crate::folder::{Folder, SystemFolder, new_name};
use flash_model::{FLASH_OCTETS, Flash, MemFlash};
use node_store::{Provision, Store};
use std::alloc::{AllocError, Global};
use std::fs::File;
use std::io;
use std::rt::Files;

/// What is answered where a call that wants a new name was refused.
fn refusal(error: io::Error, taken: MakeFault) -> MakeFault
    ensures { IsRefusal taken error result }
{
    if error.kind() == io::ErrorKind::AlreadyExists {
        taken
    } else {
        MakeFault::System(error)
    }
}

/// Provisions a node on an erased flash that doesn't fail, and reads what it holds then.
fn provision_on<F: Flash>(flash: &mut F, provision: &Provision, image: &mut [u8])
    requires provision { IsProvision provision.now }
    requires size { length image.old ≡ FLASH_OCTETS }
    requires erased { IsErased (F.chip flash.old).now }
    requires fresh { IsFresh (F.chip flash.old) }
    requires sure { IsTrue (F.chip flash.old).sure }
    ensures image { IsImageOf provision.now image.new }
{
    Store::provision(flash, provision).unwrap();
    flash.read(0, image).unwrap();
}

/// The octets of a flash on which a node was provisioned so.
fn image_of(alloc: Global, provision: &Provision) -> Result<Vec<u8>, AllocError>
    requires provision { IsProvision provision.now }
    ensures image { IfOk result (λ image. IsImageOf provision.now image.items) }
{
    let mut flash = MemFlash::new(alloc)?;
    let mut image = vec![in alloc; 0xffu8; FLASH_OCTETS as usize]?;
    provision_on(&mut flash, provision, &mut image);
    Ok(image)
}

/// Makes a file that is whole, under a name which nothing has.
fn created<W: Folder>(folder: &mut W, name: &str, image: &[u8]) -> Result<(), MakeFault>
    ensures ok { OnOk result (Did (creates name.now image.now) (W.steps folder.old) (W.steps folder.new)) }
    ensures err { IfErr result
        (λ fault. (error : Error) × Did (refuses error (creates name.now image.now)) (W.steps folder.old) (W.steps folder.new)
        × IsRefusal Begun error fault) }
{
    match folder.create(name, image) {
        Ok(()) => Ok(()),
        Err(error) => Err(refusal(error, MakeFault::Begun)),
    }
}

/// Gives a file that is whole its name, which nothing has, in place of the one under which it was made.
fn named<W: Folder>(folder: &mut W, name: &str, path: &str) -> Result<(), MakeFault>
    ensures ok { OnOk result (DidAll (naming name.now path.now) (W.steps folder.old) (W.steps folder.new)) }
    ensures err { IfErr result
        (λ fault. DidSome (IsUnnamed name.now path.now fault) (W.steps folder.old) (W.steps folder.new)) }
{
    match folder.name(name, path) {
        Ok(()) => {}
        Err(error) => {
            // What can't be removed either is told by the next one who makes this file.
            let _ = folder.remove(name);
            return Err(refusal(error, MakeFault::Taken));
        }
    }
    folder.remove(name)?;
    folder.sync(path)?;
    Ok(())
}

/// Makes the file of a new node in a folder, as [`make_node`] does. What it did is told step by step: all that makes the file with the octets of
/// the node (`made`); or these up to one that was refused, or less, and which fault stands for that (`unmade`).
pub fn make_in<W: Folder>(
    folder: &mut W,
    alloc: Global,
    path: &str,
    provision: &Provision,
) -> Result<(), MakeFault>
    requires provision { IsProvision provision.now }
    ensures made { OnOk result (IsMade path.now provision.now (W.steps folder.old) (W.steps folder.new)) }
    ensures unmade { IfErr result
        (λ fault. DidSome (IsUnmade path.now provision.now fault) (W.steps folder.old) (W.steps folder.new)) }
{
    if folder.find(path)? {
        return Err(MakeFault::Taken);
    }
    let name = new_name(alloc, path)?;
    let image = image_of(alloc, provision)?;
    created(folder, name.as_str(), image.as_slice())?;
    named(folder, name.as_str(), path)
}

/// Makes the file of a new node, which is provisioned so. It is open to its owner alone.
///
/// # Errors
///
/// As [`MakeFault`] tells. There is no file under the name then, unless there was one before, which stays as it is; or, where the system refused
/// to remove the other name or to sync the folder, the whole node. What was begun under the other name is removed, where that can be done.
pub fn make_node<R: Files<File = File>>(
    files: &R,
    alloc: Global,
    path: &str,
    provision: &Provision,
) -> Result<(), MakeFault>
    requires provision { IsProvision provision.now }
{
    make_in(&mut SystemFolder { files }, alloc, path, provision)
}
