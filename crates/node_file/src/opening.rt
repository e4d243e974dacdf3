//! A file that is there.
#![tactic(auto)]

ghost use Rattle.std.specs.Prelude.{◌≡◌, length, IfOk};
ghost use Rattle.flash_model.specs.Chip.{IsFresh};
ghost use Rattle.node_store.specs.Tie.{IsNode};

use crate::faults::OpenFault;
use crate::folder::{new_name, sync_folder};
use file_flash::{FileFlash, StdBacking};
use flash_model::{FLASH_OCTETS, Flash, MemFlash};
use node_store::read_image;
use std::alloc::Global;
use std::fs::{self, File, Metadata, OpenOptions, TryLockError};
use std::io;
use std::os::unix::fs::{FileExt, MetadataExt};
use std::rt::Files;

/// The flash of a node in a file.
pub type NodeFlash = FileFlash<MemFlash, StdBacking>;

/// Octets of a file.
const FILE_OCTETS: u64 = FLASH_OCTETS as u64;

/// What is told of a name, where it is one of a file.
fn file_told<R: Files>(files: &R, path: &str) -> Result<Metadata, OpenFault> {
    let told = match fs::symlink_metadata(files, path) {
        Ok(told) => told,
        Err(error) if error.kind() == io::ErrorKind::NotFound => return Err(OpenFault::Missing),
        Err(error) => return Err(OpenFault::System(error)),
    };
    if !told.is_file() {
        return Err(OpenFault::NotAFile);
    }
    Ok(told)
}

/// Whether two are one file.
fn is_same(one: &Metadata, other: &Metadata) -> bool {
    one.dev() == other.dev() && one.ino() == other.ino()
}

/// Removes the name under which a file was made, where that is its second name and it has no third.
fn finish_making<R: Files>(
    files: &R,
    alloc: Global,
    path: &str,
    told: &Metadata,
) -> Result<(), OpenFault> {
    if told.nlink() != 2 {
        return Err(OpenFault::SecondName);
    }
    let name = new_name(alloc, path)?;
    match fs::symlink_metadata(files, name.as_str()) {
        Ok(other) if is_same(told, &other) => {
            fs::remove_file(files, name.as_str())?;
            Ok(())
        }
        _ => Err(OpenFault::SecondName),
    }
}

/// Opens a file under its lock, and not under a number of the standard streams, even where one of these is closed: what is told there would be
/// written over the file, and what is read there would be the file.
fn locked_file<R: Files<File = File>>(files: &R, path: &str) -> Result<File, OpenFault> {
    // A file is opened under the lowest number that is free. So while these are open, the numbers of the three streams are taken. A folder gives
    // no octets to who reads one of these numbers meanwhile, as the thread that reads standard input may.
    let _below = [
        fs::open(files, "/")?,
        fs::open(files, "/")?,
        fs::open(files, "/")?,
    ];
    let file = OpenOptions::new().read(true).write(true).open(files, path)?;
    match file.try_lock() {
        Ok(()) => Ok(file),
        Err(TryLockError::WouldBlock) => Err(OpenFault::Locked),
        Err(TryLockError::Error(error)) => Err(OpenFault::System(error)),
    }
}

/// The octets of a file, of which there are 65,536.
fn read_octets(alloc: Global, file: &File) -> Result<Vec<u8>, OpenFault>
    ensures size { IfOk result (λ octets. length octets.items ≡ FLASH_OCTETS) }
{
    let octets = file.metadata()?.len();
    if octets != FILE_OCTETS {
        return Err(OpenFault::Size { octets });
    }
    let mut image = vec![in alloc; 0u8; FLASH_OCTETS as usize]?;
    file.read_exact_at(&mut image, 0)?;
    Ok(image)
}

/// Opens the file of a node, for this process alone. The flash that is handed out is one from which a life can be opened, whatever the file holds:
/// fresh, with a node, or one that was reset (`fresh`, `node`, `began`). No program or erase call was counted of it yet (`uncalled`).
///
/// # Errors
///
/// As [`OpenFault`] tells. Nothing was written to the file then.
pub fn open_node<R: Files<File = File>>(
    files: &R,
    alloc: Global,
    path: &str,
) -> Result<NodeFlash, OpenFault>
    ensures fresh { IfOk result (λ f. IsFresh (⟦<NodeFlash as Flash>⟧.chip f)) }
    ensures node { IfOk result (λ f. IsNode (⟦<NodeFlash as Flash>⟧.chip f).now) }
    ensures began { IfOk result
        (λ f. (⟦<NodeFlash as Flash>⟧.chip f).setting.faults ≡ (⟦<NodeFlash as Flash>⟧.chip f).faults) }
    ensures uncalled { IfOk result (λ f. (⟦<NodeFlash as Flash>⟧.chip f).changes ≡ 0) }
{
    let told = file_told(files, path)?;
    let file = locked_file(files, path)?;
    if !is_same(&told, &file.metadata()?) {
        return Err(OpenFault::NotAFile);
    }
    if told.nlink() != 1 {
        finish_making(files, alloc, path, &told)?;
    }
    file.sync_all()?;
    sync_folder(files, path)?;
    let image = read_octets(alloc, &file)?;
    let mut flash = FileFlash::new(alloc, StdBacking { file }, &image)?;
    read_image(&mut flash)?;
    Ok(flash)
}
