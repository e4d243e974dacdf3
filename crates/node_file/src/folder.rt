//! The folder of a file: the calls that make one in it, and the name under which it is made.
#![tactic(auto)]

ghost use Rattle.std.specs.Prelude.{◌≡◌, ℕ, List, Option, None, IfErr, IfOk, OnOk};
ghost use Rattle.node_file.specs.Making.{Did, Step, new_name};
ghost use Rattle.node_file.specs.Making.Step.{creates, finds, names, refuses, removes, syncs};
ghost use Rattle.std.specs.Prelude.{true, false};

use std::alloc::{AllocError, Global};
use std::fs::{self, File, OpenOptions};
use std::io;
use std::os::unix::fs::{FileExt, OpenOptionsExt};
use std::rt::Files;

/// Who may read and write the file: its owner alone, since it holds keys.
const OWNER_ALONE: u32 = 0o600;

/// Where a file is made: the calls on the folder that it is in. A name is a path.
pub trait Folder {
    // What was done with it so far, in its order, where contracts know it.
    ghost steps: { Self → Option (List Step) };

    /// Whether something has this name.
    fn find(&mut self, name: &str) -> io::Result<bool>
        ensures ok { IfOk result (λ found. Did (finds name.now found) (steps self.old) (steps self.new)) }
        ensures err { IfErr result (λ error. Did (refuses error (finds name.now false)) (steps self.old) (steps self.new)) };

    /// Makes a file of this name, which nothing has, for its owner alone, with these octets, and makes them durable. Where that is refused
    /// nothing of it is left, if it can be removed. The error is of the kind `AlreadyExists` where something has the name.
    fn create(&mut self, name: &str, octets: &[u8]) -> io::Result<()>
        ensures ok { OnOk result (Did (creates name.now octets.now) (steps self.old) (steps self.new)) }
        ensures err { IfErr result (λ error. Did (refuses error (creates name.now octets.now)) (steps self.old) (steps self.new)) };

    /// Gives what has the one name another one too, which nothing has. The error is of the kind `AlreadyExists` where something has it.
    fn name(&mut self, name: &str, other: &str) -> io::Result<()>
        ensures ok { OnOk result (Did (names name.now other.now) (steps self.old) (steps self.new)) }
        ensures err { IfErr result (λ error. Did (refuses error (names name.now other.now)) (steps self.old) (steps self.new)) };

    /// Removes a name.
    fn remove(&mut self, name: &str) -> io::Result<()>
        ensures ok { OnOk result (Did (removes name.now) (steps self.old) (steps self.new)) }
        ensures err { IfErr result (λ error. Did (refuses error (removes name.now)) (steps self.old) (steps self.new)) };

    /// Makes the names durable that are in the folder of this one.
    fn sync(&mut self, name: &str) -> io::Result<()>
        ensures ok { OnOk result (Did (syncs name.now) (steps self.old) (steps self.new)) }
        ensures err { IfErr result (λ error. Did (refuses error (syncs name.now)) (steps self.old) (steps self.new)) };
}

/// The folders of the system. It tells nothing of what was done with them: that what it answers is so, is trusted.
#[derive(Drop)]
pub struct SystemFolder<'a, R> {
    /// The system.
    pub files: &'a R,
}

/// The folder that a path is in, as a path.
fn folder_of(path: &str) -> &str {
    match path.rsplit_once('/') {
        None => ".",
        Some(("", _)) => "/",
        Some((folder, _)) => folder,
    }
}

/// Syncs the folder that a path is in, so that its names are durable.
pub(crate) fn sync_folder<R: Files<File = File>>(files: &R, path: &str) -> io::Result<()> {
    fs::open(files, folder_of(path))?.sync_all()
}

/// The name under which a file is made.
pub(crate) fn new_name(alloc: Global, path: &str) -> Result<String, AllocError>
    ensures value { IfOk result (λ name. name.bytes.items ≡ new_name path.now) }
{
    let mut name = String::new(alloc);
    name.push_str(path)?;
    name.push_str(".new")?;
    Ok(name)
}

/// A new file of this name, open to its owner alone.
fn created<R: Files<File = File>>(files: &R, name: &str) -> io::Result<File> {
    let mut how = OpenOptions::new();
    how.read(true)
        .write(true)
        .create_new(true)
        .mode(OWNER_ALONE);
    how.open(files, name)
}

/// Fills a new file, so that its octets are durable.
fn fill(file: File, octets: &[u8]) -> io::Result<()> {
    file.write_all_at(octets, 0)?;
    file.sync_all()
}

impl<R: Files<File = File>> Folder for SystemFolder<'_, R> {
    ghost steps = { λ _. None };

    fn find(&mut self, name: &str) -> io::Result<bool> {
        match fs::symlink_metadata(self.files, name) {
            Ok(_) => Ok(true),
            Err(error) if error.kind() == io::ErrorKind::NotFound => Ok(false),
            Err(error) => Err(error),
        }
    }

    fn create(&mut self, name: &str, octets: &[u8]) -> io::Result<()> {
        let filled = fill(created(self.files, name)?, octets);
        if filled.is_err() {
            // It isn't known what failed: what can't be removed either is told by the next one who makes this file.
            let _ = fs::remove_file(self.files, name);
        }
        filled
    }

    fn name(&mut self, name: &str, other: &str) -> io::Result<()> {
        fs::hard_link(self.files, name, other)
    }

    fn remove(&mut self, name: &str) -> io::Result<()> {
        fs::remove_file(self.files, name)
    }

    fn sync(&mut self, name: &str) -> io::Result<()> {
        sync_folder(self.files, name)
    }
}
