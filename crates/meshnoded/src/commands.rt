//! What each command does, over whatever its streams and files are.
#![tactic(auto)]

ghost use Rattle.std.specs.Prelude.{◌≡◌, ◌⊎◌, ℕ, IfErr, IfOk, OnErr, OnOk};
ghost use Rattle.daemon_words.specs.Commands.{HasNumbers};
ghost use Rattle.daemon_words.specs.Numbers.{IsNumbers};
ghost use Rattle.mesh_base.specs.Outside.{Rose};
ghost use Rattle.node_file.specs.declared.faults.OpenFault.{OpenFault};
ghost use Rattle.report_writer.specs.Handing.{HandedFront, IsHanded};
ghost use Rattle.report_writer.specs.Writing.{view_of};
ghost use Rattle.meshnoded.specs.Answering.{IsMade, IsOpened, IsTold, IsUntold};
ghost use Rattle.meshnoded.specs.Causes.{IsSinkFailure, IsSourceFailure};
ghost use Rattle.meshnoded.specs.Failing.{open_failure};
ghost use Rattle.meshnoded.specs.Reading.{HasKeys, HasText, IsKeyless, IsUnmade, IsUnread};
ghost use Rattle.meshnoded.specs.declared.failure.Failure.TheVariants as failures;

use crate::failure::Failure;
use crate::files::NodeFiles;
use daemon_words::{HELP, NodeKeys, NodeNumbers, VERSION, keys_of, provision_with};
use flash_model::Flash;
use mesh_base::outside::{Sink, Source};
use node_file::NodeFlash;
use node_state::show;
use report_writer::write_text;
use std::alloc::Global;

/// More octets than two keys have with what parts them.
const MOST_OCTETS: usize = 256;

/// Writes a text.
pub fn print<K: Sink>(sink: &mut K, text: &[u8]) -> Result<(), Failure>
    ensures ok { OnOk result (IsHanded text.now (view_of K.held K.pieces sink.old) (view_of K.held K.pieces sink.new)) }
    ensures err { IfErr result
        (λ failure. (failure ≡ failures.Write)
        × HandedFront text.now (view_of K.held K.pieces sink.old) (view_of K.held K.pieces sink.new)) }
    ensures cause { OnErr result (Rose (K.faults sink.old) (K.faults sink.new)) }
    ensures no_fault { OnOk result (K.faults sink.new ≡ K.faults sink.old) }
{
    match write_text(sink, text) {
        Ok(()) => Ok(()),
        Err(_) => Err(Failure::Write),
    }
}

/// `--help`: the commands are told.
pub fn tell_help<K: Sink>(sink: &mut K) -> Result<(), Failure>
    ensures ok { OnOk result (IsHanded HELP.now (view_of K.held K.pieces sink.old) (view_of K.held K.pieces sink.new)) }
    ensures err { IfErr result
        (λ failure. (failure ≡ failures.Write)
        × HandedFront HELP.now (view_of K.held K.pieces sink.old) (view_of K.held K.pieces sink.new)) }
    ensures cause { OnErr result (Rose (K.faults sink.old) (K.faults sink.new)) }
    ensures no_fault { OnOk result (K.faults sink.new ≡ K.faults sink.old) }
{
    print(sink, HELP.as_bytes())
}

/// `--version`: the version is told.
pub fn tell_version<K: Sink>(sink: &mut K) -> Result<(), Failure>
    ensures ok { OnOk result
        (IsHanded VERSION.now (view_of K.held K.pieces sink.old) (view_of K.held K.pieces sink.new)) }
    ensures err { IfErr result
        (λ failure. (failure ≡ failures.Write)
        × HandedFront VERSION.now (view_of K.held K.pieces sink.old) (view_of K.held K.pieces sink.new)) }
    ensures cause { OnErr result (Rose (K.faults sink.old) (K.faults sink.new)) }
    ensures no_fault { OnOk result (K.faults sink.new ≡ K.faults sink.old) }
{
    print(sink, VERSION.as_bytes())
}

/// All that a source has, where that is fewer octets than a text of keys may have.
fn read_text<S: Source>(alloc: Global, source: &mut S) -> Result<Vec<u8>, Failure>
    ensures ok { IfOk result (λ v. HasText (S.left source.old) (S.left source.new) v.items) }
    ensures no_fault { OnOk result (S.faults source.new ≡ S.faults source.old) }
    ensures err { IfErr result
        (IsUnread (S.left source.old) (S.faults source.old) (S.left source.new) (S.faults source.new)) }
    ensures cause { IfErr result (λ failure. IsSourceFailure failure (S.faults source.old) (S.faults source.new)) }
{
    let mut text = Vec::new(alloc);
    let mut octets = [0u8; MOST_OCTETS];
    while text.len() < MOST_OCTETS {
        match source.read(&mut octets) {
            Ok(0) => return Ok(text),
            Ok(count) => text.extend_from_slice(&octets[..count])?,
            Err(_) => return Err(Failure::Read),
        }
    }
    Err(Failure::Keys)
}

/// The keys that a source has, which has nothing else.
fn read_keys<S: Source>(alloc: Global, source: &mut S) -> Result<NodeKeys, Failure>
    ensures value { IfOk result (HasKeys (S.left source.old) (S.left source.new)) }
    ensures no_fault { OnOk result (S.faults source.new ≡ S.faults source.old) }
    ensures err { IfErr result
        (IsKeyless (S.left source.old) (S.faults source.old) (S.left source.new) (S.faults source.new)) }
    ensures cause { IfErr result (λ failure. IsSourceFailure failure (S.faults source.old) (S.faults source.new)) }
{
    let text = read_text(alloc, source)?;
    match keys_of(alloc, text.as_slice())? {
        Some(keys) => Ok(keys),
        None => Err(Failure::Keys),
    }
}

/// `init`: the file of a new node is made, with the keys that a source has.
pub fn init<H: NodeFiles, S: Source>(
    files: &H,
    alloc: Global,
    file: &str,
    numbers: NodeNumbers,
    source: &mut S,
) -> Result<(), Failure>
    requires numbers { IsNumbers numbers }
    ensures made { OnOk result
        (IsMade (H.makes files.now file.now) numbers (S.left source.old) (S.left source.new)) }
    ensures err { IfErr result
        (IsUnmade (H.unmakes files.now file.now) numbers (S.left source.old) (S.faults source.old) (S.left source.new)
        (S.faults source.new)) }
    ensures cause { IfErr result (λ failure. IsSourceFailure failure (S.faults source.old) (S.faults source.new)) }
    ensures no_fault { OnOk result (S.faults source.new ≡ S.faults source.old) }
{
    let keys = read_keys(alloc, source)?;
    files.make(alloc, file, &provision_with(numbers, keys))?;
    Ok(())
}

/// `show`: what the file stores is told, but no key.
pub fn tell<H: NodeFiles, K: Sink>(
    files: &H,
    alloc: Global,
    file: &str,
    sink: &mut K,
) -> Result<(), Failure>
    ensures ok { OnOk result
        (IsTold (⟦<NodeFlash as Flash>⟧.chip) (H.opens files.now file.now)
        (λ text. IsHanded text (view_of K.held K.pieces sink.old) (view_of K.held K.pieces sink.new))) }
    ensures err { IfErr result
        (IsUntold (⟦<NodeFlash as Flash>⟧.chip) (H.opens files.now file.now) (H.refuses files.now file.now)
        (view_of K.held K.pieces sink.old) (view_of K.held K.pieces sink.new)) }
    ensures cause { IfErr result (λ failure. IsSinkFailure failure (K.faults sink.old) (K.faults sink.new)) }
    ensures no_fault { OnOk result (K.faults sink.new ≡ K.faults sink.old) }
{
    let mut flash = files.open(alloc, file)?;
    let text = show(alloc, &mut flash)?;
    print(sink, text.as_slice())
}

/// `check`: it is told by the answer whether the file holds a node.
pub fn check<H: NodeFiles>(files: &H, alloc: Global, file: &str) -> Result<(), Failure>
    ensures opened { OnOk result (IsOpened (⟦<NodeFlash as Flash>⟧.chip) (H.opens files.now file.now)) }
    ensures unopened { IfErr result
        (λ failure. (fault : OpenFault) × (failure ≡ open_failure fault) × H.refuses files.now file.now fault) }
{
    files.open(alloc, file)?;
    Ok(())
}
